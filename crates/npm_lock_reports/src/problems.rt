//! The problems that count.
ghost use Rattle.std.specs.Prelude.{◌≡◌};
ghost use Rattle.serde_json.specs.View.{view};
ghost use Rattle.npm_lock_reports.specs.LeftOut.{problems_kept, unchecked_kept};

use crate::{Omissions, leave_out_problems, leave_out_unchecked};
use npm_lock::Problems;
use serde_json::Value;

/// Removes the problems and the dependencies that are not checked, of packages and of dependencies that are left out. The counts stay
/// those of all.
///
/// # Memory
///
/// Does not allocate.
pub fn leave_out_omitted(problems: &mut Problems, lock: &Value, omissions: Omissions)
    ensures problems { problems.new.list.items ≡ problems_kept omissions (view lock.now) problems.old.list.items }
    ensures unchecked { problems.new.unchecked.items ≡ unchecked_kept omissions (view lock.now) problems.old.unchecked.items }
    ensures packages { problems.new.packages ≡ problems.old.packages }
    ensures dependencies { problems.new.dependencies ≡ problems.old.dependencies }
{
    leave_out_problems(&mut problems.list, omissions, lock);
    leave_out_unchecked(&mut problems.unchecked, omissions, lock);
}
