//! What is needed, but left out.
ghost use Rattle.std.specs.Prelude.{◌≡◌, IfOk, map};
ghost use Rattle.serde_json.specs.View.{view};
ghost use Rattle.npm_lock.specs.Outcomes.{dependency_value};
ghost use Rattle.npm_lock_check.specs.Report as Report;
ghost use Rattle.npm_lock_check.specs.Report.{AreNeededIf};

use npm_lock::{Dependency, SoundLock, is_version_one};
use npm_lock_reports::{Omissions, left_out_but_needed};
use serde_json::Value;
use std::alloc::{AllocError, Global};

/// The groups by which a needed package may be left out. `requires` of a file of version 1 have optional dependencies too, so that what
/// is needed is not known of these.
pub(crate) fn told_omissions(lock: &Value, omissions: Omissions) -> Omissions
    ensures { result ≡ Report.told_omissions (view lock.now) omissions }
{
    Omissions {
        dev: omissions.dev,
        optional: omissions.optional && !is_version_one(lock),
    }
}

/// The dependencies that are needed and left out, if a group is left out.
pub(crate) fn needed_of(
    alloc: Global,
    lock: &SoundLock<'_>,
    omissions: Omissions,
) -> Result<Vec<Dependency>, AllocError>
    ensures { IfOk result (λ list. AreNeededIf omissions (view lock.now) (map dependency_value list.items)) }
{
    if !omissions.has_some() {
        return Ok(Vec::new(alloc));
    }
    let list = left_out_but_needed(lock, omissions)?;
    Ok(list)
}
