//! The names of installed packages.
ghost use Rattle.std.specs.Prelude.{◌≡◌, IfOk, List, map, ℕ};
ghost use Rattle.npm_advisories.specs.Audit.{installed_value, names_of};
ghost use Rattle.npm_advisories.specs.Files.{is_among};
ghost use Rattle.npm_advisories.specs.Index.{has_name};

use crate::Result;
use crate::found::Installed;
use crate::wanted::Names;
use std::alloc::Global;

/// The names of these packages.
pub(crate) fn names_of<'v>(alloc: Global, installed: &[Installed<'v>]) -> Result<Names<'v>>
    ensures { IfOk result (λ names. (name : List ℕ) → has_name names name
        ≡ is_among (names_of (map installed_value installed.now)) name) }
{
    let mut names = Names::new(alloc);
    for one in installed {
        names.add(one.name)?;
    }
    Ok(names)
}
