//! The keys of cuts.
ghost use Rattle.std.specs.Prelude.{◌≡◌, IfOk, IsOk, OnOk};
ghost use Rattle.semver_cuts.specs.declared.cut.Cut.TheVariants.{Start};
ghost use Rattle.semver_keys.specs.CutKey as Keys;
ghost use Rattle.semver_keys.specs.CutKey.{HasCutWords};

use crate::version::version_key;
use node_semver::Version;
use semver_cuts::Cut;
use std::alloc::{AllocError, Global};

/// Returns the key of a cut, an end of a range's set. It lies among the keys of versions where the cut lies among the
/// versions.
///
/// # Errors
///
/// Returns `AllocError` if an allocation fails.
///
/// # Memory
///
/// Allocates the key. `Start` has the empty key, which allocates nothing.
///
/// # Examples
///
/// The key of `Before(1.2.3)` is that of `1.2.3`, and the key of `After(1.2.3)` is the same followed by 0. The key of
/// `Start` has no byte, and that of `End` is 255.
#[tactic(auto, unfolding(crate::specs::CutKey::cut_key))]
pub fn cut_key(alloc: Global, cut: &Cut<Version>) -> Result<Vec<u8>, AllocError>
    ensures key { IfOk result (λ key. key.items ≡ Keys.cut_key cut.now) }
    ensures words { OnOk result (HasCutWords cut.now) }
    ensures start { cut.now ≡ Start → IsOk result }
{
    match cut {
        Cut::Start => Ok(Vec::new(alloc)),
        Cut::Before(version) => version_key(alloc, version),
        Cut::After(version) => {
            let mut key = version_key(alloc, version)?;
            key.push(0)?;
            Ok(key)
        }
        Cut::End => {
            let mut key = Vec::new(alloc);
            key.push(255)?;
            Ok(key)
        }
    }
}
