//! A tree of ranges: the versions that two dependents accept and an advisory does not hit.

ghost use Rattle.std.specs.Prelude.{◌≡◌, ◌↔◌, IfOk};
ghost use Rattle.node_semver.specs.Ranges.{RangeAdmits, TextAdmits};
ghost use Rattle.node_semver.specs.Versions.{IsPrerelease, VersionValue};
ghost use Rattle.node_semver.specs.RangeAlgebra.{sets_of_answer};
ghost use Rattle.node_semver.specs.SetTree.{formula_of, of_text};

use node_semver::{Range, SetTree};
use std::alloc::{AllocError, Global};

/// Returns the range of the releases that both range texts admit and the advisory's text does not, or `None` if the
/// tree has no cut. A text that is refused admits no release.
///
/// # Errors
///
/// Returns `AllocError` if an allocation fails.
pub fn unhit_range(
    alloc: Global,
    one: &str,
    other: &str,
    advisory: &str,
) -> Result<Option<Range>, AllocError>
    ensures { IfOk result (λ unhit. (v : VersionValue) → ¬ IsPrerelease v → RangeAdmits (sets_of_answer unhit) v
        ↔ ((TextAdmits one.now v × TextAdmits other.now v) × ¬ TextAdmits advisory.now v)) }
{
    let asked = SetTree::Both(leaf(alloc, one)?, leaf(alloc, other)?);
    let tree = SetTree::Without(Box::new(alloc, asked)?, leaf(alloc, advisory)?);
    tree.evaluate(alloc)
}

// The leaf of a tree for a range text.
fn leaf(alloc: Global, text: &str) -> Result<Box<SetTree>, AllocError>
    ensures { IfOk result (λ leaf. formula_of leaf.value ≡ of_text text.now) }
{
    Ok(Box::new(alloc, SetTree::Text(String::from_str(alloc, text)?))?)
}
