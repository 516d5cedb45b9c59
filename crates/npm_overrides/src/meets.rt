//! Whether the range of a rule and the spec of a dependency meet.
ghost use Rattle.std.specs.Prelude.{◌≡◌, IfNone, IfOk, IfSome};
ghost use Rattle.npm_texts.specs.Admission.{IsNoRange, of_dependencies};
ghost use Rattle.npm_overrides.specs.Ranges.{AreSetsOf, Meets, MeetsText};

use crate::Result;
use node_semver::Range;
use npm_texts::{OF_DEPENDENCIES, Spec, spec_of};
use std::alloc::{AllocError, Global};

/// Returns `true` if a rule for this range counts for a dependency by this spec.
pub(crate) fn meets(alloc: Global, range: &str, spec: &str) -> Result<bool>
    ensures { IfOk result (Meets range.now spec.now) }
{
    if range == "*" {
        return Ok(true);
    }
    match spec_of(spec) {
        Spec::Text(text) => texts_meet(alloc, range, text),
        Spec::Location => Ok(true),
        Spec::Refused => Ok(true),
    }
}

/// The same for the text of a spec, which is a range or a tag.
fn texts_meet(alloc: Global, range: &str, text: &str) -> Result<bool>
    ensures { IfOk result (MeetsText range.now text.now) }
{
    match range_of(alloc, text)? {
        Some(asked) => ranges_meet(alloc, range, text, &asked),
        None => Ok(true),
    }
}

/// The same for the text of a range, which is read.
fn ranges_meet(alloc: Global, range: &str, text: &str, asked: &Range) -> Result<bool>
    requires { AreSetsOf text.now asked.now }
    ensures { IfOk result (MeetsText range.now text.now) }
{
    match range_of(alloc, range)? {
        Some(ruled) => Ok(asked.allows_any(&ruled)),
        None => Ok(false),
    }
}

/// The range of a text, or `None` if it is none.
fn range_of(alloc: Global, text: &str) -> Result<Option<Range>>
    ensures none { IfOk result (λ found. IfNone found (IsNoRange of_dependencies text.now)) }
    ensures some { IfOk result (λ found. IfSome found (AreSetsOf text.now)) }
{
    match npm_semver::parse_range(alloc, text, OF_DEPENDENCIES) {
        Ok(range) => Ok(Some(range)),
        Err(error) if error.is_out_of_memory() => Err(AllocError),
        Err(_) => Ok(None),
    }
}
