//! `>=1.2.3`, `>1.2`, `=1`, `<=1.x`, `< v 2`
ghost use Rattle.std.specs.Prelude.{◌≡◌};
ghost use Rattle.semver_sets.specs.Operators as Operators;
ghost use Rattle.semver_sets.specs.PartialText.{by_row};
ghost use Rattle.semver_sets.specs.WordEnds.{IsSound, partial_seen};
ghost use Rattle.semver_sets.specs.Private.WordViews.{some_ends};

use crate::partial::Partial;
use crate::word::ends as ends;
use crate::word::ends::{WordEnds, WordVersion};

// The ends of a partial after `>=`.
#[inline(always)]
pub(crate) fn at_least_ends<'a>(partial: Partial<'a>) -> Option<WordEnds<'a>>
    requires { IsSound partial }
    ensures { some_ends result ≡ by_row Operators.greater_or_equal_row (partial_seen partial.entry) }
{
    Some(ends::at_least(partial.full()))
}

// After `>`.
#[inline(always)]
pub(crate) fn above_ends<'a>(partial: Partial<'a>) -> Option<WordEnds<'a>>
    requires { IsSound partial }
    ensures { some_ends result ≡ by_row Operators.greater_row (partial_seen partial.entry) }
{
    match (partial.major, partial.minor, partial.patch) {
        (Some(major), Some(minor), None) => {
            Some(ends::at_least(WordVersion::Release(major, minor + 1, 0)))
        }
        (Some(major), None, None) => Some(ends::at_least(WordVersion::Release(major + 1, 0, 0))),
        _ => Some(ends::above(partial.full())),
    }
}

// After `<`.
#[inline(always)]
pub(crate) fn below_ends<'a>(partial: Partial<'a>) -> Option<WordEnds<'a>>
    requires { IsSound partial }
    ensures { some_ends result ≡ by_row Operators.less_row (partial_seen partial.entry) }
{
    match (partial.major, partial.minor, partial.patch) {
        (Some(major), Some(minor), None) => Some(ends::below(WordVersion::Least(major, minor, 0))),
        _ => Some(ends::below(partial.full())),
    }
}

// After `<=`.
#[inline(always)]
pub(crate) fn at_most_ends<'a>(partial: Partial<'a>) -> Option<WordEnds<'a>>
    requires { IsSound partial }
    ensures { some_ends result ≡ by_row Operators.less_or_equal_row (partial_seen partial.entry) }
{
    match partial.patch {
        Some(_) => Some(ends::at_most(partial.full())),
        None => Some(ends::at_most(partial.least())),
    }
}

// After `=`.
#[inline(always)]
pub(crate) fn equal_ends<'a>(partial: Partial<'a>) -> Option<WordEnds<'a>>
    requires { IsSound partial }
    ensures { some_ends result ≡ by_row Operators.equal_row (partial_seen partial.entry) }
{
    match (partial.major, partial.minor, partial.patch) {
        (Some(_), Some(_), Some(_)) => Some(ends::exactly(partial.bare())),
        (Some(major), Some(minor), None) => Some(ends::with_minor(major, minor)),
        (Some(major), None, _) => Some(ends::with_major(major)),
        (None, _, _) => None,
    }
}
