//! `1.2.3`, `1.2`, `1.x`, `*`
ghost use Rattle.std.specs.Prelude.{◌≡◌};
ghost use Rattle.semver_sets.specs.Operators.{plain_row};
ghost use Rattle.semver_sets.specs.PartialText.{by_row};
ghost use Rattle.semver_sets.specs.WordEnds.{IsSound, partial_seen};
ghost use Rattle.semver_sets.specs.Private.WordViews.{some_ends};

use crate::partial::Partial;
use crate::word::ends::{WordEnds, WordVersion, at_least, exactly, with_major, with_minor};

// The ends of a partial alone.
#[inline(always)]
pub(crate) fn plain_ends<'a>(partial: Partial<'a>) -> Option<WordEnds<'a>>
    requires { IsSound partial }
    ensures { some_ends result ≡ by_row plain_row (partial_seen partial.entry) }
{
    match (partial.major, partial.minor, partial.patch) {
        (Some(_), Some(_), Some(_)) => Some(exactly(partial.full())),
        (Some(major), Some(minor), None) => Some(with_minor(major, minor)),
        (Some(major), None, _) => Some(with_major(major)),
        (None, _, _) => Some(at_least(WordVersion::Release(0, 0, 0))),
    }
}
