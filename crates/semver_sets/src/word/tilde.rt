//! `~1.2.3`, `~1.2`, `~> 1`
ghost use Rattle.std.specs.Prelude.{◌≡◌};
ghost use Rattle.semver_texts.specs.Characters.{is_blank};
ghost use Rattle.semver_texts.specs.Reading.{rest_of};
ghost use Rattle.semver_sets.specs.PartialText.{by_row};
ghost use Rattle.semver_sets.specs.TildeRanges.{tilde_greater_row, tilde_row};
ghost use Rattle.semver_sets.specs.Private.WordReading as Reading;
ghost use Rattle.semver_sets.specs.WordEnds.{IsSound, partial_seen};
ghost use Rattle.semver_sets.specs.Private.WordViews.{lead_seen, some_ends};

use crate::partial::Partial;
use crate::word::Lead;
use crate::word::ends::{WordEnds, WordVersion, from_up_to, with_major, with_minor};
use semver_texts::parse::skip_blanks;

// `> 1.2` of `~ > 1.2`: which tilde it is, and the rest without its leading blanks
#[inline(always)]
pub(crate) fn read_tilde(text: &[u8]) -> (Lead, &[u8])
    ensures { (lead_seen result.0, result.1.now) ≡ Reading.tilde_at (rest_of is_blank text.now) }
{
    match skip_blanks(text) {
        [b'>', rest @ ..] => (Lead::TildeGreater, skip_blanks(rest)),
        rest => (Lead::Tilde, rest),
    }
}

// The ends of a partial after `~`.
#[inline(always)]
pub(crate) fn tilde_ends<'a>(partial: Partial<'a>) -> Option<WordEnds<'a>>
    requires { IsSound partial }
    ensures { some_ends result ≡ by_row tilde_row (partial_seen partial.entry) }
{
    match (partial.major, partial.minor, partial.patch) {
        (Some(major), Some(minor), Some(_)) => {
            Some(from_up_to(partial.bare(), WordVersion::Least(major, minor + 1, 0)))
        }
        (Some(major), Some(minor), None) => Some(with_minor(major, minor)),
        (Some(major), None, None) => Some(with_major(major)),
        _ => None,
    }
}

// After `~>`: a prerelease after an x is kept, and every other partial is read as after `~`.
#[inline(always)]
pub(crate) fn tilde_greater_ends<'a>(partial: Partial<'a>) -> Option<WordEnds<'a>>
    requires { IsSound partial }
    ensures { some_ends result ≡ by_row tilde_greater_row (partial_seen partial.entry) }
{
    match (partial.major, partial.minor, partial.patch) {
        (Some(major), Some(minor), None) => {
            Some(from_up_to(partial.bare(), WordVersion::Least(major, minor + 1, 0)))
        }
        _ => tilde_ends(partial),
    }
}
