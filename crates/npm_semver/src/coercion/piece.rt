//! A piece of a text that looks like a version.
ghost use Rattle.std.specs.Prelude.{ℕ, IfNone, IfSome};
ghost use Rattle.npm_semver.specs.Coerce.{IsReleaseOf, IsStrictNumber};
ghost use Rattle.npm_semver.specs.Private.PieceViews.{numbers_of};
ghost use Rattle.semver_texts.specs.Version.{VersionValue};

use crate::strict::written::has_zero_in_front;
use node_semver::Version;
use semver_texts::parse::number::read_number;
use std::alloc::Global;

// The texts of the numbers of a piece.
#[derive(Clone, Copy)]
pub(super) enum Piece<'a> {
    One(&'a [u8]),
    Two(&'a [u8], &'a [u8]),
    Three(&'a [u8], &'a [u8], &'a [u8]),
}

impl<'a> Piece<'a> {
    // The release with these numbers, where those that are missing are 0.
    pub(super) fn release(self, alloc: Global) -> Option<Version>
        ensures found { IfSome result (IsReleaseOf (numbers_of self.entry)) }
        ensures none { IfNone result ((v : VersionValue) → ¬ IsReleaseOf (numbers_of self.entry) v) }
    {
        match self {
            Piece::One(major) => Some(Version::new(alloc, strict_number(major)?, 0, 0)),
            Piece::Two(major, minor) => {
                let major = strict_number(major)?;
                Some(Version::new(alloc, major, strict_number(minor)?, 0))
            }
            Piece::Three(major, minor, patch) => {
                let major = strict_number(major)?;
                let minor = strict_number(minor)?;
                Some(Version::new(alloc, major, minor, strict_number(patch)?))
            }
        }
    }
}

// The number that the text writes without a zero in front, if it is at most `MAX_SAFE_INTEGER`.
#[tactic(auto, using(crate::proofs::Versions::StrictNumbers::strict_read))]
fn strict_number(text: &[u8]) -> Option<u64>
    ensures some { IfSome result (IsStrictNumber text.now) }
    ensures none { IfNone result ((number : ℕ) → ¬ IsStrictNumber text.now number) }
{
    if has_zero_in_front(text) {
        return None;
    }
    let Ok((number, rest)) = read_number(text) else {
        return None;
    };
    if rest.is_empty() { Some(number) } else { None }
}
