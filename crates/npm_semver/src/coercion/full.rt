//! A piece with its prerelease and its build.
ghost use Rattle.std.specs.Prelude.{◌≡◌, ◌+◌, ◌<◌, ◌≤◌, ℕ, List, IfNone, IfSome, length};
ghost use Rattle.npm_semver.specs.Coerce.{IsNumberAt};
ghost use Rattle.npm_semver.specs.CoerceWithPrerelease.{Ends, IsFirstFull};
ghost use Rattle.npm_semver.specs.Private.ExtraViews.{IsFullAt, IsTooLongAt, ends_of};
ghost use Rattle.npm_semver.specs.Private.PieceViews.{numbers_of};
ghost use Rattle.semver_texts.specs.declared.TheConstants.{MAX_LENGTH};

use super::extras::{Extra, extra_end};
use super::first::{number_from, piece_from};
use super::piece::Piece;
use semver_texts::MAX_LENGTH;

// A piece, where it starts, and where its numbers, its prerelease and its build end.
#[derive(Clone, Copy)]
pub(super) struct FullPiece<'a> {
    pub(super) piece: Piece<'a>,
    pub(super) start: usize,
    pub(super) numbers_end: usize,
    pub(super) prerelease_end: usize,
    pub(super) end: usize,
}

// Returns the longest piece that starts with this number, with its prerelease and its build. Returns `None` if it is
// longer than a version can be.
pub(super) fn full_from(text: &[u8], start: usize, first: usize) -> Option<FullPiece<'_>>
    requires { IsNumberAt text.now start first }
    ensures full { IfSome result (IsFullAt text.now) }
    ensures start { IfSome result (λ p. p.start ≡ start) }
    ensures short { IfSome result (λ p. p.end ≤ start + MAX_LENGTH) }
    ensures within { IfSome result (λ p. p.end ≤ length text.now) }
    ensures none { IfNone result (IsTooLongAt text.now start) }
{
    let (piece, numbers_end) = piece_from(text, start, first);
    let limit = start + MAX_LENGTH;
    let Some(prerelease_end) = extra_end(Extra::Prerelease, text, numbers_end, limit) else {
        return None;
    };
    let Some(end) = extra_end(Extra::Build, text, prerelease_end, limit) else {
        return None;
    };
    Some(FullPiece {
        piece,
        start,
        numbers_end,
        prerelease_end,
        end,
    })
}

// Returns the one that starts first. Returns `None` also if that one is longer than a version can be.
pub(super) fn first_full(text: &[u8]) -> Option<FullPiece<'_>>
    ensures some { IfSome result (λ p. IsFirstFull text.now p.start (ends_of p) (numbers_of p.piece)) }
    ensures within { IfSome result (λ p. p.end ≤ length text.now) }
    ensures none { IfNone result ((start : ℕ) (ends : Ends) (numbers : List (List ℕ))
        → IsFirstFull text.now start ends numbers → start + MAX_LENGTH < ends.build) }
{
    match number_from(text, 0) {
        Some((start, first)) => full_from(text, start, first),
        None => None,
    }
}
