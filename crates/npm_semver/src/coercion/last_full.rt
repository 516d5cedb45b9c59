//! The piece with its prerelease and its build that npm takes from the right.
ghost use Rattle.std.specs.Prelude.{◌≡◌, ◌+◌, ◌<◌, ◌≤◌, ℕ, List, IfNone, IfSome, length};
ghost use Rattle.npm_semver.specs.CoerceWithPrerelease.{Ends, IsLastFull};
ghost use Rattle.npm_semver.specs.Private.ExtraViews.{IsFoundBefore, IsFullAt, ends_of};
ghost use Rattle.npm_semver.specs.Private.PieceViews.{IsFirstNumber, numbers_of};
ghost use Rattle.semver_texts.specs.declared.TheConstants.{MAX_LENGTH};

use super::first::number_from;
use super::full::{FullPiece, full_from};

// Returns the first one that ends where the text does, or one character before it. Otherwise returns the first of those
// that end where the one does that starts last, with none between them that ends elsewhere.
pub(super) fn last_full(text: &[u8]) -> Option<FullPiece<'_>>
    ensures some { IfSome result (λ p. IsLastFull text.now p.start (ends_of p) (numbers_of p.piece)) }
    ensures within { IfSome result (λ p. p.end ≤ length text.now) }
    ensures none { IfNone result ((start : ℕ) (ends : Ends) (numbers : List (List ℕ))
        → IsLastFull text.now start ends numbers → start + MAX_LENGTH < ends.build) }
{
    let mut found = None;
    let mut from = 0;
    'numbers: while let Some((start, first)) = number_from(text, from) {
        if let Some(piece) = full_from(text, start, first) {
            if piece.end + 1 >= text.len() {
                return Some(piece);
            }
            found = later(found, piece);
        }
        from = first + 1;
    }
    found
}

// The one that was found before, if this one ends where it does, or else this one.
fn later<'a>(found: Option<FullPiece<'a>>, piece: FullPiece<'a>) -> Option<FullPiece<'a>>
    ensures { (text : List ℕ) (from first : ℕ) → IsFoundBefore text from found.entry
        → IsFirstNumber text from piece.entry.start first → IsFullAt text piece.entry
        → piece.entry.end ≤ piece.entry.start + MAX_LENGTH → piece.entry.end + 1 < length text
        → IsFoundBefore text (first + 1) result }
{
    match found {
        None => Some(piece),
        Some(before) => {
            if before.end == piece.end {
                Some(before)
            } else {
                Some(piece)
            }
        }
    }
}
