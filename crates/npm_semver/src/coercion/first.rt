//! The piece that starts first.
ghost use Rattle.std.specs.Prelude.{◌≡◌, ◌+◌, ◌≤◌, ℕ, false, List, IfNone, IfSome};
ghost use Rattle.npm_semver.specs.Coerce.{IsFirstPiece, IsNumberAt, IsPiece, is_digit_at};
ghost use Rattle.npm_semver.specs.Private.PieceViews.{IsFirstNumber, IsLongestFrom, numbers_of};

use super::number::{digits_end, is_number, next_number};
use super::piece::Piece;

// Returns the piece that starts first, and the longest of those: `1.2.3` of `1.2.3.4`.
pub(super) fn first_piece(text: &[u8]) -> Option<Piece<'_>>
    ensures some { IfSome result (λ p. (start end : ℕ) × IsFirstPiece text.now start end (numbers_of p)) }
    ensures none { IfNone result ((start end : ℕ) (numbers : List (List ℕ)) → ¬ IsPiece text.now start end numbers) }
{
    match number_from(text, 0) {
        Some((start, first)) => {
            let (piece, _) = piece_from(text, start, first);
            Some(piece)
        }
        None => None,
    }
}

// Returns the number that starts first from this place on, before which is no digit.
pub(super) fn number_from(text: &[u8], from: usize) -> Option<(usize, usize)>
    requires { (place : ℕ) → place + 1 ≡ from → is_digit_at text.now place ≡ false }
    ensures some { IfSome result (λ n. IsFirstNumber text.now from n.0 n.1) }
    ensures none { IfNone result ((start end : ℕ) → from ≤ start → ¬ IsNumberAt text.now start end) }
{
    let mut start = from;
    'numbers: while start < text.len() {
        let end = digits_end(text, start);
        if is_number(start, end) {
            return Some((start, end));
        }
        start = end + 1;
    }
    None
}

// Returns the longest piece that starts with this number, and where it ends.
pub(super) fn piece_from(text: &[u8], start: usize, first: usize) -> (Piece<'_>, usize)
    requires { IsNumberAt text.now start first }
    ensures longest { IsLongestFrom text.now start result.1 (numbers_of result.0) }
    ensures from { first ≤ result.1 }
    ensures short { result.1 ≤ first + 34 }
{
    let Some(second) = next_number(text, first) else {
        return (Piece::One(&text[start..first]), first);
    };
    match next_number(text, second) {
        None => (
            Piece::Two(&text[start..first], &text[first + 1..second]),
            second,
        ),
        Some(third) => (
            Piece::Three(
                &text[start..first],
                &text[first + 1..second],
                &text[second + 1..third],
            ),
            third,
        ),
    }
}
