//! The piece that ends last.
ghost use Rattle.std.specs.Prelude.{ℕ, List, IfNone, IfSome};
ghost use Rattle.npm_semver.specs.Coerce.{IsLastPiece, IsNumberAt, IsPiece};
ghost use Rattle.npm_semver.specs.Private.PieceViews.{IsLastNumber, IsLongestTo, numbers_of};

use super::number::{digits_start, is_number, previous_number};
use super::piece::Piece;

// Returns the piece that ends last, and the longest of those: `2.3.4` of `1.2.3.4`.
pub(super) fn last_piece(text: &[u8]) -> Option<Piece<'_>>
    ensures some { IfSome result (λ p. (start end : ℕ) × IsLastPiece text.now start end (numbers_of p)) }
    ensures none { IfNone result ((start end : ℕ) (numbers : List (List ℕ)) → ¬ IsPiece text.now start end numbers) }
{
    match last_number(text) {
        Some((start, end)) => Some(piece_to(text, start, end)),
        None => None,
    }
}

fn last_number(text: &[u8]) -> Option<(usize, usize)>
    ensures some { IfSome result (λ n. IsLastNumber text.now n.0 n.1) }
    ensures none { IfNone result ((start end : ℕ) → ¬ IsNumberAt text.now start end) }
{
    let mut end = text.len();
    'numbers: loop {
        let start = digits_start(text, end);
        if is_number(start, end) {
            return Some((start, end));
        }
        if start == 0 {
            return None;
        }
        end = start - 1;
    }
}

// Returns the longest piece that ends with this number.
fn piece_to(text: &[u8], third: usize, end: usize) -> Piece<'_>
    requires { IsNumberAt text.now third end }
    ensures { IsLongestTo text.now end (numbers_of result) }
{
    let Some((second, middle)) = previous_number(text, third) else {
        return Piece::One(&text[third..end]);
    };
    match previous_number(text, second) {
        None => Piece::Two(&text[second..middle], &text[third..end]),
        Some((start, first)) => Piece::Three(
            &text[start..first],
            &text[second..middle],
            &text[third..end],
        ),
    }
}
