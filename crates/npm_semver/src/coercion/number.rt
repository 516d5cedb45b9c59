//! Numbers in a text, by their places.
ghost use Rattle.std.specs.Prelude.{◌≡◌, ◌+◌, ◌<◌, ◌≤◌, ◌↔◌, ℕ, true, false, IfNone, IfSome, IsTrue, length, slice_index};
ghost use Rattle.semver_texts.specs.Characters.{dot};
ghost use Rattle.npm_semver.specs.Coerce.{IsNumberAt, is_digit_at};
ghost use Rattle.npm_semver.specs.Private.PieceViews.{HasNoNext, HasNoPrevious};

use semver_texts::parse::number::is_digit;

// npm reads numbers of at most so many digits.
const MAX_DIGITS: usize = 16;

// Returns where the digits end that start at this place.
pub(super) fn digits_end(text: &[u8], start: usize) -> usize
    requires { start ≤ length text.now }
    ensures from { start ≤ result }
    ensures within { result ≤ length text.now }
    ensures digits { (place : ℕ) → start ≤ place → place < result → is_digit_at text.now place ≡ true }
    ensures after { is_digit_at text.now result ≡ false }
{
    let mut end = start;
    'digits: while end < text.len() && is_digit(text[end]) {
        end += 1;
    }
    end
}

// Returns where the digits start that end at this place.
pub(super) fn digits_start(text: &[u8], end: usize) -> usize
    requires { end ≤ length text.now }
    ensures to { result ≤ end }
    ensures digits { (place : ℕ) → result ≤ place → place < end → is_digit_at text.now place ≡ true }
    ensures before { (place : ℕ) → place + 1 ≡ result → is_digit_at text.now place ≡ false }
{
    let mut start = end;
    'digits: while start > 0 && is_digit(text[start - 1]) {
        start -= 1;
    }
    start
}

// Returns `true` if so many digits are a number.
pub(super) fn is_number(start: usize, end: usize) -> bool
    ensures { IsTrue result ↔ ((start < end) × (end ≤ start + 16)) }
{
    start < end && end - start <= MAX_DIGITS
}

// Returns where the number ends that follows a dot at this place.
pub(super) fn next_number(text: &[u8], place: usize) -> Option<usize>
    ensures some { IfSome result (λ end. (slice_index text.now place ≡ dot) × IsNumberAt text.now (place + 1) end) }
    ensures none { IfNone result (HasNoNext text.now place) }
{
    if place >= text.len() || text[place] != b'.' {
        return None;
    }
    let start = place + 1;
    let end = digits_end(text, start);
    if is_number(start, end) {
        Some(end)
    } else {
        None
    }
}

// Returns where the number starts and ends that is followed by a dot before this place.
pub(super) fn previous_number(text: &[u8], place: usize) -> Option<(usize, usize)>
    requires { place ≤ length text.now }
    ensures some { IfSome result (λ n. (n.1 + 1 ≡ place) × (slice_index text.now n.1 ≡ dot)
        × IsNumberAt text.now n.0 n.1) }
    ensures none { IfNone result (HasNoPrevious text.now place) }
{
    if place == 0 || text[place - 1] != b'.' {
        return None;
    }
    let end = place - 1;
    let start = digits_start(text, end);
    if is_number(start, end) {
        Some((start, end))
    } else {
        None
    }
}
