//! Where a prerelease and a build end that follow a piece.
//!
//! Each reader stops soon after a limit, so that it takes few steps for each number of a text.
ghost use Rattle.std.specs.Prelude.{◌≡◌, ◌+◌, ◌<◌, ◌≤◌, ◌^◌, ◌↔◌, ℕ, true, false, IfNone, IfSome, IsTrue, length, slice_index};
ghost use Rattle.semver_texts.specs.Characters.{is_identifier_character};
ghost use Rattle.npm_semver.specs.Coerce.{is_digit_at};
ghost use Rattle.npm_semver.specs.CoerceWithPrerelease.{IsPrereleaseIdentifierAt, IsRunAt};
ghost use Rattle.npm_semver.specs.Private.ExtraViews.{IsEnding, IsIdentifierOf, IsListEnding, IsListOf, IsLongestOf};
ghost use Rattle.npm_semver.specs.Private.ExtraViews.{IsLonger, is_character_at, is_within, mark_of};

use super::number::digits_end;
use semver_texts::parse::identifiers::is_identifier_character;

// What can follow a piece.
#[derive(Clone, Copy)]
pub(super) enum Extra {
    Prerelease,
    Build,
}

// Where something ends that starts at a place.
#[derive(Clone, Copy)]
pub(super) enum Ending {
    Missing,
    At(usize),
    AfterLimit,
}

// Returns `true` if there is this byte at the place.
fn is_at(text: &[u8], place: usize, byte: u8) -> bool
    ensures { 0 < byte → (IsTrue result ↔ (slice_index text.now place ≡ byte)) }
{
    place < text.len() && text[place] == byte
}

// Returns `true` if there is the mark before the identifiers.
fn is_marked(extra: Extra, text: &[u8], place: usize) -> bool
    ensures { IsTrue result ↔ (slice_index text.now place ≡ mark_of extra) }
{
    match extra {
        Extra::Prerelease => is_at(text, place, b'-'),
        Extra::Build => is_at(text, place, b'+'),
    }
}

// Returns where the identifier characters end that start at this place, or a place that is more than one after the
// limit.
fn characters_end(text: &[u8], start: usize, limit: usize) -> usize
    requires within { start ≤ length text.now }
    requires before { start ≤ limit + 1 }
    requires small { limit + 2 < 2 ^ 64 }
    ensures from { start ≤ result }
    ensures within { result ≤ length text.now }
    ensures characters { (place : ℕ) → start ≤ place → place < result → is_character_at text.now place ≡ true }
    ensures after { result ≤ limit + 1 → is_character_at text.now result ≡ false }
{
    let mut end = start;
    'characters: while end < text.len() && end <= limit + 1 && is_identifier_character(text[end]) {
        end += 1;
    }
    end
}

// Returns where the identifier characters end.
fn word_end(text: &[u8], start: usize, limit: usize) -> Ending
    requires within { start ≤ length text.now }
    requires small { limit + 2 < 2 ^ 64 }
    ensures ending { IsEnding (IsRunAt is_identifier_character text.now start) limit result }
    ensures within { is_within (length text.now) result }
{
    let limit = if start > limit { start } else { limit };
    let end = characters_end(text, start, limit);
    if end == start {
        Ending::Missing
    } else if end > limit + 1 {
        Ending::AfterLimit
    } else {
        Ending::At(end)
    }
}

// Returns `true` if these digits have no zero in front.
fn is_numeric(text: &[u8], start: usize, end: usize) -> bool
    requires within { end ≤ length text.now }
    ensures { IsTrue result ↔ ((start < end) × (slice_index text.now start ≡ 48 → end ≡ start + 1)) }
{
    start < end && (text[start] != b'0' || end == start + 1)
}

// Returns where the identifier ends: at the end of digits without a zero in front, or else of all identifier characters,
// if they are not digits only.
fn prerelease_identifier_end(text: &[u8], start: usize, limit: usize) -> Ending
    requires within { start ≤ length text.now }
    requires small { limit + 2 < 2 ^ 64 }
    ensures ending { IsEnding (IsPrereleaseIdentifierAt text.now start) limit result }
    ensures within { is_within (length text.now) result }
{
    let digits = digits_end(text, start);
    if is_numeric(text, start, digits) {
        Ending::At(digits)
    } else {
        word_end(text, digits, limit)
    }
}

fn identifier_end(extra: Extra, text: &[u8], start: usize, limit: usize) -> Ending
    requires within { start ≤ length text.now }
    requires small { limit + 2 < 2 ^ 64 }
    ensures ending { IsEnding (IsIdentifierOf extra text.now start) limit result }
    ensures within { is_within (length text.now) result }
{
    match extra {
        Extra::Prerelease => prerelease_identifier_end(text, start, limit),
        Extra::Build => word_end(text, start, limit),
    }
}

// Returns where the longest list of identifiers ends.
fn list_end(extra: Extra, text: &[u8], start: usize, limit: usize) -> Ending
    requires within { start ≤ length text.now }
    requires small { limit + 2 < 2 ^ 64 }
    ensures ending { IsListEnding extra text.now start limit result }
    ensures within { is_within (length text.now) result }
{
    let mut end = match identifier_end(extra, text, start, limit) {
        Ending::At(end) => end,
        Ending::Missing => return Ending::Missing,
        Ending::AfterLimit => return Ending::AfterLimit,
    };
    'identifiers: while is_at(text, end, b'.') {
        if end > limit {
            return Ending::AfterLimit;
        }
        match identifier_end(extra, text, end + 1, limit) {
            Ending::At(next) => end = next,
            Ending::Missing => return Ending::At(end),
            Ending::AfterLimit => return Ending::AfterLimit,
        }
    }
    if end <= limit {
        Ending::At(end)
    } else {
        Ending::AfterLimit
    }
}

// Returns where the longest list ends that follows its mark at this place, or the place if there is none. Returns `None`
// if it ends after the limit.
pub(super) fn extra_end(extra: Extra, text: &[u8], place: usize, limit: usize) -> Option<usize>
    requires within { place ≤ length text.now }
    requires before { place ≤ limit }
    requires small { limit + 2 < 2 ^ 64 }
    ensures some { IfSome result (IsLongestOf extra text.now place) }
    ensures none { IfNone result (IsLonger extra text.now place limit) }
    ensures within { IfSome result (λ end. (end ≤ length text.now) × (end ≤ limit)) }
{
    if !is_marked(extra, text, place) {
        return Some(place);
    }
    match list_end(extra, text, place + 1, limit) {
        Ending::Missing => Some(place),
        Ending::At(end) => Some(end),
        Ending::AfterLimit => None,
    }
}
