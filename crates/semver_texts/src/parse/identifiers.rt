ghost use Rattle.std.specs.Prelude.{◌≡◌, ◌&&◌, ◌^◌, ◌+◌, ◌-◌, ◌*◌, nat_lt, if◌then◌else◌, Some, None};
ghost use Rattle.std.specs.List.{list_all};
ghost use Rattle.semver_texts.specs.Characters as Characters;
ghost use Rattle.semver_texts.specs.NumberText.{number_of};
ghost use Rattle.semver_texts.specs.Reading as Reading;

use crate::parse::number::is_digit;
use crate::parse::skip::{skip_one, split};

// Each identifier character is at its own index. At every other index is a comma, which is none.
static IDENTIFIER_CHARACTERS: [u8; 256] = *b"\
    ,,,,,,,,,,,,,,,,,,,,,,,,,,,,,,,,\
    ,,,,,,,,,,,,,-,,0123456789,,,,,,\
    ,ABCDEFGHIJKLMNOPQRSTUVWXYZ,,,,,\
    ,abcdefghijklmnopqrstuvwxyz,,,,,\
    ,,,,,,,,,,,,,,,,,,,,,,,,,,,,,,,,\
    ,,,,,,,,,,,,,,,,,,,,,,,,,,,,,,,,\
    ,,,,,,,,,,,,,,,,,,,,,,,,,,,,,,,,\
    ,,,,,,,,,,,,,,,,,,,,,,,,,,,,,,,,";

// An ASCII letter, a digit or `-`. `inline(always)` in this file: these are the steps of the loop over a list of
// identifiers.
#[inline(always)]
pub fn is_identifier_character(byte: u8) -> bool
    ensures { result ≡ Characters.is_identifier_character byte }
{
    IDENTIFIER_CHARACTERS[byte as usize] != b','
}

/// Returns `true` if the text begins with an identifier.
#[inline(always)]
pub fn begins_identifier(text: &[u8]) -> bool
    ensures { result ≡ Reading.begins Characters.is_identifier_character text.now }
{
    match text {
        [first, ..] => is_identifier_character(*first),
        [] => false,
    }
}

// `alpha` and `.1` of `alpha.1`: the longest identifier and the rest
#[inline(always)]
pub(crate) fn split_identifier(text: &[u8]) -> (&[u8], &[u8])
    ensures identifier { result.0.now ≡ Reading.prefix_of Characters.is_identifier_character text.now }
    ensures rest { result.1.now ≡ Reading.rest_of Characters.is_identifier_character text.now }
{
    split(text, is_identifier_character)
}

// The number with one more digit, if it has at most 64 bits.
#[inline(always)]
fn one_more(value: u64, byte: u8) -> Option<u64>
    ensures { let more = value * 10 + (byte - 48) in
        result ≡ (if Characters.is_digit byte && nat_lt more (2 ^ 64) then Some more else None) }
{
    if !is_digit(byte) {
        return None;
    }
    let tens = value.checked_mul(10)?;
    tens.checked_add(u64::from(byte - b'0'))
}

/// Returns the number that the digits write, if the text is digits only and the number has at most 64 bits.
#[inline(always)]
pub fn numeric(text: &[u8]) -> Option<u64>
    ensures { result ≡ (if list_all Characters.is_digit text.now && nat_lt (number_of text.now) (2 ^ 64)
        then Some (number_of text.now) else None) }
{
    // Most identifiers begin with a letter: they are no numbers.
    if let [first, ..] = text
        && !is_digit(*first)
    {
        return None;
    }
    let mut value: u64 = 0;
    let mut rest = text;
    'digits: while let Some((byte, others)) = rest.split_first() {
        match one_more(value, *byte) {
            Some(more) => value = more,
            None => return None,
        }
        rest = others;
    }
    Some(value)
}

// The text without the `-` that it begins with, if it does.
#[inline(always)]
pub(crate) fn skip_hyphen(text: &[u8]) -> &[u8]
    ensures { result.now ≡ Reading.skip_one Reading.is_hyphen text.now }
{
    skip_one(text, |byte| byte == b'-')
}

// The text without the `+` that it begins with, or an empty text if it begins with none.
#[inline(always)]
#[tactic(auto, unfolding(crate::specs::Reading::skip_plus))]
pub(crate) fn skip_plus(text: &[u8]) -> &[u8]
    ensures { result.now ≡ Reading.skip_plus text.now }
{
    match text {
        [b'+', rest @ ..] => rest,
        _ => &text[..0],
    }
}
