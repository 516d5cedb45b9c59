//! The words of a piece: a lead such as `>=`, and its operand.
ghost use Rattle.std.specs.Prelude.{◌≡◌, ◌<◌, ◌∷◌, ℕ, IfSome, IfNone, IsTrue, true, length};
ghost use Rattle.semver_texts.specs.Characters.{BeginsWith, BeginsWithNo};
ghost use Rattle.semver_texts.specs.Reading.{begins, prefix_of, rest_of};
ghost use Rattle.npm_sets.specs.WordTexts as Texts;
ghost use Rattle.npm_sets.specs.WordTexts.{chunks_of, words_of};
ghost use Rattle.npm_sets.specs.Private.RefusedViews.{IsReadWord};
ghost use Rattle.npm_sets.specs.Private.WordViews.{IsNextChunk, IsReadOn, ends_word};

use semver_texts::parse::number::is_digit;
use semver_texts::parse::skip::split;

/// What is written before the operand of a word.
#[derive(Clone, Copy)]
pub(crate) enum Lead {
    // nothing
    Nothing,
    // `=`
    Equal,
    // `>=`
    AtLeast,
    // `>`
    Above,
    // `<`
    Below,
    // `<=`
    AtMost,
    // `~` or `~>`
    Tilde,
    // `^`
    Caret,
}

// A space, or one of the characters from tab to carriage return.
#[inline(always)]
fn is_space(byte: u8) -> bool
    ensures { result ≡ Texts.is_space byte }
{
    byte == b' ' || (9 <= byte && byte <= 13)
}

#[inline(always)]
fn is_solid(byte: u8) -> bool
    ensures { result ≡ Texts.is_solid byte }
{
    // Most bytes are above the space.
    byte > b' ' || !is_space(byte)
}

// `1.2` of ` 1.2`
#[inline(always)]
pub(crate) fn skip_space(text: &[u8]) -> &[u8]
    ensures { result.now ≡ rest_of Texts.is_space text.now }
{
    split(text, is_space).1
}

// `>=` and `1.2 <2` of `>= 1.2 <2`: the first chunk, and the rest without its leading white space
#[inline(always)]
pub(crate) fn split_chunk(text: &[u8]) -> (&[u8], &[u8])
    ensures chunk { result.0.now ≡ prefix_of Texts.is_solid text.now }
    ensures rest { result.1.now ≡ rest_of Texts.is_space (rest_of Texts.is_solid text.now) }
{
    let (chunk, rest) = split(text, is_solid);
    (chunk, skip_space(rest))
}

// `>=` and `1.2` of `>=1.2`
#[inline(always)]
fn split_lead(chunk: &[u8]) -> (Lead, &[u8])
    ensures { (result.0, result.1.now) ≡ Texts.lead_of chunk.now }
{
    match chunk {
        [b'>', b'=', rest @ ..] => (Lead::AtLeast, rest),
        [b'>', rest @ ..] => (Lead::Above, rest),
        [b'<', b'=', rest @ ..] => (Lead::AtMost, rest),
        [b'<', rest @ ..] => (Lead::Below, rest),
        [b'=', rest @ ..] => (Lead::Equal, rest),
        [b'~', b'>', rest @ ..] => (Lead::Tilde, rest),
        [b'~', rest @ ..] => (Lead::Tilde, rest),
        [b'^', rest @ ..] => (Lead::Caret, rest),
        _ => (Lead::Nothing, chunk),
    }
}

// ---- where a word ends

/// What a chunk ends with. npm drops the white space after an operator, so the next chunk may go on with the word.
#[derive(Clone, Copy)]
pub(crate) enum Ending {
    // no operator: the next chunk begins a word
    NoOperator,
    // `>`, `<`, `=`, `>=` or `<=`: a partial goes on
    Comparison,
    // `~>`: a chunk goes on unless it is marks alone
    TildeGreater,
    // `~` or `^`: any chunk goes on
    Sign,
}

// `v` or `=`
#[inline(always)]
fn is_mark(byte: u8) -> bool
    ensures { result ≡ Texts.is_mark byte }
{
    byte == b'v' || byte == b'='
}

// `1.2` of `v1.2`
#[inline(always)]
pub(crate) fn after_marks(text: &[u8]) -> &[u8]
    ensures { result.now ≡ rest_of Texts.is_mark text.now }
{
    split(text, is_mark).1
}

// How a chunk ends whose last two characters are these.
#[inline(always)]
fn ending_with(before: u8, last: u8) -> Ending
    ensures { result ≡ Texts.ending_with before last }
{
    match last {
        b'~' | b'^' => Ending::Sign,
        b'>' if before == b'~' => Ending::TildeGreater,
        b'>' | b'<' => Ending::Comparison,
        b'=' if !is_mark(before) => Ending::Comparison,
        _ => Ending::NoOperator,
    }
}

// How a chunk ends.
#[inline(always)]
fn ending_of(chunk: &[u8]) -> Ending
    ensures { result ≡ Texts.ending_of chunk.now }
{
    match chunk {
        [.., before, last] => ending_with(*before, *last),
        [last] => ending_with(0, *last),
        [] => Ending::NoOperator,
    }
}

// Returns `true` if the text begins with a digit or an x.
#[inline(always)]
fn begins_component(text: &[u8]) -> bool
    ensures { result ≡ begins Texts.begins_component text.now }
{
    match text {
        [b'x' | b'X' | b'*', ..] => true,
        [first, ..] => is_digit(*first),
        [] => false,
    }
}

// Returns `true` if a chunk goes on with the word before it.
fn is_joined(ending: Ending, chunk: &[u8]) -> bool
    ensures { result ≡ Texts.is_joined ending chunk.now }
{
    match ending {
        Ending::NoOperator => false,
        Ending::Comparison => begins_component(after_marks(chunk)),
        Ending::TildeGreater => !after_marks(chunk).is_empty(),
        Ending::Sign => true,
    }
}

// `>=` and `1` of `>` and `=1`
fn lead_and(lead: Lead, chunk: &[u8]) -> (Lead, &[u8])
    ensures { (result.0, result.1.now) ≡ Texts.lead_and lead chunk.now }
{
    match (lead, chunk) {
        (Lead::Above, [b'=', rest @ ..]) => (Lead::AtLeast, rest),
        (Lead::Below, [b'=', rest @ ..]) => (Lead::AtMost, rest),
        (Lead::Tilde, [b'>', rest @ ..]) => (Lead::Tilde, rest),
        _ => (lead, chunk),
    }
}

// A word with one more chunk.
fn word_and<'a>(lead: Lead, operand: &'a [u8], chunk: &'a [u8]) -> (Lead, &'a [u8])
    ensures { (result.0, result.1.now) ≡ Texts.word_and (lead, operand.now) chunk.now }
{
    match operand {
        [] => lead_and(lead, chunk),
        [b'='] => (lead, chunk),
        _ => (lead, operand),
    }
}

// The first chunk of a text and the rest, if the chunk goes on with the word before it.
fn next_chunk(ending: Ending, text: &[u8]) -> Option<(&[u8], &[u8])>
    requires { BeginsWithNo Texts.is_space text.now }
    ensures some { IfSome result (λ r. IsNextChunk ending text.now r.0.now r.1.now) }
    ensures none { IfNone result (ends_word ending (chunks_of text.now) ≡ true) }
{
    let (chunk, rest) = split_chunk(text);
    if chunk.is_empty() {
        return None;
    }
    if is_joined(ending, chunk) {
        Some((chunk, rest))
    } else {
        None
    }
}

// A word that ends with an operator has no operand.
fn ended(lead: Lead, operand: &[u8], ending: Ending) -> (Lead, &[u8])
    ensures { (result.0, result.1.now) ≡ Texts.ended (lead, operand.now) ending }
{
    match ending {
        Ending::NoOperator => (lead, operand),
        Ending::Comparison | Ending::TildeGreater | Ending::Sign => (lead, b""),
    }
}

// The rest of a word whose first chunk ends with an operator: `1.2` of `1.2 <2` after `>=`. `inline(never)`: few words
// have more than one chunk.
#[inline(never)]
fn read_on<'a>(
    lead: Lead,
    operand: &'a [u8],
    ending: Ending,
    text: &'a [u8],
) -> (Lead, &'a [u8], &'a [u8])
    requires { BeginsWithNo Texts.is_space text.now }
    ensures { IsReadOn (lead, operand.now) ending text.now (result.0, result.1.now) result.2.now }
{
    let mut lead = lead;
    let mut operand = operand;
    let mut ending = ending;
    let mut rest = text;
    while let Some((chunk, others)) = next_chunk(ending, rest) {
        let (longer, after) = word_and(lead, operand, chunk);
        lead = longer;
        operand = after;
        ending = ending_of(chunk);
        rest = others;
    }
    let (lead, operand) = ended(lead, operand, ending);
    (lead, operand, rest)
}

// The first word of a text, and the rest without its leading white space: `>=`, `1.2` and `<2` of `>= 1.2 <2`
#[inline(always)]
pub(crate) fn read_word(text: &[u8]) -> (Lead, &[u8], &[u8])
    requires { BeginsWith Texts.is_solid text.now }
    ensures word { words_of (chunks_of text.now) ≡ (result.0, result.1.now) ∷ words_of (chunks_of result.2.now) }
    ensures part { IsReadWord text.now (result.0, result.1.now) result.2.now }
    ensures rest { BeginsWithNo Texts.is_space result.2.now }
    ensures shorter { length result.2.now < length text.now }
{
    let (chunk, rest) = split_chunk(text);
    let (lead, operand) = split_lead(chunk);
    match ending_of(chunk) {
        Ending::NoOperator => (lead, operand, rest),
        ending => read_on(lead, operand, ending, rest),
    }
}
