//! The words of a range text, and the comparator that each of them gives. The module [`ends`] has its two ends.
//!
//! Each of npm's headings has a file, with one function by cases: a line for each row of npm's table.
ghost use Rattle.std.specs.Prelude.{◌≡◌, List, None, Some, false};
ghost use Rattle.semver_sets.specs.Comparator.{Comparator};
ghost use Rattle.semver_sets.specs.Division.{IsAlternative};
ghost use Rattle.semver_texts.specs.Characters.{BeginsWithNo, is_blank};
ghost use Rattle.semver_texts.specs.Reading.{rest_of};
ghost use Rattle.semver_sets.specs.Private.WordReading as Reading;
ghost use Rattle.semver_sets.specs.Private.WordViews.{lead_seen, some_ends, word_seen};
ghost use Rattle.semver_sets.specs.WordEnds.{IsSound, partial_seen};

mod caret;
pub mod ends;
mod hyphen;
mod operator;
mod plain;
mod tilde;

use crate::partial::{Partial, read_clean_partial};
use caret::caret_ends;
use ends::WordEnds;
pub(crate) use hyphen::read_leading_hyphen;
use hyphen::{hyphen_ends, read_right};
use memchr::memchr2;
use operator::{above_ends, at_least_ends, at_most_ends, below_ends, equal_ends};
use plain::plain_ends;
use semver_texts::parse::{is_clean_end, skip_blanks};
use tilde::{read_tilde, tilde_ends, tilde_greater_ends};

// `>=1.2.3` of `>=1.2.3 <2`, or nothing for `foo`, and the rest
#[inline(always)]
pub(crate) fn read_word(text: &[u8]) -> (Option<WordEnds>, &[u8])
    requires { BeginsWithNo is_blank text.now }
    ensures { word_seen result ≡ Reading.read_word text.now }
{
    let (lead, operand) = read_lead(text);
    let Some((partial, rest)) = read_clean_partial(operand) else {
        return (None, skip_to_blank(text));
    };
    match (lead, rest) {
        (Lead::Plain, [_, ..]) => plain_or_hyphen(partial, rest),
        _ => (lead_ends(lead, partial), rest),
    }
}

// Returns `false` only if no comparator begins with this byte.
#[inline(always)]
pub(crate) fn begins_comparator(text: &[u8]) -> bool
    requires { BeginsWithNo is_blank text.now }
    ensures { result ≡ false → None ≡ Reading.or_else (Reading.read_hyphen text.now) (Reading.read_simple text.now) }
{
    match text {
        [
            b'0'..=b'9' | b'<'..=b'>' | b'^' | b'~' | b'v' | b'x' | b'X' | b'*',
            ..
        ] => true,
        _ => false,
    }
}

// ` <2` of `foo <2`: the text from its first blank on
#[inline]
pub(crate) fn skip_to_blank(text: &[u8]) -> &[u8]
    ensures { result.now ≡ rest_of Reading.is_not_blank text.now }
{
    match memchr2(b' ', b'\t', text) {
        Some(end) => &text[end..],
        None => &text[text.len()..],
    }
}

// The text without its leading words whose first byte begins no comparator. These words are ignored, so nothing has to
// be kept for merging yet.
#[inline(always)]
pub(crate) fn skip_ignored(text: &[u8]) -> &[u8]
    ensures { (comparators : List Comparator) → IsAlternative result.now comparators
        → IsAlternative text.now comparators }
{
    if is_clean_end(text) {
        return text;
    }
    let mut rest = text;
    'words: while !rest.is_empty() && !begins_comparator(rest) {
        rest = skip_blanks(skip_to_blank(rest));
    }
    rest
}

// What is written before the partial of a word.
#[derive(Clone, Copy)]
pub(crate) enum Lead {
    // nothing
    Plain,
    // `>=`
    AtLeast,
    // `>`
    Above,
    // `=`
    Equal,
    // `<=`
    AtMost,
    // `<`
    Below,
    // `~`
    Tilde,
    // `~>`
    TildeGreater,
    // `^`
    Caret,
}

// `^` of `^ 1.2`, and the rest without its leading blanks
#[inline(always)]
#[tactic(auto, unfolding(crate::specs::Private::WordReading::read_lead, crate::specs::Private::WordReading::read_operator))]
fn read_lead(text: &[u8]) -> (Lead, &[u8])
    ensures { (lead_seen result.0, result.1.now) ≡ Reading.read_lead text.now }
{
    match text {
        [b'^', rest @ ..] => (Lead::Caret, skip_blanks(rest)),
        [b'~', rest @ ..] => read_tilde(rest),
        [b'>', b'=', rest @ ..] => (Lead::AtLeast, skip_blanks(rest)),
        [b'>', rest @ ..] => (Lead::Above, skip_blanks(rest)),
        [b'=', rest @ ..] => (Lead::Equal, skip_blanks(rest)),
        [b'<', b'=', rest @ ..] => (Lead::AtMost, skip_blanks(rest)),
        [b'<', rest @ ..] => (Lead::Below, skip_blanks(rest)),
        _ => (Lead::Plain, text),
    }
}

// The ends of the comparator that a lead and a partial give, if they give one: each lead has a row.
#[inline(always)]
fn lead_ends<'a>(lead: Lead, partial: Partial<'a>) -> Option<WordEnds<'a>>
    requires { IsSound partial }
    ensures { some_ends result ≡ Reading.lead_comparator (lead_seen lead) (partial_seen partial.entry) }
{
    match lead {
        Lead::Plain => plain_ends(partial),
        Lead::AtLeast => at_least_ends(partial),
        Lead::Above => above_ends(partial),
        Lead::Equal => equal_ends(partial),
        Lead::AtMost => at_most_ends(partial),
        Lead::Below => below_ends(partial),
        Lead::Tilde => tilde_ends(partial),
        Lead::TildeGreater => tilde_greater_ends(partial),
        Lead::Caret => caret_ends(partial),
    }
}

// A plain partial before a blank: alone, or as the left side of a hyphen range.
#[inline(always)]
fn plain_or_hyphen<'a>(partial: Partial<'a>, text: &'a [u8]) -> (Option<WordEnds<'a>>, &'a [u8])
    requires { IsSound partial }
    ensures { Some (word_seen result) ≡ Reading.or_else
        (Reading.said_hyphen (Some (partial_seen partial.entry)) (Reading.read_right text.now))
        (Some (Reading.lead_comparator Reading.no_lead (partial_seen partial.entry), text.now)) }
{
    match read_right(text) {
        Some((right, rest)) => (Some(hyphen_ends(partial, right)), rest),
        None => (lead_ends(Lead::Plain, partial), text),
    }
}
