//! `1.2 - 3`, and ` - 3` at the start of a range text
//!
//! `read_right_operand` is called only if there is a hyphen, and through a function of one line: the toolchain clears
//! the place of a result where the calling function begins, and so only if it is called.
ghost use Rattle.std.specs.Prelude.{◌≡◌, ◌∷◌, IfSome, Some, None};
ghost use Rattle.semver_texts.specs.Characters.{hyphen};
ghost use Rattle.semver_sets.specs.HyphenRanges as HyphenRanges;
ghost use Rattle.semver_sets.specs.Private.WordReading as Reading;
ghost use Rattle.semver_sets.specs.Private.WordViews.{read_partial_seen, word_seen};
ghost use Rattle.semver_sets.specs.WordEnds.{IsSound, cut_seen, ends_seen, partial_seen};

use crate::partial::{Partial, read_clean_partial};
use crate::word::ends::{WordCut, WordEnds, WordVersion};
use semver_texts::parse::skip_some_blanks;

// `3` and ` <5` of ` - 3 <5`: the right side of a hyphen range, with the blanks around the hyphen
#[inline(always)]
#[tactic(auto, unfolding(crate::specs::Private::WordReading::read_right))]
pub(crate) fn read_right(text: &[u8]) -> Option<(Partial, &[u8])>
    ensures read { read_partial_seen result ≡ Reading.read_right text.now }
    ensures sound { IfSome result (λ r. IsSound r.0) }
{
    let [b'-', rest @ ..] = skip_some_blanks(text)? else {
        return None;
    };
    right_operand(rest)
}

// Calls `read_right_operand`; see the top of this file.
#[inline(always)]
fn right_operand(text: &[u8]) -> Option<(Partial, &[u8])>
    ensures read { read_partial_seen result ≡ Reading.right_at (hyphen ∷ text.now) }
    ensures sound { IfSome result (λ r. IsSound r.0) }
{
    read_right_operand(text)
}

// `3` and ` <5` of ` 3 <5`: what follows the hyphen
#[inline(never)]
fn read_right_operand(text: &[u8]) -> Option<(Partial, &[u8])>
    ensures read { read_partial_seen result ≡ Reading.right_at (hyphen ∷ text.now) }
    ensures sound { IfSome result (λ r. IsSound r.0) }
{
    read_clean_partial(skip_some_blanks(text)?)
}

// The hyphen range without a left side that a text can begin with: ` - 3`
#[inline(always)]
pub(crate) fn read_leading_hyphen(text: &[u8]) -> (Option<WordEnds>, &[u8])
    ensures { word_seen result ≡ Reading.leading_or_none (Reading.read_right text.now) text.now }
{
    match read_right(text) {
        Some((right, rest)) => (Some(below_right(right)), rest),
        None => (None, text),
    }
}

// ` - 3` is `<4.0.0-0`.
#[inline(always)]
fn below_right<'a>(right: Partial<'a>) -> WordEnds<'a>
    requires { IsSound right }
    ensures { ends_seen result ≡ HyphenRanges.hyphen_comparator None (partial_seen right.entry) }
{
    WordEnds {
        lower: WordCut::Start,
        upper: right_cut(right),
    }
}

// `1.2 - 3` is `>=1.2.0 <4.0.0-0`.
#[inline(always)]
pub(crate) fn hyphen_ends<'a>(left: Partial<'a>, right: Partial<'a>) -> WordEnds<'a>
    requires left { IsSound left }
    requires right { IsSound right }
    ensures { ends_seen result
        ≡ HyphenRanges.hyphen_comparator (Some (partial_seen left.entry)) (partial_seen right.entry) }
{
    WordEnds {
        lower: WordCut::Before(left.full()),
        upper: right_cut(right),
    }
}

// Where a hyphen range ends.
#[inline(always)]
fn right_cut<'a>(right: Partial<'a>) -> WordCut<'a>
    requires { IsSound right }
    ensures { cut_seen result ≡ HyphenRanges.right_cut (partial_seen right.entry) }
{
    match (right.major, right.minor, right.patch) {
        (None, None, None) => WordCut::Before(WordVersion::Least(0, 0, 0)),
        (Some(major), None, None) => WordCut::Before(WordVersion::Least(major + 1, 0, 0)),
        (Some(major), Some(minor), None) => {
            WordCut::Before(WordVersion::Least(major, minor + 1, 0))
        }
        _ => WordCut::After(right.full()),
    }
}
