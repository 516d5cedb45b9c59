//! Reading one alternative of a range text: the comparators of its words are merged as they are read.
//!
//! `#[inline(always)]`: most words have an end that no other word limits, which is one test. The rare rest is in
//! functions with `#[inline(never)]`, so that it takes no stack in the loop over the words.
//!
//! See docs/DECISIONS.md, "Ties between equal ends are settled by position".
ghost use Rattle.std.specs.Prelude.{◌≡◌, IfOk, None, OnErr, OnOk};
ghost use Rattle.semver_cuts.specs.Ends.{span_between};
ghost use Rattle.semver_cuts.specs.KeptEnds.{IsEarlierLeast, IsLaterGreatest};
ghost use Rattle.semver_texts.specs.Characters.{BeginsWithNo, is_blank};
ghost use Rattle.semver_texts.specs.Comparison.{version_cmp};
ghost use Rattle.semver_texts.specs.Reading.{rest_of};
ghost use Rattle.semver_sets.specs.Merging.{IsNarrowedTo, IsSpanOf};
ghost use Rattle.semver_sets.specs.Private.RangeViews.{IsNarrowed, IsSetOfAlternative, IsSpanOfAlternative};
ghost use Rattle.semver_sets.specs.Private.WordReading as Reading;
ghost use Rattle.semver_sets.specs.Private.WordReading.{leading_or_none, read_right};
ghost use Rattle.semver_sets.specs.Private.WordViews.{some_ends};
ghost use Rattle.semver_sets.specs.WordEnds.{ends_seen};

use crate::word::ends::WordEnds;
use crate::word::{begins_comparator, read_leading_hyphen, read_word, skip_to_blank};
use semver_cuts::{Cut, Span};
use semver_texts::end::EndVersion;
use semver_texts::parse::skip_blanks;
use std::alloc::{AllocError, Global};
use std::marker::Model;

// The set of an alternative, or `None` if it gives none. `inline(always)`: it has one call in each of two callers.
#[inline(always)]
pub(crate) fn read_set(alloc: Global, text: &[u8]) -> Result<Option<Span<EndVersion>>, AllocError>
    ensures { IfOk result (λ set. IsSetOfAlternative text.now set) }
{
    let mut common = CommonSpan::new();
    merge_words(alloc, text, &mut common)?;
    Ok(common.into_set())
}

// Merges the comparators of an alternative into one. If a first byte begins no comparator, nothing is prepared to read
// one. `inline(never)`: its stack is then not part of the callers.
#[inline(never)]
fn merge_words(alloc: Global, text: &[u8], common: &mut CommonSpan) -> Result<(), AllocError>
    requires { common.old ≡ None }
    ensures { OnOk result (IsSpanOfAlternative text.now common.new) }
{
    let mut rest = match text {
        [b' ' | b'\t', ..] => merge_leading_hyphen(alloc, text, common)?,
        _ => text,
    };
    while !rest.is_empty() {
        rest = if begins_comparator(rest) {
            merge_word(alloc, rest, common)?
        } else {
            skip_blanks(skip_to_blank(rest))
        };
    }
    Ok(())
}

// Merges the hyphen range without a left side that a text can begin with, and returns the rest: ` - 3`.
// `inline(never)`: few texts begin with a blank.
#[inline(never)]
fn merge_leading_hyphen<'a>(
    alloc: Global,
    text: &'a [u8],
    common: &mut CommonSpan,
) -> Result<&'a [u8], AllocError>
    ensures rest { IfOk result (λ rest. rest.now
        ≡ rest_of is_blank (leading_or_none (read_right text.now) text.now).1) }
    ensures common { OnOk result (IsNarrowed common.old (leading_or_none (read_right text.now) text.now).0
        common.new) }
{
    let (ends, rest) = read_leading_hyphen(text);
    merge_some(alloc, ends, common)?;
    Ok(skip_blanks(rest))
}

// Merges the comparator of the first word, and returns the text after that word and its blanks. `inline(never)`: one
// call a word, whose ends never leave its stack.
#[inline(never)]
fn merge_word<'a>(
    alloc: Global,
    text: &'a [u8],
    common: &mut CommonSpan,
) -> Result<&'a [u8], AllocError>
    requires { BeginsWithNo is_blank text.now }
    ensures rest { IfOk result (λ rest. rest.now ≡ rest_of is_blank (Reading.read_word text.now).1) }
    ensures common { OnOk result (IsNarrowed common.old (Reading.read_word text.now).0 common.new) }
{
    let (ends, rest) = read_word(text);
    merge_some(alloc, ends, common)?;
    Ok(skip_blanks(rest))
}

// Merges the comparator of a word, if the word gives one.
#[inline(always)]
fn merge_some(
    alloc: Global,
    ends: Option<WordEnds>,
    common: &mut CommonSpan,
) -> Result<(), AllocError>
    ensures { OnOk result (IsNarrowed common.old (some_ends ends.entry) common.new) }
{
    match ends {
        Some(ends) => common.narrow(alloc, ends),
        None => Ok(()),
    }
}

/// The span that the comparators so far have in common, and whether there was a comparator. It may contain no cut.
///
/// A contract sees the span, or none before the first comparator.
#[derive(Drop)]
pub struct CommonSpan {
    found: bool,
    lower: Cut<EndVersion>,
    upper: Cut<EndVersion>,
}

impl Model for CommonSpan {
    ghost use Rattle.std.specs.Prelude.{◌≡◌, false, Option};
    ghost use Rattle.semver_cuts.specs.declared.cut.Cut.TheVariants.{Start, End};
    ghost use Rattle.semver_cuts.specs.Ends.{Ends};
    ghost use Rattle.semver_sets.specs.Private.RangeViews.{common_seen};
    ghost use Rattle.semver_texts.specs.Version.{VersionValue};

    ghost Value = { Option (Ends VersionValue) };

    ghost view = { λ m. common_seen m.found m.lower m.upper };

    ghost invariant = { λ m. m.found ≡ false → (m.lower ≡ Start) × (m.upper ≡ End) };
}

impl CommonSpan {
    /// Returns the span before the first comparator. Does not allocate.
    #[inline(always)]
    pub fn new() -> CommonSpan
        ensures { result ≡ None }
    {
        CommonSpan {
            found: false,
            lower: Cut::Start,
            upper: Cut::End,
        }
    }

    /// Intersects the span with one more comparator, which a word writes. Of equal lower ends the later is kept, and of
    /// equal upper ends the earlier.
    ///
    /// # Errors
    ///
    /// Returns an error if an allocation fails. The span is then as before.
    ///
    /// # Memory
    ///
    /// Allocates only for the prerelease and the build of an end.
    #[inline(always)]
    pub fn narrow(&mut self, alloc: Global, word: WordEnds) -> Result<(), AllocError>
        ensures merged { OnOk result (IsNarrowedTo self.old (ends_seen word.entry) self.new) }
        ensures unchanged { OnErr result (self.new ≡ self.old) }
    {
        let lower = word.lower.cut(alloc)?;
        let upper = word.upper.cut(alloc)?;
        self.narrow_to(lower, upper);
        Ok(())
    }

    /// Intersects the span with one more comparator, which goes from `lower` to `upper`. Of equal lower ends the later
    /// is kept, and of equal upper ends the earlier.
    ///
    /// # Memory
    ///
    /// Does not allocate.
    #[inline(always)]
    pub fn narrow_to(&mut self, lower: Cut<EndVersion>, upper: Cut<EndVersion>)
        ensures { IsNarrowedTo self.old (span_between lower upper) self.new }
    {
        keep_greatest(&mut self.lower, lower);
        keep_least(&mut self.upper, upper);
        self.found = true;
    }

    /// Returns the set that the comparators give, or `None` if there was no comparator or they share no cut.
    ///
    /// # Memory
    ///
    /// Does not allocate.
    #[inline(always)]
    pub fn into_set(self) -> Option<Span<EndVersion>>
        ensures { IsSpanOf self result }
    {
        if self.found && self.lower < self.upper {
            Some(Span::between(self.lower, self.upper))
        } else {
            None
        }
    }
}

// Keeps the greater of two lower ends, and the later of equal ones. Usually one of them is `Start`.
#[inline(always)]
fn keep_greatest(kept: &mut Cut<EndVersion>, later: Cut<EndVersion>)
    ensures { IsLaterGreatest version_cmp kept.old later kept.new }
{
    if let Cut::Start = later {
        return;
    }
    if let Cut::Start = kept {
        *kept = later;
    } else {
        keep_greater(kept, later);
    }
}

// Keeps the greater of any two lower ends, and the later of equal ones.
#[inline(never)]
fn keep_greater(kept: &mut Cut<EndVersion>, later: Cut<EndVersion>)
    ensures { IsLaterGreatest version_cmp kept.old later kept.new }
{
    if later < *kept {
        return;
    }
    *kept = later;
}

// Keeps the lesser of two upper ends, and the earlier of equal ones. Usually one of them is `End`.
#[inline(always)]
fn keep_least(kept: &mut Cut<EndVersion>, later: Cut<EndVersion>)
    ensures { IsEarlierLeast version_cmp kept.old later kept.new }
{
    if let Cut::End = later {
        return;
    }
    if let Cut::End = kept {
        *kept = later;
    } else {
        keep_lesser(kept, later);
    }
}

// Keeps the lesser of any two upper ends, and the earlier of equal ones.
#[inline(never)]
fn keep_lesser(kept: &mut Cut<EndVersion>, later: Cut<EndVersion>)
    ensures { IsEarlierLeast version_cmp kept.old later kept.new }
{
    if later < *kept {
        *kept = later;
    }
}
