ghost use Rattle.std.specs.Prelude.{map};
ghost use Rattle.semver_cuts.specs.Ends.{span_between};

use crate::spans::are_before;
use semver_cuts::algebra::{Gather, MergedSpans, Places, are_merged};
use semver_cuts::{Cut, Span, covers, join};
use std::alloc::{AllocError, Global};

// Keeps the ends of the spans that it receives.
#[derive(Drop)]
struct Taken<'a> {
    ends: Vec<(&'a Cut<u64>, &'a Cut<u64>)>,
}

impl<'a> Gather<'a, u64> for Taken<'a> {
    ghost gathered = { λ taken. map (λ pair. span_between pair.0.now pair.1.now) taken.ends.items };

    fn gather(&mut self, lower: &'a Cut<u64>, upper: &'a Cut<u64>) -> Result<(), AllocError> {
        self.ends.push((lower, upper))?;
        Ok(())
    }
}

// A list of spans, each given by two numbers: from before the first up to before the second.
fn spans_of(alloc: Global, pairs: &[(u64, u64)]) -> Result<Vec<Span<u64>>, AllocError> {
    let mut spans = Vec::new(alloc);
    for (low, high) in pairs {
        if let Some(span) = Span::new(Cut::Before(*low), Cut::Before(*high)) {
            spans.push(span)?;
        }
    }
    Ok(spans)
}

// What is computed for two lists: their intersection or their difference.
#[derive(Clone, Copy)]
enum Operation {
    Common,
    Difference,
}

fn gathered<'a>(
    alloc: Global,
    operation: Operation,
    ones: &'a [Span<u64>],
    others: &'a [Span<u64>],
) -> Result<Taken<'a>, AllocError> {
    let mut taken = Taken {
        ends: Vec::new(alloc),
    };
    let places = Places::of(alloc, others)?;
    let merged = MergedSpans::with(others, &places);
    match operation {
        Operation::Common => merged.common_with(ones, &mut taken),
        Operation::Difference => merged.subtract_from(ones, &mut taken),
    }?;
    Ok(taken)
}

// Returns `true` if these are the cuts before the two numbers of each pair.
fn are_ends(taken: &[(&Cut<u64>, &Cut<u64>)], pairs: &[(u64, u64)]) -> bool {
    if taken.len() != pairs.len() {
        return false;
    }
    for (ends, pair) in taken.iter().zip(pairs.iter()) {
        if !are_before(*ends, pair) {
            return false;
        }
    }
    true
}

// Numbers, two for each span of a list.
type Pairs = &'static [(u64, u64)];

// Two lists, and their intersection or difference.
type Row = (Pairs, Pairs, Pairs);

fn gathers(alloc: Global, operation: Operation, row: &Row) -> Result<bool, AllocError> {
    let ones = spans_of(alloc, row.0)?;
    let others = spans_of(alloc, row.1)?;
    let taken = gathered(alloc, operation, &ones, &others)?;
    Ok(are_ends(&taken.ends, row.2))
}

// Two lists, and their intersection.
const ROWS: &[Row] = &[
    (&[(0, 1), (3, 5)], &[(0, 4)], &[(0, 1), (3, 4)]),
    (&[(0, 1), (3, 5)], &[(1, 3)], &[]),
    (
        &[(0, 9)],
        &[(5, 6), (2, 3), (0, 1)],
        &[(5, 6), (2, 3), (0, 1)],
    ),
    (
        &[(2, 7), (0, 3)],
        &[(0, 1), (2, 3), (4, 5), (6, 9)],
        &[(2, 3), (4, 5), (6, 7), (0, 1), (2, 3)],
    ),
    (&[(1, 2), (5, 9)], &[(0, 1), (2, 5), (9, 10)], &[]),
    (&[(4, 6)], &[], &[]),
];

#[test]
fn passes_the_intersection_of_two_lists(rt: HostRuntime) {
    for row in ROWS {
        assert!(rt; gathers(rt.alloc(), Operation::Common, row).unwrap_or(false));
    }
}

// Two lists, and their difference. The spans of the second list descend, overlap, touch or ascend apart, or there are
// none.
const DIFFERENCE_ROWS: &[Row] = &[
    (&[(1, 9)], &[(5, 6), (2, 3)], &[(1, 2), (3, 5), (6, 9)]),
    (
        &[(1, 9)],
        &[(5, 7), (6, 8), (2, 3)],
        &[(1, 2), (3, 5), (8, 9)],
    ),
    (&[(1, 9)], &[(0, 5), (5, 9)], &[]),
    (
        &[(5, 9), (0, 4)],
        &[(1, 2), (3, 6)],
        &[(6, 9), (0, 1), (2, 3)],
    ),
    (&[(3, 5)], &[(0, 3), (5, 9)], &[(3, 5)]),
    (&[(3, 5)], &[], &[(3, 5)]),
];

#[test]
fn passes_the_difference_of_two_lists(rt: HostRuntime) {
    for row in DIFFERENCE_ROWS {
        assert!(rt; gathers(rt.alloc(), Operation::Difference, row).unwrap_or(false));
    }
}

// Thirteen spans that begin in any order, and may overlap, repeat and lie in one another. `step` sets their order, and
// `width` their lengths.
fn long_list(alloc: Global, step: u64, width: u64) -> Result<Vec<Span<u64>>, AllocError> {
    let mut spans = Vec::new(alloc);
    for k in 0..13u64 {
        let low = k.saturating_mul(step) % 13 * 2;
        let high = low + 1 + k.saturating_mul(width) % 11;
        if let Some(span) = Span::new(Cut::Before(low), Cut::Before(high)) {
            spans.push(span)?;
        }
    }
    Ok(spans)
}

// Descending, ascending and neither; apart, touching, overlapping and nested.
const LONG_ROWS: &[(u64, u64)] = &[(12, 0), (12, 1), (1, 3), (5, 0), (5, 7), (0, 2), (3, 10)];

// Returns `true` if these are the ends of the intersections of each of the ones with each of the others.
fn are_common(taken: &[(&Cut<u64>, &Cut<u64>)], ones: &[Span<u64>], others: &[Span<u64>]) -> bool {
    let mut taken = taken.iter();
    for one in ones {
        for other in others {
            if let Some((lower, upper)) = one.common(other) {
                match taken.next() {
                    Some(ends) if *ends.0 == *lower && *ends.1 == *upper => {}
                    _ => return false,
                }
            }
        }
    }
    taken.next().is_none()
}

fn gathers_long(alloc: Global, one: &(u64, u64), other: &(u64, u64)) -> Result<bool, AllocError> {
    let ones = long_list(alloc, one.0, one.1)?;
    let others = long_list(alloc, other.0, other.1)?;
    let taken = gathered(alloc, Operation::Common, &ones, &others)?;
    Ok(are_common(&taken.ends, &ones, &others))
}

#[test]
fn passes_the_intersection_of_long_lists(rt: HostRuntime) {
    for one in LONG_ROWS {
        for other in LONG_ROWS {
            assert!(rt; gathers_long(rt.alloc(), one, other).unwrap_or(false));
        }
    }
}

// Lists, and their joined spans: spans that touch, overlap, descend, repeat and nest, a list that is merged already, and
// the empty list.
const JOIN_ROWS: &[(Pairs, Pairs)] = &[
    (&[(1, 2), (2, 3)], &[(1, 3)]),
    (&[(2, 5), (0, 1), (4, 7)], &[(0, 1), (2, 7)]),
    (&[(5, 6), (3, 4), (1, 2)], &[(1, 2), (3, 4), (5, 6)]),
    (&[(1, 2), (4, 5), (1, 2)], &[(1, 2), (4, 5)]),
    (&[(2, 3), (0, 9), (4, 5)], &[(0, 9)]),
    (&[(0, 1), (2, 3)], &[(0, 1), (2, 3)]),
    (&[], &[]),
];

// Returns `true` if each merged span goes from before the first number of its pair up to before the second.
fn has_ends(merged: &MergedSpans<'_, '_, u64>, joined: &[(u64, u64)]) -> bool {
    if merged.len() != joined.len() {
        return false;
    }
    for (number, pair) in joined.iter().enumerate() {
        if !are_before(merged.ends(number), pair) {
            return false;
        }
    }
    true
}

fn merges(alloc: Global, spans: &[Span<u64>], pairs: &[(u64, u64)]) -> Result<bool, AllocError> {
    let places = Places::of(alloc, spans)?;
    let copy = places.clone()?;
    Ok(
        has_ends(&MergedSpans::with(spans, &places), pairs)
            && has_ends(&MergedSpans::with(spans, &copy), pairs),
    )
}

fn joins(alloc: Global, spans: Vec<Span<u64>>, pairs: &[(u64, u64)]) -> Result<bool, AllocError> {
    let joined = join(alloc, spans)?;
    let expected = spans_of(alloc, pairs)?;
    Ok(joined == expected && are_merged(&joined))
}

fn joins_row(
    alloc: Global,
    pairs: &[(u64, u64)],
    joined: &[(u64, u64)],
) -> Result<bool, AllocError> {
    let spans = spans_of(alloc, pairs)?;
    Ok(merges(alloc, &spans, joined)? && joins(alloc, spans, joined)?)
}

#[test]
fn joins_spans_and_keeps_their_places(rt: HostRuntime) {
    for (pairs, joined) in JOIN_ROWS {
        assert!(rt; joins_row(rt.alloc(), pairs, joined).unwrap_or(false));
    }
}

// A question about two lists: whether they share a cut, or whether the first contains all cuts of the second.
#[derive(Clone, Copy)]
enum Question {
    Share,
    Cover,
}

fn is_answered(
    question: Question,
    one: &MergedSpans<'_, '_, u64>,
    other: &MergedSpans<'_, '_, u64>,
    wanted: bool,
) -> bool {
    match question {
        Question::Share => one.shares_cut(other) == wanted && other.shares_cut(one) == wanted,
        Question::Cover => one.covers(other) == wanted,
    }
}

// If both lists are merged as they stand, `covers` must return the same for the lists themselves.
fn is_covered(question: Question, ones: &[Span<u64>], others: &[Span<u64>], wanted: bool) -> bool {
    if matches!(question, Question::Cover) && are_merged(ones) && are_merged(others) {
        covers(ones, others) == wanted
    } else {
        true
    }
}

fn are_answered(
    alloc: Global,
    question: Question,
    ones: &[Span<u64>],
    others: &[Span<u64>],
    wanted: bool,
) -> Result<bool, AllocError> {
    let places = Places::of(alloc, ones)?;
    let other_places = Places::of(alloc, others)?;
    let one = MergedSpans::with(ones, &places);
    let other = MergedSpans::with(others, &other_places);
    Ok(is_answered(question, &one, &other, wanted) && is_covered(question, ones, others, wanted))
}

// Returns `true` if the result for two lists, made from their numbers, is the wanted one.
fn gives(
    alloc: Global,
    question: Question,
    ones: &[(u64, u64)],
    others: &[(u64, u64)],
    wanted: bool,
) -> Result<bool, AllocError> {
    let ones = spans_of(alloc, ones)?;
    let others = spans_of(alloc, others)?;
    are_answered(alloc, question, &ones, &others, wanted)
}

#[test]
fn finds_whether_lists_share_a_cut(rt: HostRuntime) {
    for (ones, others, common) in ROWS {
        assert!(rt;
            gives(
                rt.alloc(),
                Question::Share,
                ones,
                others,
                !common.is_empty()
            )
            .unwrap_or(false)
        );
    }
}

// Two lists, and whether the first contains all cuts of the second. It does not if one of them lies in a gap of the
// first.
const COVER_ROWS: &[(Pairs, Pairs, bool)] = &[
    (&[(1, 5), (7, 9)], &[(2, 5), (8, 9)], true),
    (&[(1, 5), (7, 9)], &[(2, 6)], false),
    (&[(1, 5), (7, 9)], &[(4, 8)], false),
    (&[(1, 5), (7, 9)], &[(0, 2)], false),
    (&[(5, 9), (1, 5)], &[(6, 7), (2, 8)], true),
    (&[(1, 2)], &[], true),
    (&[], &[(1, 2)], false),
    (&[(0, 1), (3, 5)], &[(0, 4)], false),
    (&[(0, 1), (3, 5)], &[(1, 3)], false),
    (&[(0, 9)], &[(5, 6), (2, 3), (0, 1)], true),
    (&[(2, 7), (0, 3)], &[(0, 1), (2, 3), (4, 5), (6, 9)], false),
    (&[(2, 7), (0, 3)], &[(0, 1), (2, 3), (1, 4)], true),
    (&[(1, 2), (5, 9)], &[(0, 1), (2, 5), (9, 10)], false),
];

#[test]
fn finds_whether_a_list_covers_another(rt: HostRuntime) {
    for (ones, others, covered) in COVER_ROWS {
        assert!(rt; gives(rt.alloc(), Question::Cover, ones, others, *covered).unwrap_or(false));
    }
}
