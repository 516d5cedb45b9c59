use crate::cuts::{cut_at, hash_of};
use semver_cuts::{Cut, Span};

// Returns `true` if the span goes from the one of the six cuts up to the other.
fn has_ends(span: &Span<u64>, i: usize, j: usize) -> bool {
    *span.lower() == cut_at(i) && *span.upper() == cut_at(j)
}

// The span from one of the six cuts up to another, if there is one.
fn span_at(i: usize, j: usize) -> Option<Span<u64>> {
    Span::new(cut_at(i), cut_at(j))
}

// Returns `true` if there is a span exactly if the first cut is the lower one, and it has these ends.
fn is_made(i: usize, j: usize) -> bool {
    match span_at(i, j) {
        Some(span) => i < j && has_ends(&span, i, j),
        None => i >= j,
    }
}

#[test]
fn makes_a_span_where_a_cut_lies_between(rt: HostRuntime) {
    for i in 0..6usize {
        for j in 0..6usize {
            assert!(rt; is_made(i, j), "{i} to {j}");
        }
    }
}

// Returns `true` if the span is equal to the one between these two cuts.
fn is_between(span: &Span<u64>, i: usize, j: usize) -> bool {
    has_ends(span, i, j)
        && match &span_at(i, j) {
            Some(other) => span == other,
            None => false,
        }
}

#[test]
fn makes_a_span_between_two_cuts(rt: HostRuntime) {
    let all = Span::between(Cut::Start, Cut::End);
    assert!(rt; is_between(&all, 0, 5));
    let at_three = Span::between(Cut::Before(3), Cut::After(3));
    assert!(rt; is_between(&at_three, 1, 2));
    let from_three_to_five = Span::between(Cut::After(3), Cut::Before(5));
    assert!(rt; is_between(&from_three_to_five, 2, 3));
}

// Values, and for each the place of the last of the six cuts below it.
const VALUES: &[(u64, usize)] = &[(2, 0), (3, 1), (4, 2), (5, 3), (6, 4)];

// Returns `true` if the span contains exactly the values between these two cuts.
fn contains_just(span: &Span<u64>, i: usize, j: usize) -> bool {
    for (value, place) in VALUES {
        if span.contains(value) != (i <= *place && *place < j) {
            return false;
        }
    }
    true
}

fn contains_what_lies_between(i: usize, j: usize) -> bool {
    match &span_at(i, j) {
        Some(span) => contains_just(span, i, j),
        None => false,
    }
}

// From `Before(3)` to `After(5)` lie 3, 4 and 5, and from `After(3)` to `Before(5)` only 4.
#[test]
fn contains_the_values_between_its_ends(rt: HostRuntime) {
    for i in 0..6usize {
        for j in i + 1..6 {
            assert!(rt; contains_what_lies_between(i, j), "{i} to {j}");
        }
    }
}

// Returns `true` if these spans are equal and hash alike, or neither.
fn are_the_same(one: &Span<u64>, other: &Span<u64>, same: bool) -> bool {
    (one == other) == same && (one != other) == !same && (hash_of(one) == hash_of(other)) == same
}

// The places of the ends of each span between two of the six cuts.
const PLACES: &[(usize, usize)] = &[
    (0, 1),
    (0, 2),
    (0, 3),
    (0, 4),
    (0, 5),
    (1, 2),
    (1, 3),
    (1, 4),
    (1, 5),
    (2, 3),
    (2, 4),
    (2, 5),
    (3, 4),
    (3, 5),
    (4, 5),
];

fn span_of_row(row: usize) -> Option<Span<u64>> {
    let (i, j) = PLACES.get(row)?;
    span_at(*i, *j)
}

fn are_the_same_by_row(row: usize, other_row: usize) -> bool {
    match (span_of_row(row), span_of_row(other_row)) {
        (Some(one), Some(other)) => are_the_same(&one, &other, row == other_row),
        _ => false,
    }
}

#[test]
fn equals_and_hashes_by_its_ends(rt: HostRuntime) {
    for row in 0..PLACES.len() {
        for other_row in 0..PLACES.len() {
            assert!(rt;
                are_the_same_by_row(row, other_row),
                "rows {row} and {other_row}"
            );
        }
    }
}

// Two spans between numbers, their intersection, and the two pieces of their difference.
type Pair = (u64, u64);

const PAIRS: &[(Pair, Pair, Option<Pair>, Option<Pair>, Option<Pair>)] = &[
    ((1, 5), (3, 9), Some((3, 5)), Some((1, 3)), None),
    ((1, 9), (3, 5), Some((3, 5)), Some((1, 3)), Some((5, 9))),
    ((3, 5), (1, 9), Some((3, 5)), None, None),
    ((3, 5), (3, 9), Some((3, 5)), None, None),
    ((3, 9), (3, 5), Some((3, 5)), None, Some((5, 9))),
    ((1, 3), (3, 5), None, Some((1, 3)), None),
    ((3, 5), (1, 3), None, Some((3, 5)), None),
];

// Returns `true` if these are the cuts before the two numbers.
pub(crate) fn are_before(ends: (&Cut<u64>, &Cut<u64>), pair: &Pair) -> bool {
    *ends.0 == Cut::Before(pair.0) && *ends.1 == Cut::Before(pair.1)
}

fn are_ends(ends: Option<(&Cut<u64>, &Cut<u64>)>, pair: &Option<Pair>) -> bool {
    match (ends, pair) {
        (Some(ends), Some(pair)) => are_before(ends, pair),
        (None, None) => true,
        _ => false,
    }
}

fn span_of(pair: &Pair) -> Option<Span<u64>> {
    Span::new(Cut::Before(pair.0), Cut::Before(pair.1))
}

fn has_intersection_and_difference(
    one: &Span<u64>,
    other: &Span<u64>,
    common: &Option<Pair>,
    below: &Option<Pair>,
    above: &Option<Pair>,
) -> bool {
    let rest = one.rest(other);
    are_ends(one.common(other), common) && are_ends(rest.0, below) && are_ends(rest.1, above)
}

#[test]
fn returns_the_intersection_and_the_difference_of_two_spans(rt: HostRuntime) {
    for (one, other, common, below, above) in PAIRS {
        let passes = match (span_of(one), span_of(other)) {
            (Some(one), Some(other)) => has_intersection_and_difference(
                &one, &other, common, below, above,
            ),
            _ => false,
        };
        assert!(rt; passes);
    }
}
