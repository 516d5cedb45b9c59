//! Joining the spans of a list: those that touch or overlap become one.
ghost use Rattle.std.specs.Prelude.{◌≡◌, ◌≢◌, ◌<◌, ℕ, [], IfOk, length};
ghost use Rattle.semver_cuts.specs.Ends.{IsCutBelow};
ghost use Rattle.semver_cuts.specs.Joined.{AreJoined};
ghost use Rattle.semver_cuts.specs.Places.{IsPlacesOf, merged_spans, span_at, span_of_places};

use crate::Span;
use crate::algebra::places::Places;
use std::alloc::{AllocError, Global};

/// Returns the spans joined: spans that touch or overlap become one. The result ascends, with a cut between each span
/// and the next.
///
/// The result contains exactly the cuts of the list. Each of its ends is moved out of the list, from the first span
/// that has an end at this cut. No other ascending list of spans that do not touch contains these cuts, so two lists
/// with the same cuts are joined to equal spans.
///
/// # Errors
///
/// Returns `AllocError` if an allocation fails. The spans are then dropped.
///
/// # Memory
///
/// Does not allocate if the spans are merged as they stand, as one span always is. Otherwise allocates room for them in
/// sorted order, for the places of the joined spans, and for the result.
///
/// # Examples
///
/// 2 to 5, 0 to 1 and 4 to 7 are joined to 0 to 1 and 2 to 7. 1 to 2 and 2 to 3 are joined to 1 to 3.
pub fn join<T: Ord + Drop>(
    alloc: Global,
    mut spans: Vec<Span<T>>,
) -> Result<Vec<Span<T>>, AllocError>
    ensures { IfOk result (λ joined. AreJoined T.cmp spans.items joined.items) }
{
    let places = Places::of(alloc, &spans)?;
    if places.as_slice().is_empty() {
        return Ok(spans);
    }
    taken_at(alloc, &mut spans, places.as_slice())
}

// Returns the merged spans at the places. Their ends are moved out of the list.
fn taken_at<T: Ord + Drop>(
    alloc: Global,
    spans: &mut [Span<T>],
    places: &[(usize, usize)],
) -> Result<Vec<Span<T>>, AllocError>
    requires places { IsPlacesOf T.cmp spans.old places.now }
    requires some { places.now ≢ [] }
    ensures { IfOk result (λ joined. joined.items ≡ merged_spans spans.old places.now) }
{
    let mut joined = Vec::with_capacity(alloc, places.len())?;
    for (begins, ends) in places {
        joined.push(take_between(spans, *begins, *ends))?;
    }
    Ok(joined)
}

// Returns the span from where one span of the list begins up to where another ends. Moves these two ends out of the
// list, and no others.
fn take_between<T: Ord + Drop>(spans: &mut [Span<T>], begins: usize, ends: usize) -> Span<T>
    requires begins { begins < length spans.old }
    requires ends { ends < length spans.old }
    requires rising { IsCutBelow T.cmp (span_at spans.old begins).lower (span_at spans.old ends).upper }
    ensures span { result ≡ span_of_places spans.old (begins, ends) }
    ensures lowers { (k : ℕ) → k ≢ begins → (span_at spans.new k).lower ≡ (span_at spans.old k).lower }
    ensures uppers { (k : ℕ) → k ≢ ends → (span_at spans.new k).upper ≡ (span_at spans.old k).upper }
{
    let lower = spans[begins].take_lower();
    let upper = spans[ends].take_upper();
    Span::between(lower, upper)
}
