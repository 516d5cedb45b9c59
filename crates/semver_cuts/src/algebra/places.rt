//! The merged spans of a list, kept as places in that list.
//!
//! `#[inline]`: the functions make or return one slice.
ghost use Rattle.std.specs.Prelude.{◌≡◌, ◌↔◌, ◌∷◌, [], List, IfOk, IsTrue};
ghost use Rattle.std.specs.Ordering.{is_lt, nat_cmp, ordering_then};
ghost use Rattle.semver_cuts.specs.Cut.{cut_cmp};
ghost use Rattle.semver_cuts.specs.Ends.{Ends};
ghost use Rattle.semver_cuts.specs.Joined.{AreMerged};
ghost use Rattle.semver_cuts.specs.Places.{IsPlacesOf};
ghost use Rattle.semver_cuts.specs.Private.Placed.{AreJoinedAt, AreSorted};

use crate::algebra::placed::{Placed, in_order, two_in_order};
use crate::{Cut, Span};
use std::alloc::{AllocError, Global};
use std::marker::Model;

/// The merged spans of a list, as pairs of places in that list: the place of the span where the merged span begins, and
/// the place of the span where it ends.
///
/// If several spans of the list have an end at the same cut, it is the place of the first. A list that is merged as it
/// stands has no places.
///
/// # Memory
///
/// Room for at most four numbers for each merged span, in one list. None if the list is merged as it stands.
///
/// # Examples
///
/// 2 to 5, 0 to 1 and 4 to 7 are joined to 0 to 1 and 2 to 7. The places are (1, 1) and (0, 2).
#[derive(Debug, Drop)]
pub struct Places {
    pairs: Vec<(usize, usize)>,
}

impl Model for Places {
    ghost use Rattle.std.specs.Prelude.{ℕ, List};

    ghost Value = { List (ℕ × ℕ) };

    ghost view = { λ p. p.pairs.items };
}

impl Places {
    /// Returns no places, as for a list that is merged as it stands.
    ///
    /// # Memory
    ///
    /// Does not allocate.
    #[inline]
    pub fn none(alloc: Global) -> Places
        ensures { result ≡ [] }
    {
        Places {
            pairs: Vec::new(alloc),
        }
    }

    /// Returns the places of the merged spans of a list.
    ///
    /// # Errors
    ///
    /// Returns `AllocError` if an allocation fails.
    ///
    /// # Memory
    ///
    /// Does not allocate if the spans are merged as they stand, as one span always is. Otherwise allocates the places,
    /// and, for more than two spans, room for the spans in sorted order for the time of the call.
    ///
    /// # Examples
    ///
    /// (1, 1) and (0, 2) for 2 to 5, 0 to 1 and 4 to 7. None for 0 to 1 and 2 to 7.
    pub fn of<T: Ord>(alloc: Global, spans: &[Span<T>]) -> Result<Places, AllocError>
        ensures { IfOk result (λ places. IsPlacesOf T.cmp spans.now places) }
    {
        if are_merged(spans) {
            return Ok(Places::none(alloc));
        }
        if let [one, other] = spans {
            let order = two_in_order(one, other);
            let pairs = places_in_order(alloc, &order)?;
            return Ok(Places { pairs });
        }
        let order = in_order(alloc, spans)?;
        let pairs = places_in_order(alloc, &order)?;
        Ok(Places { pairs })
    }

    /// Returns a copy. It serves each list with the same spans.
    ///
    /// # Errors
    ///
    /// Returns `AllocError` if the allocation fails.
    ///
    /// # Memory
    ///
    /// As much as the places.
    pub fn clone(&self) -> Result<Places, AllocError>
        ensures { IfOk result (λ places. places ≡ self.now) }
    {
        Ok(Places {
            pairs: Vec::from_slice(*self.pairs.allocator(), &self.pairs)?,
        })
    }

    // Returns the pairs of places.
    #[inline]
    pub(crate) fn as_slice(&self) -> &[(usize, usize)]
        ensures { result.now ≡ self.now }
    {
        &self.pairs
    }
}

/// Returns `true` if the spans are merged as they stand: each ends below where the next one begins.
///
/// # Memory
///
/// Does not allocate.
///
/// # Examples
///
/// `true` for 0 to 1 and 2 to 7. `false` for 0 to 2 and 2 to 7, and for 2 to 7 and 0 to 1.
pub fn are_merged<T: Ord>(spans: &[Span<T>]) -> bool
    ensures { IsTrue result ↔ AreMerged T.cmp spans.now }
{
    let Some((first, others)) = spans.split_first() else {
        return true;
    };
    let mut last = first.ends();
    for span in others {
        let ends = span.ends();
        if *last.1 >= *ends.0 {
            return false;
        }
        last = ends;
    }
    true
}

// Returns the places of the merged spans, from the spans sorted by their lower ends. Of equal ends, the place of the
// first span of the list is chosen.
fn places_in_order<T: Ord>(
    alloc: Global,
    order: &[Placed<T>],
) -> Result<Vec<(usize, usize)>, AllocError>
    ensures { IfOk result (λ pairs. (spans : List (Ends T)) → AreSorted T.cmp spans order.now
        → AreJoinedAt T.cmp spans pairs.items) }
{
    let Some((first, later)) = order.split_first() else {
        return Ok(Vec::new(alloc));
    };
    let mut pairs = Vec::with_capacity(alloc, order.len())?;
    let mut begun = first.place();
    let mut place = begun;
    let (_, mut upper) = first.ends();
    for next in later {
        let ends = next.ends();
        let found = next.place();
        if *upper < *ends.0 {
            pairs.push((begun, place))?;
            (begun, place) = (found, found);
            upper = ends.1;
        } else if ends_later(upper, place, ends.1, found) {
            upper = ends.1;
            place = found;
        }
    }
    pairs.push((begun, place))?;
    shrink(&mut pairs);
    Ok(pairs)
}

// Gives back the room that is not used, if it is more than the room that is. A call of the allocator for less costs
// more than it saves: the two sets of a union often meet.
#[inline]
fn shrink(pairs: &mut Vec<(usize, usize)>)
    ensures { pairs.new.items ≡ pairs.old.items }
{
    if pairs.len() < pairs.capacity() / 2 {
        pairs.shrink_to_fit();
    }
}

// Returns `true` if the second end is greater than the first, or equal to it and in an earlier span of the list.
// `inline(always)`: it has two comparisons, and is in the inner loop.
#[inline(always)]
fn ends_later<T: Ord>(upper: &Cut<T>, place: usize, end: &Cut<T>, found: usize) -> bool
    ensures { result ≡ is_lt (ordering_then (cut_cmp T.cmp upper.now end.now) (nat_cmp found place)) }
{
    upper.cmp(end).then(found.cmp(&place)).is_lt()
}
