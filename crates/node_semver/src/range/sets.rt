//! The sets of a range, as spans of versions.
//!
//! See docs/DECISIONS.md, "A range has only ends with small numbers and readable identifiers".
ghost use Rattle.std.specs.Prelude.{◌≡◌, length, IfOk};
ghost use Rattle.std.specs.List.{slice_get};
ghost use Rattle.semver_sets.specs.RangeSets.{IsRangeValue};

use crate::range::least::unbuilt::Unbuilt;
use crate::{Range, Version};
use semver_cuts::{Cut, Span};
use semver_texts::end::EndVersion;
use std::alloc::{AllocError, Global};

impl Range {
    /// Returns the sets of the range in their order, with a version at each end and its build.
    ///
    /// `npm_semver::range_from_sets` makes the same range of them.
    ///
    /// # Errors
    ///
    /// Fails with `AllocError` if an allocation fails.
    ///
    /// # Memory
    ///
    /// Allocates the list, and the identifiers of the ends. An end without prerelease and build allocates nothing.
    ///
    /// # Examples
    ///
    /// - The sets of `>=1.2.3 <2.0.0 || >4.0.0` are the spans from `Before(1.2.3)` to `Before(2.0.0)` and from
    ///   `After(4.0.0)` to `End`.
    /// - The only set of `^1.2.3+a` is the span from `Before(1.2.3)` to `Before(2.0.0-0)`: a caret drops the build.
    pub fn sets(&self, alloc: Global) -> Result<Vec<Span<Version>>, AllocError>
        ensures sets { IfOk result (λ sets. sets.items ≡ self.now) }
        ensures holds { IfOk result (λ sets. IsRangeValue sets.items) }
    {
        let sets = self.sets.as_slice();
        let mut spans = Vec::with_capacity(alloc, sets.len())?;
        'sets: for set in sets {
            spans.push(span_of(alloc, set)?)?;
        }
        Ok(spans)
    }

    /// Returns the number of sets, which is at least 1.
    ///
    /// # Memory
    ///
    /// Does not allocate.
    ///
    /// # Examples
    ///
    /// `^1.2.3` has one set, and `1 || 1` has two.
    pub fn set_count(&self) -> usize
        ensures { result ≡ length self.now }
    {
        self.sets.as_slice().len()
    }

    /// Returns the set at a place, counted from 0, or `None` past the last set. [`Range::sets`] returns all of them.
    ///
    /// # Errors
    ///
    /// Fails with `AllocError` if an allocation fails.
    ///
    /// # Memory
    ///
    /// Allocates the identifiers of the two ends. An end without prerelease and build allocates nothing.
    ///
    /// # Examples
    ///
    /// The set of `^1.2.3 || >4.0.0` at place 1 is the span from `After(4.0.0)` to `End`. At place 2 there is none.
    pub fn set(&self, alloc: Global, place: usize) -> Result<Option<Span<Version>>, AllocError>
        ensures { IfOk result (λ set. set ≡ slice_get self.now place) }
    {
        match self.sets.as_slice().get(place) {
            Some(set) => Ok(Some(span_of(alloc, set)?)),
            None => Ok(None),
        }
    }
}

// The set, with versions of its own at its ends.
#[inline]
fn span_of(alloc: Global, set: &Span<EndVersion>) -> Result<Span<Version>, AllocError>
    ensures { IfOk result (λ span. span ≡ set.now) }
{
    let (lower, upper) = set.ends();
    Ok(Span::between(cut_of(alloc, lower)?, cut_of(alloc, upper)?))
}

#[inline]
fn cut_of(alloc: Global, cut: &Cut<EndVersion>) -> Result<Cut<Version>, AllocError>
    ensures { IfOk result (λ copy. copy ≡ cut.now) }
{
    match cut {
        Cut::Start => Ok(Cut::Start),
        Cut::Before(end) => Ok(Cut::Before(Unbuilt::at_end(end).built(alloc)?)),
        Cut::After(end) => Ok(Cut::After(Unbuilt::at_end(end).built(alloc)?)),
        Cut::End => Ok(Cut::End),
    }
}
