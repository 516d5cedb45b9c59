//! Copies of sets.
ghost use Rattle.std.specs.Prelude.{◌≡◌, ◌++◌, IfOk, OnOk};
ghost use Rattle.semver_cuts.specs.Ends.{IsCutBelow, span_between};
ghost use Rattle.semver_texts.specs.Comparison.{version_cmp};
ghost use Rattle.semver_sets.specs.RangeSets.{sets_seen};

use crate::set_list::Sets;
use semver_cuts::{Cut, Span};
use semver_texts::end::EndVersion;
use std::alloc::AllocError;

impl Sets {
    /// Returns a copy of the sets, with the builds of their ends.
    ///
    /// # Errors
    ///
    /// Returns `AllocError` if an allocation fails.
    ///
    /// # Memory
    ///
    /// Allocates the identifiers of the ends, and the list and its index if there are several sets.
    pub fn copy(&self) -> Result<Sets, AllocError>
        ensures { IfOk result (λ copy. sets_seen copy ≡ sets_seen self.now) }
    {
        match self {
            Sets::One(set) => Ok(Sets::One(copy_of_set(set)?)),
            Sets::Many(sets) => Ok(Sets::Many(sets.copy()?)),
        }
    }
}

// Copies of the sets, in a list.
pub(crate) fn copies_of(sets: &Vec<Span<EndVersion>>) -> Result<Vec<Span<EndVersion>>, AllocError>
    ensures { IfOk result (λ copies. copies.items ≡ sets.now.items) }
{
    let mut copies = Vec::with_capacity(*sets.allocator(), sets.len())?;
    push_copies(&mut copies, sets)?;
    Ok(copies)
}

// Appends a copy of each set.
pub(crate) fn push_copies(
    copies: &mut Vec<Span<EndVersion>>,
    sets: &[Span<EndVersion>],
) -> Result<(), AllocError>
    ensures { OnOk result (copies.new.items ≡ copies.old.items ++ sets.now) }
{
    'sets: for set in sets {
        copies.push(copy_of_set(set)?)?;
    }
    Ok(())
}

#[inline]
fn copy_of_set(set: &Span<EndVersion>) -> Result<Span<EndVersion>, AllocError>
    ensures { IfOk result (λ copy. copy ≡ set.now) }
{
    let (lower, upper) = set.ends();
    copy_of(lower, upper)
}

// The set between copies of two cuts.
#[inline]
pub(crate) fn copy_of(
    lower: &Cut<EndVersion>,
    upper: &Cut<EndVersion>,
) -> Result<Span<EndVersion>, AllocError>
    requires { IsCutBelow version_cmp lower.now upper.now }
    ensures { IfOk result (λ set. set ≡ span_between lower.now upper.now) }
{
    Ok(Span::between(copy_of_cut(lower)?, copy_of_cut(upper)?))
}

#[inline]
pub(crate) fn copy_of_cut(cut: &Cut<EndVersion>) -> Result<Cut<EndVersion>, AllocError>
    ensures { IfOk result (λ copy. copy ≡ cut.now) }
{
    match cut {
        Cut::Start => Ok(Cut::Start),
        Cut::Before(end) => Ok(Cut::Before(end.copy()?)),
        Cut::After(end) => Ok(Cut::After(end.copy()?)),
        Cut::End => Ok(Cut::End),
    }
}
