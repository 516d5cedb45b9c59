//! The algebra of lists of spans: their intersection and difference, whether they share a cut, and whether one contains
//! all cuts of the other.
ghost use Rattle.std.specs.Prelude.{◌≡◌, ◌++◌, ◌∷◌, [], List, OnOk};
ghost use Rattle.semver_cuts.specs.Ends.{Ends, IsCutBelow, span_between};

mod common;
mod difference;
mod joined;
mod merged;
mod near;
mod placed;
mod places;
mod walks;

use crate::Cut;
pub use joined::join;
pub use merged::MergedSpans;
pub use places::{Places, are_merged};
use std::alloc::AllocError;
pub use walks::covers;

/// Receives the spans of a result one after another, each as a pair of references to its ends.
///
/// The references point into the lists that the algebra was called with, and live as long as those lists. An
/// implementation can keep them, or clone the ends.
pub trait Gather<'a, T: Ord> {
    /// The spans received so far, in the order in which they came.
    ghost gathered: { Self → List (Ends T) };

    /// Receives one more span: from `lower` up to but not including `upper`.
    ///
    /// # Errors
    ///
    /// Returns `AllocError` if an allocation fails.
    fn gather(&mut self, lower: &'a Cut<T>, upper: &'a Cut<T>) -> Result<(), AllocError>
        requires { IsCutBelow T.cmp lower.now upper.now }
        ensures { OnOk result (gathered self.new ≡ gathered self.old ++ span_between lower.now upper.now ∷ []) };
}
