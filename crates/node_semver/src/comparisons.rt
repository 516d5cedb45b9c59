//! A counter of comparisons that has no bytes when the program runs.
//!
//! Comparisons are counted in a ghost of its own crate: else a search that resets the counter is proved.
ghost use Rattle.std.specs.Prelude.{◌≡◌, ◌+◌};

mod tally;

use semver_sets::Counts;
use std::marker::Model;
use tally::Tally;

/// The number of times that a version was compared with a cut. It exists only for contracts: it has no bytes, and a
/// running program cannot read it.
///
/// The contract of [`Range::satisfies_counted`](crate::Range::satisfies_counted) sees it as a whole number.
///
/// # Memory
///
/// Does not allocate.
#[derive(Drop)]
pub struct Comparisons {
    tally: Tally,
}

impl Model for Comparisons {
    ghost use Rattle.std.specs.Prelude.{ℕ};

    ghost Value = { ℕ };

    ghost view = { λ c. c.tally.count };
}

impl Comparisons {
    /// Returns a counter at 0.
    ///
    /// # Memory
    ///
    /// Does not allocate.
    // `inline(always)`: there is nothing to compute when the program runs.
    #[inline(always)]
    pub fn new() -> Comparisons
        ensures { result ≡ 0 }
    {
        Comparisons {
            tally: Tally::zero(),
        }
    }
}

impl Counts for Comparisons {
    ghost count = { λ c. c };

    // `inline(always)`: there is nothing to do when the program runs.
    #[inline(always)]
    fn add_one(&mut self) {
        self.tally = self.tally.next();
    }
}
