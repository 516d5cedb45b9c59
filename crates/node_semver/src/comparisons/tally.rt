//! A number that only proofs read.
ghost use Rattle.std.specs.Prelude.{◌≡◌, ℕ, ◌+◌};
ghost use Rattle.std.specs.Borrow.{ftrue};

use std::marker::Model;

// It has no bytes, and its methods do nothing when the program runs.
#[derive(Drop)]
pub(crate) struct Tally {
    pub(crate) ghost count: { ℕ },
}

impl Model for Tally {
    ghost also_owns = { λ _. ftrue };
}

impl Tally {
    // A tally of 0. `inline(always)`: there is nothing to do when the program runs.
    #[inline(always)]
    pub(crate) fn zero() -> Tally
        ensures { result.count ≡ 0 }
    {
        Tally {}
    }

    // The next tally. `inline(always)`: as above.
    #[inline(always)]
    pub(crate) fn next(&self) -> Tally
        ensures { result.count ≡ self.now.count + 1 }
    {
        Tally {}
    }
}
