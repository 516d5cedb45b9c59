//! How many comparisons a search takes.
//!
//! Comparisons are counted in a ghost of its own crate: else a search that resets the counter is proved.
ghost use Rattle.std.specs.Prelude.{◌≡◌, ◌+◌, ℕ};

/// A count of the comparisons of a version with a cut, which only grows.
///
/// A search receives a counter of a type that it doesn't know. So it can neither set the counter back nor make a second
/// one of that type. A contract sees a number, `count`. `Comparisons` of `node_semver` is such a counter.
pub trait Counts {
    ghost count: { Self → ℕ };

    /// Counts one more comparison.
    ///
    /// # Memory
    ///
    /// Does not allocate.
    fn add_one(&mut self)
        ensures { count self.new ≡ count self.old + 1 };
}
