//! Types whose values can be visited in order: a least value, and from each value the next one.

ghost use Rattle.std.specs.Prelude.{IfOk, IfSome};
ghost use Rattle.semver_cuts.specs.Steps.{IsLeast, IsNext};

use std::alloc::{AllocError, Global};

/// A total order with a least value, and in which a value can have a *next* one: a greater value with no value between
/// the two.
///
/// A type can represent more than its values. The ghost member `is_value` says what counts as a value, and
/// [`Stepped::known`] proves that a given `Self` is one. The type also decides for which values
/// [`Stepped::next`] returns `None`.
///
/// # Examples
///
/// For numbers of eight bits, 0 is the least value, the next one after 3 is 4, and 255 has no next one.
pub trait Stepped: Ord {
    /// What counts as a value of the type.
    ghost is_value: { Self → Type 0 };

    /// Does nothing when it runs. Its contract is that `self` is a value, for callers whose proof needs that.
    ///
    /// # Memory
    ///
    /// Does not allocate.
    fn known(&self)
        ensures { is_value self.now };

    /// Returns the least value: no value is less.
    ///
    /// # Errors
    ///
    /// Returns `AllocError` if an allocation fails.
    fn least(alloc: Global) -> Result<Self, AllocError>
        ensures { IfOk result (λ least. IsLeast Self.cmp is_value least) };

    /// Returns the next value after this one, if it has one: a greater value, with no value between the two.
    ///
    /// # Errors
    ///
    /// Returns `AllocError` if an allocation fails.
    fn next(&self, alloc: Global) -> Result<Option<Self>, AllocError>
        ensures { is_value self.now → IfOk result (λ next. IfSome next (IsNext Self.cmp is_value self.now)) };
}
