//! The identifiers of an end's prerelease, by reference. The prerelease `0` alone is stored as no list, so [`Zero`]
//! provides one.
//!
//! `#[inline(always)]`: each function here is one test, on the way of comparisons.
ghost use Rattle.std.specs.Prelude.{◌≡◌, ◌↔◌, ◌∷◌, [], IsTrue};
ghost use Rattle.semver_texts.specs.Identifier.{values_of};
ghost use Rattle.semver_texts.specs.IdentifierValue.{numeric};
ghost use Rattle.semver_texts.specs.EndViews.{borrowed_seen};

use crate::Identifier;
use std::marker::Model;

/// The identifiers of a prerelease: a borrowed list, or the number 0 alone.
#[derive(Clone, Copy)]
pub enum BorrowedIdentifiers<'a> {
    /// a borrowed list
    List(&'a [Identifier]),
    /// the number 0 alone
    Zero,
}

impl<'a> BorrowedIdentifiers<'a> {
    /// Returns `true` if there are no identifiers.
    #[inline(always)]
    pub fn is_empty(self) -> bool
        ensures { IsTrue result ↔ (borrowed_seen self.entry ≡ []) }
    {
        match self {
            BorrowedIdentifiers::List(identifiers) => identifiers.is_empty(),
            BorrowedIdentifiers::Zero => false,
        }
    }

    /// Returns the identifiers as a slice. If they are the number 0 alone, the slice borrows it from `zero`.
    #[inline(always)]
    pub fn as_slice<'b>(self, zero: &'b Zero) -> &'b [Identifier]
    where
        'a: 'b,
        ensures { values_of result.now ≡ borrowed_seen self.entry }
    {
        match self {
            BorrowedIdentifiers::List(identifiers) => identifiers,
            BorrowedIdentifiers::Zero => zero.as_slice(),
        }
    }
}

/// The identifier 0, kept by a caller for [`BorrowedIdentifiers::as_slice`] to borrow.
#[derive(Drop)]
pub struct Zero {
    identifier: Identifier,
}

impl Model for Zero {
    ghost use Rattle.std.specs.Prelude.{◌≡◌};
    ghost use Rattle.semver_texts.specs.Identifier.{value_of};
    ghost use Rattle.semver_texts.specs.IdentifierValue.{IdentifierValue, numeric};

    ghost Value = { IdentifierValue };

    ghost view = { λ z. value_of z.identifier };

    ghost invariant = { λ z. value_of z.identifier ≡ numeric 0 };
}

impl Zero {
    /// Returns the identifier 0.
    #[inline(always)]
    pub fn new() -> Zero
        ensures { result ≡ numeric 0 }
    {
        Zero {
            identifier: Identifier::Numeric(0),
        }
    }

    #[inline(always)]
    fn as_slice(&self) -> &[Identifier]
        ensures { values_of result.now ≡ numeric 0 ∷ [] }
    {
        std::slice::from_ref(&self.identifier)
    }
}
