//! How identifiers are printed.

ghost use Rattle.std.specs.Prelude.{Some};
ghost use Rattle.semver_texts.specs.Identifier.{value_of};
ghost use Rattle.semver_texts.specs.IdentifierRef.{borrowed_value};
ghost use Rattle.semver_texts.specs.Print.{identifier_text};

use crate::identifier::borrowed::by_reference;
use crate::{Identifier, IdentifierRef};
use std::fmt;

/// Prints the number in decimal without leading zeros, or the text. Width and fill are ignored.
///
/// # Examples
///
/// `Numeric(1)` prints `1`, also with `{:>9}`.
impl fmt::Display for Identifier {
    ghost output = { λ i. Some (identifier_text (value_of i)) };

    fn fmt<W: fmt::Write>(&self, f: &mut fmt::Formatter<W>) -> fmt::Result {
        fmt::Display::fmt(&by_reference(self), f)
    }
}

/// Prints as the [`Identifier`] of the same text does.
impl<'a> fmt::Display for IdentifierRef<'a> {
    ghost output = { λ i. Some (identifier_text (borrowed_value i)) };

    #[inline]
    fn fmt<W: fmt::Write>(&self, f: &mut fmt::Formatter<W>) -> fmt::Result {
        match self {
            IdentifierRef::Numeric(n) => write!(f, "{n}"),
            IdentifierRef::AlphaNumeric(text) => f.write_str(text),
        }
    }
}
