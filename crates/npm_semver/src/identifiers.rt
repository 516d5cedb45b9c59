//! Identifiers of whole texts: the one that a text writes, and whether a text writes these.
ghost use Rattle.std.specs.Prelude.{◌≡◌, ◌↔◌, IfNone, IfOk, IfSome, IsTrue, MatchOption};
ghost use Rattle.std.specs.List.{AllByRecursion};
ghost use Rattle.semver_texts.specs.Characters as Characters;
ghost use Rattle.semver_texts.specs.Characters.{AreAll};
ghost use Rattle.semver_texts.specs.Identifier.{value_of};
ghost use Rattle.semver_texts.specs.IdentifierRef.{borrowed_value};
ghost use Rattle.semver_texts.specs.IdentifierText as IdentifierText;
ghost use Rattle.semver_texts.specs.IdentifierText.{IsIdentifierText, IsReadIdentifier, identifier_of};
ghost use Rattle.semver_texts.specs.IdentifierValue.{alphanumeric};

use node_semver::{Identifier, IdentifierRef};
use semver_texts::identifier::borrowed::borrowed_of;
use semver_texts::identifier::copy::copy_of;
use semver_texts::parse::identifiers::{begins_identifier, is_identifier_character, numeric};
use semver_texts::parse::skip::split;
use std::alloc::{AllocError, Global};

/// Returns the identifier that the text writes, or `None` if it writes none.
///
/// # Errors
///
/// Returns `AllocError` if an allocation fails.
///
/// # Memory
///
/// Does not allocate for a number. For a text, allocates its bytes.
///
/// # Examples
///
/// - `beta` and `x-1`: texts. `1` and `01`: the number 1.
/// - `None` for the empty text, `beta.1` and `a b`.
///
/// # Source
///
/// SemVer 2.0.0, section 9; npm's loose mode for zeros in front.
pub fn read_identifier(alloc: Global, text: &[u8]) -> Result<Option<Identifier>, AllocError>
    ensures { IfOk result (λ found. MatchOption found (¬ IsIdentifierText text.now)
        (λ i. IsIdentifierText text.now × (value_of i ≡ IdentifierText.identifier_of text.now))) }
{
    match borrowed(text) {
        Some(identifier) => Ok(Some(copy_of(alloc, identifier)?)),
        None => Ok(None),
    }
}

// The identifier that the text writes, borrowed from it.
fn borrowed(text: &[u8]) -> Option<IdentifierRef<'_>>
    ensures some { IfSome result (λ i. IsIdentifierText text.now
        × (borrowed_value i ≡ IdentifierText.identifier_of text.now)) }
    ensures none { IfNone result (¬ IsIdentifierText text.now) }
{
    if begins_identifier(text) && are_all_characters(text) {
        Some(borrowed_of(text))
    } else {
        None
    }
}

// Whether some text writes each of the identifiers: not the empty text, not `a b`, and not the text `1`, which writes
// the number.
pub(crate) fn are_read(identifiers: &[Identifier]) -> bool
    ensures { IsTrue result ↔ AllByRecursion (λ i. IsReadIdentifier (value_of i)) identifiers.now }
{
    'identifiers: for identifier in identifiers {
        if !is_read(identifier) {
            return false;
        }
    }
    true
}

fn is_read(identifier: &Identifier) -> bool
    ensures { IsTrue result ↔ IsReadIdentifier (value_of identifier.now) }
{
    match identifier {
        Identifier::Numeric(number) => {
            let _number = *number;
            true
        }
        Identifier::AlphaNumeric(text) => writes_itself(text.as_bytes()),
    }
}

// Whether the text is an identifier text that writes no number.
fn writes_itself(text: &[u8]) -> bool
    ensures { IsTrue result ↔ (IsIdentifierText text.now × (identifier_of text.now ≡ alphanumeric text.now)) }
{
    begins_identifier(text) && are_all_characters(text) && numeric(text).is_none()
}

// Whether all the bytes are identifier characters.
fn are_all_characters(text: &[u8]) -> bool
    ensures { IsTrue result ↔ AreAll Characters.is_identifier_character text.now }
{
    let (_, rest) = split(text, is_identifier_character);
    rest.is_empty()
}
