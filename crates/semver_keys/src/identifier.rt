//! The keys of identifiers.
ghost use Rattle.std.specs.Prelude.{◌≡◌, ◌++◌, ◌∷◌, OnErr, OnOk};
ghost use Rattle.std.specs.List.{AllByRecursion};
ghost use Rattle.semver_texts.specs.Identifier.{value_of, values_of};
ghost use Rattle.semver_texts.specs.IdentifierRef.{borrowed_value};
ghost use Rattle.semver_keys.specs.IdentifierKey as Keys;
ghost use Rattle.semver_keys.specs.NumberKey.{number_key};
ghost use Rattle.semver_keys.specs.Private.Grown.{IsGrown};
ghost use Rattle.semver_keys.specs.VersionKey.{HasWord};

use crate::number::add_number;
use node_semver::{Identifier, IdentifierRef, Identifiers};
use std::alloc::AllocError;

// Appends the keys of identifiers, and the end of them.
#[tactic(auto, using(crate::proofs::IdentifierRules::identifier_rules))]
pub(crate) fn add_identifiers(
    key: &mut Vec<u8>,
    identifiers: &[Identifier],
) -> Result<(), AllocError>
    ensures added { OnOk result (key.new.items ≡ key.old.items ++ Keys.identifiers_key (values_of identifiers.now)) }
    ensures words { OnOk result (AllByRecursion HasWord (values_of identifiers.now)) }
    ensures grown { OnErr result (IsGrown key.old.items key.new.items) }
{
    let mut rest = identifiers;
    'identifiers: while let Some((first, others)) = rest.split_first() {
        add_identifier(key, first)?;
        rest = others;
    }
    key.push(0)?;
    Ok(())
}

// Appends the keys of identifiers that borrow their texts, and the end of them.
#[tactic(auto, using(crate::proofs::IdentifierRules::identifier_rules))]
pub(crate) fn add_borrowed(
    key: &mut Vec<u8>,
    identifiers: Identifiers<'_>,
) -> Result<(), AllocError>
    ensures added { OnOk result (key.new.items ≡ key.old.items ++ Keys.identifiers_key identifiers.entry) }
    ensures words { OnOk result (AllByRecursion HasWord identifiers.entry) }
    ensures grown { OnErr result (IsGrown key.old.items key.new.items) }
{
    let mut rest = identifiers;
    'identifiers: while let Some(first) = rest.next() {
        add_reference(key, first)?;
    }
    key.push(0)?;
    Ok(())
}

#[inline]
#[tactic(auto, using(crate::proofs::IdentifierRules::identifier_rules))]
fn add_identifier(key: &mut Vec<u8>, identifier: &Identifier) -> Result<(), AllocError>
    ensures added { OnOk result (key.new.items ≡ key.old.items ++ Keys.identifier_key (value_of identifier.now)) }
    ensures words { OnOk result (HasWord (value_of identifier.now)) }
    ensures grown { OnErr result (IsGrown key.old.items key.new.items) }
{
    match identifier {
        Identifier::Numeric(n) => add_numeric(key, *n),
        Identifier::AlphaNumeric(text) => add_text(key, text.as_str().as_bytes()),
    }
}

#[inline]
#[tactic(auto, using(crate::proofs::IdentifierRules::identifier_rules))]
fn add_reference(key: &mut Vec<u8>, identifier: IdentifierRef<'_>) -> Result<(), AllocError>
    ensures added { OnOk result (key.new.items ≡ key.old.items ++ Keys.identifier_key (borrowed_value identifier.entry)) }
    ensures words { OnOk result (HasWord (borrowed_value identifier.entry)) }
    ensures grown { OnErr result (IsGrown key.old.items key.new.items) }
{
    match identifier {
        IdentifierRef::Numeric(n) => add_numeric(key, n),
        IdentifierRef::AlphaNumeric(text) => add_text(key, text.as_bytes()),
    }
}

// Appends 1 and the key of the number.
#[inline]
#[tactic(auto, using(crate::proofs::IdentifierRules::identifier_rules))]
fn add_numeric(key: &mut Vec<u8>, n: u64) -> Result<(), AllocError>
    ensures added { OnOk result (key.new.items ≡ key.old.items ++ 1 ∷ number_key n) }
    ensures grown { OnErr result (IsGrown key.old.items key.new.items) }
{
    key.push(1)?;
    add_number(key, n)
}

// Appends 2, the bytes of the text and 0.
#[tactic(auto, using(crate::proofs::IdentifierRules::identifier_rules))]
fn add_text(key: &mut Vec<u8>, text: &[u8]) -> Result<(), AllocError>
    ensures added { OnOk result (key.new.items ≡ key.old.items ++ 2 ∷ Keys.text_key text.now) }
    ensures grown { OnErr result (IsGrown key.old.items key.new.items) }
{
    key.push(2)?;
    let mut rest = text;
    'bytes: while let Some((first, others)) = rest.split_first() {
        add_byte(key, *first)?;
        rest = others;
    }
    key.push(0)?;
    Ok(())
}

// Appends a byte of a text. `inline`: it is the body of a loop.
#[inline]
#[tactic(auto, using(crate::proofs::IdentifierRules::identifier_rules))]
fn add_byte(key: &mut Vec<u8>, byte: u8) -> Result<(), AllocError>
    ensures added { OnOk result (key.new.items ≡ key.old.items ++ Keys.byte_key byte) }
    ensures grown { OnErr result (IsGrown key.old.items key.new.items) }
{
    if byte < 2 {
        key.extend_from_slice(&[1, byte + 1])
    } else {
        key.extend_from_slice(&[byte])
    }
}
