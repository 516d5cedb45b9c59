//! The identifiers of a bumped prerelease.
ghost use Rattle.std.specs.Prelude.{◌≡◌, ◌⊎◌, ◌↔◌, List, ◌++◌, [], ◌∷◌, None, Some, IsTrue, IfErr, IfNone, IfOk, IfSome, OnOk};
ghost use Rattle.std.specs.List.{AllByRecursion};
ghost use Rattle.npm_semver.specs.Bump as Bumps;
ghost use Rattle.npm_semver.specs.Bump.{BeginsNumbered, HasBeginning, HasNoNext, IsNext, IsNextOf};
ghost use Rattle.npm_semver.specs.Bump.{IsSplitAtLastNumber, IsText, base_identifiers, identifier_seen};
ghost use Rattle.semver_texts.specs.Identifier.{value_of, values_of};
ghost use Rattle.semver_texts.specs.IdentifierValue.{IdentifierValue, numeric};
ghost use Rattle.npm_semver.specs.declared.bump.BumpError.TheVariants.{OutOfMemory};

use super::{BumpError, IdentifierBase};
use semver_texts::identifier::copy::copies_of;
use semver_texts::{Identifier, MAX_SAFE_INTEGER};
use std::alloc::{AllocError, Global};

// `x` and 1 and nothing of `x.1`; `x`, 1 and `y` of `x.1.y`: the last number, what stands before it, and what after.
fn split_last_number(identifiers: &[Identifier]) -> Option<(&[Identifier], u64, &[Identifier])>
    ensures found { IfSome result (λ r. IsSplitAtLastNumber (values_of identifiers.now) (values_of r.0.now) r.1
        (values_of r.2.now)) }
    ensures none { IfNone result (AllByRecursion IsText (values_of identifiers.now)) }
{
    let mut rest = identifiers;
    'identifiers: while let [others @ .., last] = rest {
        if let Identifier::Numeric(number) = last {
            return Some((others, *number, &identifiers[others.len() + 1..]));
        }
        rest = others;
    }
    None
}

// Adds copies of the identifiers to a list.
fn push_copies(copies: &mut Vec<Identifier>, identifiers: &[Identifier]) -> Result<(), AllocError>
    ensures { OnOk result (values_of copies.new.items ≡ values_of copies.old.items ++ values_of identifiers.now) }
{
    'identifiers: for identifier in identifiers {
        copies.push(identifier.clone()?)?;
    }
    Ok(())
}

// `beta.0`: the identifiers of a new prerelease.
pub(super) fn new_identifiers(
    alloc: Global,
    identifier: Option<&Identifier>,
    base: IdentifierBase,
) -> Result<Vec<Identifier>, AllocError>
    ensures { IfOk result (λ v. values_of v.items ≡ Bumps.new_identifiers (identifier_seen identifier.entry) base) }
{
    let mut identifiers = Vec::new(alloc);
    if let Some(identifier) = identifier {
        identifiers.push(identifier.clone()?)?;
    }
    push_base(&mut identifiers, base)?;
    Ok(identifiers)
}

// Adds the number that a prerelease begins with, if it begins with one.
fn push_base(identifiers: &mut Vec<Identifier>, base: IdentifierBase) -> Result<(), AllocError>
    ensures { OnOk result (values_of identifiers.new.items
        ≡ values_of identifiers.old.items ++ base_identifiers base) }
{
    match base {
        IdentifierBase::Zero => identifiers.push(Identifier::Numeric(0))?,
        IdentifierBase::One => identifiers.push(Identifier::Numeric(1))?,
        IdentifierBase::Absent => {}
    }
    Ok(())
}

// Copies with another number between: `x.2.y` of `x`, 2 and `y`.
fn joined(
    alloc: Global,
    before: &[Identifier],
    number: u64,
    after: &[Identifier],
) -> Result<Vec<Identifier>, AllocError>
    ensures { IfOk result (λ v. values_of v.items
        ≡ values_of before.now ++ (numeric number ∷ values_of after.now)) }
{
    let mut copies = copies_of(alloc, before)?;
    copies.push(Identifier::Numeric(number))?;
    push_copies(&mut copies, after)?;
    Ok(copies)
}

// `beta.2` after `beta.1`, `beta.0` after `beta`: the identifiers after these, if no identifier is given.
fn next_by_number(
    alloc: Global,
    identifiers: &[Identifier],
    base: IdentifierBase,
) -> Result<Vec<Identifier>, BumpError>
    ensures next { IfOk result (λ v. IsNext None base (values_of identifiers.now) (values_of v.items)) }
    ensures refused { IfErr result (λ e. e ≡ OutOfMemory
        ⊎ HasNoNext None base (values_of identifiers.now)) }
{
    match split_last_number(identifiers) {
        Some((_, number, _)) if number >= MAX_SAFE_INTEGER => Err(BumpError::NumberTooLarge),
        Some((before, number, after)) => Ok(joined(alloc, before, number + 1, after)?),
        None => {
            let mut copies = copies_of(alloc, identifiers)?;
            push_base(&mut copies, base)?;
            Ok(copies)
        }
    }
}

// Returns `true` if the prerelease begins with the identifier and a number: `beta.1` for `beta`.
fn begins_numbered(identifiers: &[Identifier], identifier: &Identifier) -> bool
    ensures { IsTrue result ↔ BeginsNumbered (value_of identifier.now) (values_of identifiers.now) }
{
    match identifiers {
        [first, Identifier::Numeric(_), ..] => *first == *identifier,
        _ => false,
    }
}

// Returns `true` if the prerelease is the identifier alone.
fn is_alone(identifiers: &[Identifier], identifier: &Identifier) -> bool
    ensures { IsTrue result ↔ (values_of identifiers.now ≡ value_of identifier.now ∷ []) }
{
    match identifiers {
        [only] => *only == *identifier,
        _ => false,
    }
}

// `beta.2` after `beta.1`, `beta.0` after `alpha.1`: the identifiers after these, if `beta` is given.
#[tactic(auto, using(crate::proofs::Versions::Bumps::next_with, crate::proofs::Versions::Bumps::no_next_with, crate::proofs::Versions::Bumps::no_next_alone, crate::proofs::Versions::Bumps::next_new))]
fn next_by_identifier(
    alloc: Global,
    identifiers: &[Identifier],
    identifier: &Identifier,
    base: IdentifierBase,
) -> Result<Vec<Identifier>, BumpError>
    ensures next { IfOk result (λ v. IsNext (Some (value_of identifier.now)) base (values_of identifiers.now)
        (values_of v.items)) }
    ensures refused { IfErr result (λ e. e ≡ OutOfMemory
        ⊎ HasNoNext (Some (value_of identifier.now)) base (values_of identifiers.now)) }
{
    if begins_numbered(identifiers, identifier) {
        return next_by_number(alloc, identifiers, base);
    }
    if base == IdentifierBase::Absent && is_alone(identifiers, identifier) {
        return Err(BumpError::SameIdentifier);
    }
    Ok(new_identifiers(alloc, Some(identifier), base)?)
}

// The prerelease after that of a version.
pub(super) fn next_identifiers(
    alloc: Global,
    identifiers: &[Identifier],
    identifier: Option<&Identifier>,
    base: IdentifierBase,
) -> Result<Vec<Identifier>, BumpError>
    requires { HasBeginning (identifier_seen identifier) base }
    ensures next { IfOk result (λ v. IsNextOf (identifier_seen identifier.entry) base (values_of identifiers.now)
        (values_of v.items)) }
    ensures refused { IfErr result (λ e. e ≡ OutOfMemory
        ⊎ ((other : List IdentifierValue) → ¬ IsNextOf (identifier_seen identifier.entry) base
        (values_of identifiers.now) other)) }
{
    if identifiers.is_empty() {
        return Ok(new_identifiers(alloc, identifier, base)?);
    }
    match identifier {
        Some(identifier) => next_by_identifier(alloc, identifiers, identifier, base),
        None => next_by_number(alloc, identifiers, base),
    }
}

// Returns `true` if a prerelease can begin with an identifier, with a number or with both.
pub(super) fn has_beginning(identifier: Option<&Identifier>, base: IdentifierBase) -> bool
    ensures { IsTrue result ↔ HasBeginning (identifier_seen identifier.entry) base }
{
    identifier.is_some() || base != IdentifierBase::Absent
}
