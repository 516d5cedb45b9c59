//! Copies of identifiers.

ghost use Rattle.std.specs.Prelude.{◌≡◌, ◌++◌, [], ◌∷◌, IfOk, IsOk, MatchResult};
ghost use Rattle.semver_texts.specs.Identifier.{IsNumber, value_of, values_of};
ghost use Rattle.semver_texts.specs.IdentifierRef.{borrowed_value};
ghost use Rattle.semver_texts.specs.IdentifierText.{IsListed, identifiers_of};
ghost use Rattle.semver_texts.specs.IdentifierValue.{numeric};

use crate::identifier::borrowed::borrowed_of;
use crate::parse::listed::{split_first, split_number};
use crate::{Identifier, IdentifierRef, Identifiers};
use std::alloc::{AllocError, Global};

// A list that is read from a text gets room for this many identifiers at once. Most lists have no more.
const USUAL_IDENTIFIERS: usize = 4;

/// Returns a copy: the same number or the same text.
///
/// # Errors
///
/// Returns `AllocError` if the allocation of the text fails.
///
/// # Memory
///
/// Does not allocate for a number. For a text, allocates its bytes.
impl Clone for Identifier {
    ghost is_clone = { λ i copy. value_of copy ≡ value_of i };

    ghost is_infallible = { IsNumber };

    #[inline]
    fn clone(&self) -> Result<Identifier, AllocError>
        ensures cases { MatchResult result (λ copy. value_of copy ≡ value_of self.now) (λ _. ¬ IsNumber self.now) }
        ensures copy { IfOk result (λ copy. value_of copy ≡ value_of self.now) }
        ensures number { IsNumber self.now → IsOk result }
    {
        match self {
            Identifier::Numeric(n) => Ok(Identifier::Numeric(*n)),
            Identifier::AlphaNumeric(text) => Ok(Identifier::AlphaNumeric(text.clone()?)),
        }
    }
}

/// Returns copies of the identifiers.
///
/// # Errors
///
/// Returns `AllocError` if an allocation fails.
///
/// # Memory
///
/// Allocates the list and its texts. Does not allocate if there are no identifiers.
#[inline]
pub fn copies_of(alloc: Global, identifiers: &[Identifier]) -> Result<Vec<Identifier>, AllocError>
    ensures copies { IfOk result (λ v. values_of v.items ≡ values_of identifiers.now) }
    ensures plain { values_of identifiers.now ≡ [] → IsOk result }
{
    if identifiers.is_empty() {
        return Ok(Vec::new(alloc));
    }
    let mut copies = Vec::with_capacity(alloc, identifiers.len())?;
    'identifiers: for identifier in identifiers {
        copies.push(identifier.clone()?)?;
    }
    Ok(copies)
}

/// Returns copies of the identifiers, followed by the number 0.
///
/// # Errors
///
/// Returns `AllocError` if an allocation fails.
///
/// # Memory
///
/// Allocates the list and its texts.
pub fn copies_with_zero(
    alloc: Global,
    identifiers: &[Identifier],
) -> Result<Vec<Identifier>, AllocError>
    ensures copies { IfOk result (λ v. values_of v.items ≡ values_of identifiers.now ++ numeric 0 ∷ []) }
{
    let mut copies = copies_of(alloc, identifiers)?;
    copies.push(Identifier::Numeric(0))?;
    Ok(copies)
}

impl<'a> Identifiers<'a> {
    /// Returns a list of the identifiers, with texts of its own.
    ///
    /// # Errors
    ///
    /// Returns `AllocError` if an allocation fails.
    ///
    /// # Memory
    ///
    /// Allocates the list and its texts. Does not allocate if there are no identifiers.
    // `inline(always)`: most versions have no build, which is one test.
    #[inline(always)]
    pub fn to_vec(&self, alloc: Global) -> Result<Vec<Identifier>, AllocError>
        ensures copies { IfOk result (λ v. values_of v.items ≡ self.now) }
        ensures plain { self.now ≡ [] → IsOk result }
    {
        if self.is_empty() {
            return Ok(Vec::new(alloc));
        }
        list_of(alloc, self.text)
    }
}

// The list that `to_vec` returns. `inline(always)`: where most lists have identifiers, a call would take 40 instructions
// more.
#[inline(always)]
pub fn to_vec_inline(
    alloc: Global,
    identifiers: &Identifiers<'_>,
) -> Result<Vec<Identifier>, AllocError>
    ensures copies { IfOk result (λ v. values_of v.items ≡ identifiers.now) }
    ensures plain { identifiers.now ≡ [] → IsOk result }
{
    if identifiers.is_empty() {
        return Ok(Vec::new(alloc));
    }
    list_inline(alloc, identifiers.text)
}

// The identifiers of such a text. `inline(never)`: a version without lists needs no stack for them.
#[inline(never)]
fn list_of(alloc: Global, text: &[u8]) -> Result<Vec<Identifier>, AllocError>
    requires { IsListed text.now }
    ensures { IfOk result (λ v. values_of v.items ≡ identifiers_of text.now) }
{
    list_inline(alloc, text)
}

#[inline(always)]
fn list_inline(alloc: Global, text: &[u8]) -> Result<Vec<Identifier>, AllocError>
    requires { IsListed text.now }
    ensures { IfOk result (λ v. values_of v.items ≡ identifiers_of text.now) }
{
    let mut list = Vec::with_capacity(alloc, USUAL_IDENTIFIERS)?;
    let mut rest = text;
    'identifiers: while !rest.is_empty() {
        match split_number(rest) {
            Some((number, others)) => {
                list.push(Identifier::Numeric(number))?;
                rest = others;
            }
            None => {
                let (first, others) = split_first(rest);
                list.push(copy_of(alloc, borrowed_of(first))?)?;
                rest = others;
            }
        }
    }
    Ok(list)
}

/// Returns the same identifier, with a text of its own.
///
/// # Errors
///
/// Fails with `AllocError` if an allocation fails.
///
/// # Memory
///
/// Allocates the text. A number allocates nothing.
#[inline(always)]
pub fn copy_of(alloc: Global, identifier: IdentifierRef<'_>) -> Result<Identifier, AllocError>
    ensures { IfOk result (λ i. value_of i ≡ borrowed_value identifier.entry) }
{
    match identifier {
        IdentifierRef::Numeric(n) => Ok(Identifier::Numeric(n)),
        IdentifierRef::AlphaNumeric(text) => {
            Ok(Identifier::AlphaNumeric(String::from_str(alloc, text)?))
        }
    }
}
