//! Identifiers that borrow the text that they were read from.
ghost use Rattle.std.specs.Prelude.{◌≡◌, ◌↔◌, ◌∷◌, [], List, IsTrue, length};
ghost use Rattle.std.specs.Cmp.Lexicographic.{slice_cmp};
ghost use Rattle.semver_texts.specs.Characters as Characters;
ghost use Rattle.semver_texts.specs.Characters.{AreAll};
ghost use Rattle.semver_texts.specs.Comparison.{identifier_cmp, prerelease_cmp};
ghost use Rattle.semver_texts.specs.Identifier.{value_of, values_of};
ghost use Rattle.semver_texts.specs.IdentifierRef.{borrowed_value};
ghost use Rattle.semver_texts.specs.IdentifierText as IdentifierText;
ghost use Rattle.semver_texts.specs.IdentifierText.{IsListed, identifiers_of};
ghost use Rattle.semver_texts.specs.Reading as Reading;

mod length;
mod order;

use crate::Identifier;
use crate::identifier::common_start::{are_decided, common_length, first_byte, last_start};
use crate::parse::identifiers::numeric;
use crate::parse::listed::{split_extras, split_first};
use std::cmp::Ordering;
use std::marker::Model;
use std::str;

/// An identifier of a prerelease or a build: a number, or a borrowed text.
///
/// # Source
///
/// SemVer 2.0.0, sections 9 and 10.
#[derive(Clone, Copy, Debug)]
pub enum IdentifierRef<'a> {
    /// a number
    Numeric(u64),
    /// a text
    AlphaNumeric(&'a str),
}

/// The identifiers of a prerelease or a build, as their text writes them, from the first to the last: those of
/// `alpha.1` are the text `alpha` and the number 1.
///
/// A contract sees the identifiers that `next` has not returned yet, as values.
///
/// # Memory
///
/// Does not allocate. A number is read from its digits each time.
// Not `Copy`: the toolchain refuses it beside a `Model` with a lifetime.
#[derive(Drop)]
pub struct Identifiers<'a> {
    pub(crate) text: &'a [u8],
}

impl<'a> Model for Identifiers<'a> {
    ghost use Rattle.std.specs.Prelude.{List};
    ghost use Rattle.semver_texts.specs.IdentifierValue.{IdentifierValue};
    ghost use Rattle.semver_texts.specs.IdentifierText.{IsListed, identifiers_of};

    ghost Value = { List IdentifierValue };

    ghost view = { λ i. identifiers_of i.text.now };

    ghost invariant = { λ i. IsListed i.text.now };
}

impl<'a> Identifiers<'a> {
    /// Returns a list without identifiers.
    // `inline(always)` here and below: a pointer and a length.
    #[inline(always)]
    pub fn none() -> Identifiers<'a>
        ensures { result ≡ [] }
    {
        Identifiers { text: &[] }
    }

    /// Returns a second list of the same identifiers.
    #[inline(always)]
    pub fn copy(&self) -> Identifiers<'a>
        ensures { result ≡ self.now }
    {
        Identifiers { text: self.text }
    }

    /// Returns `true` if there are no identifiers.
    #[inline(always)]
    pub fn is_empty(&self) -> bool
        ensures { IsTrue result ↔ (self.now ≡ []) }
    {
        self.text.is_empty()
    }
}

/// Returns an optional prerelease, an optional build, and the rest: `alpha`, `5` and ` <2` for `-alpha+5 <2`.
///
/// # Memory
///
/// Does not allocate.
// `inline(always)`: the lists stay in registers.
#[inline(always)]
pub fn borrow_extras(text: &[u8]) -> (Identifiers<'_>, Identifiers<'_>, &[u8])
    ensures prerelease { result.0 ≡ (Reading.read_extras text.now).0.0 }
    ensures build { result.1 ≡ (Reading.read_extras text.now).0.1 }
    ensures rest { result.2.now ≡ (Reading.read_extras text.now).1 }
{
    let (pre_release, build, rest) = split_extras(text);
    (
        Identifiers { text: pre_release },
        Identifiers { text: build },
        rest,
    )
}

impl<'a> Iterator for Identifiers<'a> {
    ghost use Rattle.std.specs.Iterator.{YieldsFirstBy, item_count};
    ghost use Rattle.semver_texts.specs.IdentifierRef.{borrowed_value};

    type Item = IdentifierRef<'a>;

    ghost next_gives = { YieldsFirstBy borrowed_value (λ rest. rest) };

    ghost remaining = { item_count (λ rest. rest) };

    fn next(&mut self) -> Option<IdentifierRef<'a>> {
        let text = self.text;
        if text.is_empty() {
            return None;
        }
        let (part, rest) = split_first(text);
        self.text = rest;
        Some(borrowed_of(part))
    }
}

/// Returns the identifiers that a text writes.
// `inline(always)` here and below: a pointer and a length.
#[inline(always)]
pub fn listed(text: &[u8]) -> Identifiers<'_>
    requires { IsListed text.now }
    ensures { result ≡ IdentifierText.identifiers_of text.now }
{
    Identifiers { text }
}

/// Returns the text that writes the identifiers, with dots between them.
#[inline(always)]
pub fn text_of<'a>(identifiers: &Identifiers<'a>) -> &'a [u8]
    ensures listed { IsListed result.now }
    ensures same { IdentifierText.identifiers_of result.now ≡ identifiers.now }
{
    identifiers.text
}

// The identifier that a text of identifier characters writes.
#[inline]
pub fn borrowed_of(text: &[u8]) -> IdentifierRef<'_>
    requires { AreAll Characters.is_identifier_character text.now }
    ensures { borrowed_value result ≡ IdentifierText.identifier_of text.now }
{
    match numeric(text) {
        Some(number) => IdentifierRef::Numeric(number),
        // Safe: identifier characters are ASCII.
        None => IdentifierRef::AlphaNumeric(unsafe { str::from_utf8_unchecked(text) }),
    }
}

// The identifier, by reference. `inline(always)`: it stays in registers.
#[inline(always)]
pub(crate) fn by_reference(identifier: &Identifier) -> IdentifierRef<'_>
    ensures { borrowed_value result ≡ value_of identifier.now }
{
    match identifier {
        Identifier::Numeric(number) => IdentifierRef::Numeric(*number),
        Identifier::AlphaNumeric(text) => IdentifierRef::AlphaNumeric(text.as_str()),
    }
}

// The order of two identifiers: a number is less than a text. `inline(always)`: both stay in registers.
#[inline(always)]
pub(crate) fn cmp_identifiers(a: IdentifierRef<'_>, b: IdentifierRef<'_>) -> Ordering
    ensures { result ≡ identifier_cmp (borrowed_value a.entry) (borrowed_value b.entry) }
{
    match (a, b) {
        (IdentifierRef::Numeric(a), IdentifierRef::Numeric(b)) => a.cmp(&b),
        (IdentifierRef::Numeric(_), IdentifierRef::AlphaNumeric(_)) => Ordering::Less,
        (IdentifierRef::AlphaNumeric(_), IdentifierRef::Numeric(_)) => Ordering::Greater,
        (IdentifierRef::AlphaNumeric(a), IdentifierRef::AlphaNumeric(b)) => a.cmp(b),
    }
}

// The order of two texts of identifiers. What follows their common start mostly decides.
fn cmp_texts(a: &[u8], b: &[u8]) -> Ordering
    requires first { IsListed a.now }
    requires second { IsListed b.now }
    ensures { result ≡ slice_cmp identifier_cmp (identifiers_of a.now) (identifiers_of b.now) }
{
    let alike = common_length(a, b);
    let one = &a[alike..];
    let other = &b[alike..];
    if are_decided(one, other) {
        return first_byte(one).cmp(&first_byte(other));
    }
    // Identifiers before the last common dot are equal.
    let start = last_start(&a[..alike]);
    cmp_one_by_one(&a[start..], &b[start..])
}

// The order of two texts of identifiers, identifier by identifier. `inline(never)`: few texts need it.
#[inline(never)]
fn cmp_one_by_one(a: &[u8], b: &[u8]) -> Ordering
    requires first { IsListed a.now }
    requires second { IsListed b.now }
    ensures { result ≡ slice_cmp identifier_cmp (identifiers_of a.now) (identifiers_of b.now) }
{
    let mut one = a;
    let mut other = b;
    'identifiers: loop {
        match (one.is_empty(), other.is_empty()) {
            (true, true) => return Ordering::Equal,
            (true, false) => return Ordering::Less,
            (false, true) => return Ordering::Greater,
            (false, false) => {}
        }
        let (first, after_first) = split_first(one);
        let (second, after_second) = split_first(other);
        match cmp_identifiers(borrowed_of(first), borrowed_of(second)) {
            Ordering::Equal => {}
            order => return order,
        }
        one = after_first;
        other = after_second;
    }
}

// The order of a list of identifiers and a text of identifiers.
fn cmp_list_with_text(list: &[Identifier], text: &[u8]) -> Ordering
    requires { IsListed text.now }
    ensures { result ≡ slice_cmp identifier_cmp (values_of list.now) (identifiers_of text.now) }
{
    let mut one = list;
    let mut other = text;
    'identifiers: loop {
        let Some((first, after_first)) = one.split_first() else {
            return if other.is_empty() {
                Ordering::Equal
            } else {
                Ordering::Less
            };
        };
        if other.is_empty() {
            return Ordering::Greater;
        }
        let (second, after_second) = split_first(other);
        match cmp_identifiers(by_reference(first), borrowed_of(second)) {
            Ordering::Equal => {}
            order => return order,
        }
        one = after_first;
        other = after_second;
    }
}

// The order of two lists of identifiers. An empty list is less than every other.
#[inline]
pub fn cmp_lists_borrowed(a: &Identifiers<'_>, b: &Identifiers<'_>) -> Ordering
    ensures { result ≡ slice_cmp identifier_cmp a.now b.now }
{
    cmp_texts(a.text, b.text)
}

/// Returns the order of two prereleases of one triple. An empty list means the release, which is greater than each of
/// its prereleases.
///
/// # Memory
///
/// Does not allocate.
///
/// # Source
///
/// SemVer 2.0.0, section 11.
#[inline]
pub fn cmp_borrowed(a: &Identifiers<'_>, b: &Identifiers<'_>) -> Ordering
    ensures { result ≡ prerelease_cmp a.now b.now }
{
    match (a.is_empty(), b.is_empty()) {
        (true, true) => Ordering::Equal,
        (true, false) => Ordering::Greater,
        (false, true) => Ordering::Less,
        (false, false) => cmp_texts(a.text, b.text),
    }
}

/// Returns the order of a prerelease in memory and one that borrows its text, as `cmp_borrowed` does.
#[inline]
pub fn cmp_with_borrowed(a: &[Identifier], b: &Identifiers<'_>) -> Ordering
    ensures { result ≡ prerelease_cmp (values_of a.now) b.now }
{
    match (a.is_empty(), b.is_empty()) {
        (true, true) => Ordering::Equal,
        (true, false) => Ordering::Greater,
        (false, true) => Ordering::Less,
        (false, false) => cmp_list_with_text(a, b.text),
    }
}
