//! The fault of a version text, without a copy of the text.
ghost use Rattle.std.specs.Prelude.{◌≡◌, ◌⊎◌};
ghost use Rattle.semver_texts.specs.Characters as Characters;
ghost use Rattle.semver_texts.specs.Characters.{BeginsWith};
ghost use Rattle.semver_versions.specs.Error.{IsOutOfMemory, IsRefusalAt, kind_of, other};
ghost use Rattle.semver_versions.specs.ErrorLocation.{column_at, lines_before};
ghost use Rattle.semver_versions.specs.Fault as Told;
ghost use Rattle.semver_texts.specs.NumberText.{number_of};
ghost use Rattle.semver_versions.specs.Private.FaultViews.{IsReadFault, kind_in};
ghost use Rattle.semver_texts.specs.Reading as Reading;
ghost use Rattle.semver_versions.specs.VersionFault.{IsVersionFault, fault_kind_of};
ghost use Rattle.semver_texts.specs.declared.parse.fault.Fault.TheVariants.{TooLarge};

use semver_texts::parse::Fault;
use semver_texts::parse::number::leading_digits;

mod display;

use crate::error::location_in;
use crate::{SemverError, SemverErrorKind};
use std::alloc::Global;
use std::str;

/// Why `VersionRef::parse` failed, and where. It has no copy of the text.
///
/// # Memory
///
/// Does not allocate. `into_error` copies the text.
///
/// # Examples
///
/// That of `1.2` has the kind `Context("version")` and the offset 3, and prints `Failed to parse version.`
#[derive(Clone, Copy, Debug, PartialEq, Eq)]
pub struct VersionFault {
    pub(crate) kind: FaultKind,
    pub(crate) offset: usize,
}

// The kinds of such a fault.
#[derive(Clone, Copy, Debug, PartialEq, Eq)]
pub(crate) enum FaultKind {
    // more than 256 bytes
    TooLong,
    // a number or a dot is missing
    Missing,
    // this number is greater than `MAX_SAFE_INTEGER`
    TooLarge(u64),
    // a number is greater than the greatest `u64`
    Overflow,
    // bytes are left
    LeftOver,
}

impl VersionFault {
    // The fault of this text, with its place. `inline(always)`: it stays in registers until an error is built from it.
    #[inline(always)]
    pub(crate) fn of(text: &[u8], fault: Fault) -> VersionFault
        requires { IsReadFault text.now fault }
        ensures { IsVersionFault text.now result }
    {
        let (kind, left) = match fault {
            Fault::TooLong(left) => (FaultKind::TooLong, left),
            Fault::Missing(left) => (FaultKind::Missing, left),
            Fault::TooLarge(left) => (large_at(text, left), left),
            Fault::LeftOver(left) => (FaultKind::LeftOver, left),
        };
        VersionFault {
            kind,
            offset: text.len() - left,
        }
    }

    /// Returns the fault of a text that cannot be read from this byte offset on. Its kind is `Other`.
    ///
    /// Readers that are stricter than `VersionRef::parse` tell their own faults so.
    // `inline(always)`: as `of`.
    #[inline(always)]
    pub fn left_over(offset: usize) -> VersionFault
        ensures kind { fault_kind_of result.kind ≡ other }
        ensures offset { result.offset ≡ offset }
    {
        VersionFault {
            kind: FaultKind::LeftOver,
            offset,
        }
    }

    /// Returns the kind of the fault, as the error of `Version::parse` has it.
    // `inline(always)`: as `of`.
    #[inline(always)]
    pub fn kind(self) -> SemverErrorKind
        ensures { kind_of result ≡ fault_kind_of self.kind }
    {
        match self.kind {
            FaultKind::TooLong => SemverErrorKind::MaxLengthError,
            FaultKind::Missing => SemverErrorKind::Context("version"),
            FaultKind::TooLarge(number) => SemverErrorKind::MaxIntError(number),
            // The least number that is too large gives std's error.
            FaultKind::Overflow => large_kind(b"18446744073709551616"),
            FaultKind::LeftOver => SemverErrorKind::Other,
        }
    }

    /// Returns the byte offset of the fault, counted from 0.
    pub fn offset(self) -> usize
        ensures { result ≡ self.offset }
    {
        self.offset
    }

    /// Returns the line and the column of the fault in `text`, the text that was parsed, as
    /// [`SemverError::location`] has them. Both count from 0, and the column counts bytes.
    pub fn location(self, text: &str) -> (usize, usize)
        ensures line { result.0 ≡ lines_before text.now self.offset }
        ensures column { result.1 ≡ column_at text.now self.offset }
    {
        location_in(text.as_bytes(), self.offset)
    }

    /// Returns the error with a copy of `text`, the text that was parsed: the error that `Version::parse` returns.
    ///
    /// If the allocation of the copy fails, the error has the kind `OutOfMemory`.
    // `inline(always)`: as `of`.
    #[inline(always)]
    pub fn into_error(self, alloc: Global, text: &str) -> SemverError
        ensures { IsOutOfMemory result ⊎ IsRefusalAt text.now (fault_kind_of self.kind) self.offset result }
    {
        SemverError::new(alloc, text, self.offset, self.kind())
    }
}

// The kind of fault for a number that is too large, given how many bytes are left from it on. `cold`, `inline(never)`:
// few texts have one.
#[cold]
#[inline(never)]
fn large_at(text: &[u8], left: usize) -> FaultKind
    requires { IsReadFault text.now (TooLarge left) }
    ensures { fault_kind_of result ≡ kind_in text.now (TooLarge left) }
{
    match large_kind(&text[text.len() - left..]) {
        SemverErrorKind::MaxIntError(number) => FaultKind::TooLarge(number),
        _ => FaultKind::Overflow,
    }
}

// The kind of error for a number that is too large: `9007199254740992`, `18446744073709551616`
fn large_kind(text: &[u8]) -> SemverErrorKind
    requires { BeginsWith Characters.is_digit text.now }
    ensures { kind_of result ≡ Told.too_large (number_of (Reading.prefix_of Characters.is_digit text.now)) }
{
    let digits = leading_digits(text);
    // Safe: digits are ASCII.
    let digits = unsafe { str::from_utf8_unchecked(digits) };
    match digits.parse::<u64>() {
        Ok(value) => SemverErrorKind::MaxIntError(value),
        Err(error) => SemverErrorKind::ParseIntError(error),
    }
}
