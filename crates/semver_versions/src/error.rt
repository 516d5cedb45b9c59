//! The errors of this crate: why parsing a text failed, and where.
//!
//! Clauses see a version as a record and an error by a view: they compare values, not places in memory.
ghost use Rattle.std.specs.Prelude.{◌≡◌, ◌↔◌, ◌⊎◌, IsTrue};
ghost use Rattle.semver_versions.specs.Error.{kind_of, out_of_memory, refusal_of, IsOutOfMemory, IsRefusalAt};
ghost use Rattle.semver_versions.specs.ErrorEquality.{error_value};
ghost use Rattle.semver_versions.specs.ErrorLocation.{lines_before, column_at};
ghost use Rattle.semver_versions.specs.ErrorParts.{error_kind_of, span_len, span_offset};

mod display;
mod equality;
mod kind;
mod lines;
mod span;

pub use equality::{a_kind_is_always_copied, errors_are_equal_where_their_parts_are};
pub use kind::SemverErrorKind;
pub(crate) use lines::location_in;
pub use span::SourceSpan;
use std::alloc::{AllocError, Global};
use thiserror::Error;

/// A failure to parse a text: the text, and the kind and place of its fault.
///
/// Two errors are equal exactly if their texts, places and kinds are equal. An error prints as its kind does.
///
/// # Memory
///
/// An error holds a copy of the text. If the allocation of that copy fails, the parser returns an error of kind
/// `OutOfMemory`, with an empty text and offset 0, instead. `clone` copies the text again, and fails only if that
/// allocation fails.
///
/// # Examples
///
/// - The version `1.2` fails to parse with `Context("version")` at 3, its end: the third number is missing.
/// - The version `1.2.3 `, with a blank at the end, fails to parse with `Other` at 5.
#[derive(Debug, PartialEq, Eq, Error)]
pub struct SemverError {
    input: String,
    span: SourceSpan,
    kind: SemverErrorKind,
}

// `Drop` is written by hand so that dropping an error is one call in a caller's proof; the derived one adds a step for
// each field. `inline(always)`: the code is then as fast as the derived one.
impl Drop for SemverError {
    #[inline(always)]
    fn drop(self) {
        let SemverError {
            input: _,
            span: _,
            kind: _,
        } = self;
    }
}

impl SemverError {
    // The error for `input` at `offset`, with a place of length 0. `inline(always)`: the error is built where the
    // caller returns it.
    #[inline(always)]
    pub fn new(alloc: Global, input: &str, offset: usize, kind: SemverErrorKind) -> SemverError
        ensures { IsOutOfMemory result ⊎ IsRefusalAt input.now (kind_of kind) offset result }
    {
        match String::from_str(alloc, input) {
            Ok(input) => SemverError {
                input,
                span: SourceSpan { offset, length: 0 },
                kind,
            },
            Err(_) => SemverError::out_of_memory(alloc),
        }
    }

    // The error for a failed allocation. Does not allocate.
    #[cold]
    pub fn out_of_memory(alloc: Global) -> SemverError
        ensures { IsOutOfMemory result }
    {
        SemverError {
            input: String::new(alloc),
            span: SourceSpan {
                offset: 0,
                length: 0,
            },
            kind: SemverErrorKind::OutOfMemory,
        }
    }

    /// Returns the text that was parsed, or an empty text if the kind is `OutOfMemory`.
    ///
    /// # Examples
    ///
    /// `v` for the error of the version `v`.
    pub fn input(&self) -> &str
        ensures { result.now ≡ (refusal_of self.now).input }
    {
        &self.input
    }

    /// Returns the place of the fault: its offset, and length 0.
    ///
    /// # Examples
    ///
    /// Offset 1 and length 0 for the error of the version `v`.
    pub fn span(&self) -> &SourceSpan
        ensures offset { span_offset result.now ≡ (refusal_of self.now).offset }
        ensures length { span_len result.now ≡ (refusal_of self.now).length }
    {
        &self.span
    }

    /// Returns the byte offset of the fault, counted from 0.
    ///
    /// # Examples
    ///
    /// 0 for the error of the version `9007199254740992.a`, and 1, its end, for that of the version `v`.
    pub fn offset(&self) -> usize
        ensures { result ≡ (refusal_of self.now).offset }
    {
        self.span.offset
    }

    /// Returns the kind of the fault.
    ///
    /// # Examples
    ///
    /// `Context("version")` for the error of the version `v`.
    pub fn kind(&self) -> &SemverErrorKind
        ensures whole { result.now ≡ error_kind_of self.now }
        ensures kind { kind_of result.now ≡ (refusal_of self.now).kind }
    {
        &self.kind
    }

    /// Returns `true` if no fault was found in the text, and an allocation failed.
    ///
    /// # Examples
    ///
    /// `false` for the error of the version `v`.
    pub fn is_out_of_memory(&self) -> bool
        ensures { IsTrue result ↔ ((refusal_of self.now).kind ≡ out_of_memory) }
    {
        matches!(self.kind, SemverErrorKind::OutOfMemory)
    }

    /// Returns the line and the column of the fault, both counted from 0.
    ///
    /// The line is the number of newlines before the fault. The column is the number of bytes between the last newline
    /// before the fault (or the start of the text) and the fault. It counts bytes and not characters, so it is defined
    /// even if the offset is inside a character.
    ///
    /// # Examples
    ///
    /// - The error of `1.2.3`, a newline and `4` is at 5: line 0, column 5.
    /// - The error of `a`, a newline and 298 times `b` is at 299: line 1, column 297.
    /// - The error of `a` and 128 times `\u{161}`, which has two bytes, is at 256: line 0, column 256.
    pub fn location(&self) -> (usize, usize)
        ensures line { let e = refusal_of self.now in result.0 ≡ lines_before e.input e.offset }
        ensures column { let e = refusal_of self.now in result.1 ≡ column_at e.input e.offset }
    {
        location_in(self.input.as_bytes(), self.offset())
    }
}

impl Clone for SemverError {
    ghost is_clone = { λ e c. error_value e ≡ error_value c };

    fn clone(&self) -> Result<SemverError, AllocError> {
        let kind = self.kind.clone()?;
        let input = self.input.clone()?;
        Ok(SemverError {
            input,
            span: self.span,
            kind,
        })
    }
}
