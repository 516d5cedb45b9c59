//! Equality and copies of errors, as laws. The functions here do nothing: their contracts are the laws.
ghost use Rattle.std.specs.Prelude.{◌≡◌, ◌↔◌, IsTrue};
ghost use Rattle.semver_versions.specs.ErrorEquality.{error_value, kind_value};
ghost use Rattle.semver_versions.specs.declared.error.SemverError.{SemverError};
ghost use Rattle.semver_versions.specs.declared.error.kind.SemverErrorKind.{SemverErrorKind};
ghost use Rattle.semver_versions.specs.declared.error.span.SourceSpan.{SourceSpan};

use crate::{SemverError, SemverErrorKind, SourceSpan};

/// Two places are equal if their offsets and lengths are equal. Two kinds are equal if they are the same variant with
/// the same number, word or std error. Two errors are equal if their texts, places and kinds are equal.
///
/// This function does nothing: its contract is the law.
pub fn errors_are_equal_where_their_parts_are()
    ensures place { (s t : SourceSpan) → IsTrue (⟦<SourceSpan as PartialEq>⟧.eq s t) ↔ (s ≡ t) }
    ensures kind { (k l : SemverErrorKind) →
        IsTrue (⟦<SemverErrorKind as PartialEq>⟧.eq k l) ↔ (kind_value k ≡ kind_value l) }
    ensures error { (e f : SemverError) →
        IsTrue (⟦<SemverError as PartialEq>⟧.eq e f) ↔ (error_value e ≡ error_value f) }
{}

/// `clone` of a kind never fails, and returns an equal kind.
///
/// This function does nothing: its contract is the law.
pub fn a_kind_is_always_copied()
    ensures copied { (k : SemverErrorKind) → ⟦<SemverErrorKind as Clone>⟧.is_infallible k }
    ensures same { (k l : SemverErrorKind) → ⟦<SemverErrorKind as Clone>⟧.is_clone k l → kind_value k ≡ kind_value l }
{}
