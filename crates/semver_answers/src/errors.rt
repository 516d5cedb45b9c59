//! Calls on identifiers, errors and kinds of errors.
use crate::borrowed::prints_alike;
use crate::word::{text_at, word_at};
use crate::written::{alike, are_alike, put, put_made, put_one_way, put_refusal, put_truth};
use crate::{Call, orders};
use named_calls::{CallError, Written};
use node_semver::{SemverError, SemverErrorKind};

pub(crate) fn answer(call: &Call<'_>, out: &mut String) -> Written {
    let alloc = call.alloc;
    match (call.name, call.words) {
        ("Identifier::fmt", [word]) => put_one_way(alloc, out, &word.identifier),
        ("Identifier::clone", [word]) => put_made(out, word.identifier.clone()),
        ("Identifier::cmp", [one, other]) => {
            orders::of_identifiers(out, &one.identifier, &other.identifier)
        }
        ("SemverErrorKind::fmt", [word]) => put_one_way(alloc, out, &kind_of(&word.text)?),
        ("SemverErrorKind::eq", [one, other]) => {
            let (kind, other) = (kind_of(&one.text)?, kind_of(&other.text)?);
            are_alike(kind.clone()? == kind)?;
            put_truth(out, kind == other, &[other == kind])
        }
        _ => of_errors(call, out),
    }
}

/// A kind, by its name and its value: of digits that make no `u64`, the error of `parse`.
fn kind_of(name: &str) -> Result<SemverErrorKind, CallError> {
    let (word, value) = name.split_once(' ').unwrap_or((name, ""));
    Ok(match (word, value.parse::<u64>()) {
        ("Context", _) if value == "version" => SemverErrorKind::Context("version"),
        ("Context", _) => SemverErrorKind::Context("range"),
        ("MaxLengthError", _) => SemverErrorKind::MaxLengthError,
        ("IncompleteInput", _) => SemverErrorKind::IncompleteInput,
        ("NoValidRanges", _) => SemverErrorKind::NoValidRanges,
        ("Other", _) => SemverErrorKind::Other,
        ("OutOfMemory", _) => SemverErrorKind::OutOfMemory,
        ("MaxIntError", Ok(number)) => SemverErrorKind::MaxIntError(number),
        ("ParseIntError", Err(error)) => SemverErrorKind::ParseIntError(error),
        _ => return Err(CallError::Words),
    })
}

fn of_errors(call: &Call<'_>, out: &mut String) -> Written {
    match (call.name, error_at(call, 0)?) {
        ("SemverError::fmt", error) => {
            are_alike(prints_alike(call.alloc, error.kind(), error))?;
            put_one_way(call.alloc, out, error)
        }
        ("SemverError::clone", error) => {
            let copy = error.clone()?;
            are_alike(equals(&copy, error)?)?;
            put_refusal(out, error.input(), &copy)
        }
        ("SemverError::eq", error) => put(out, &equals(error, error_at(call, 2)?)?),
        _ => Err(CallError::Words),
    }
}

/// The error of a text that is refused: the words are `version` or `range`, and the text.
fn error_at<'c>(call: &'c Call<'c>, place: usize) -> Result<&'c SemverError, CallError> {
    let word = word_at(call, place.saturating_add(1))?;
    let error = match text_at(call, place) {
        "version" => word.version.as_ref().err(),
        "range" => word.range.as_ref().err(),
        _ => None,
    };
    error.ok_or(CallError::Words)
}

/// Whether two errors are equal, as both ways say. Their spans are equal exactly if their offsets are.
fn equals(error: &SemverError, other: &SemverError) -> Result<bool, CallError> {
    let is_same_place = error.offset() == other.offset();
    are_alike((error.span() == other.span()) == is_same_place)?;
    alike(error == other, &[other == error])
}
