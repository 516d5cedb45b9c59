//! `pick`: the version of a package that npm would install.

use crate::asked::Asked;
use crate::call_error::CallError;
use crate::member::text_or;
use crate::pick_options::PickOptions;
use crate::text::{joined, json_string, word_of};
use npm_pick::{PickError, Picked, pick};
use std::alloc::{AllocError, Global};

/// Picks a version of a packument.
pub(crate) fn picked(given: Asked<'_>) -> Result<String, CallError> {
    let mut asked = given;
    let alloc = asked.alloc;
    let packument = asked.document("packument")?;
    let wanted = asked.text_if_any("wanted")?;
    let options = PickOptions::of(&mut asked)?;
    asked.end()?;
    let found = pick(
        alloc,
        &packument.value,
        text_or(&wanted, ""),
        &options.options(),
    );
    match found {
        Ok(picked) => Ok(picked_text(alloc, picked)?),
        Err(error) => Ok(outcome_text(alloc, word_of_error(error)?)?),
    }
}

/// The object of the version that is picked.
fn picked_text(alloc: Global, picked: Picked<'_>) -> Result<String, AllocError> {
    let version = json_string(alloc, picked.key)?;
    let pieces = [
        "{\"avoided\":",
        word_of(picked.is_avoided),
        ",\"major\":",
        word_of(picked.is_major),
        ",\"outcome\":\"picked\",\"outside\":",
        word_of(picked.is_outside),
        ",\"version\":",
        version.as_str(),
        "}",
    ];
    joined(alloc, &pieces)
}

/// The object if there is no version.
fn outcome_text(alloc: Global, outcome: &str) -> Result<String, AllocError> {
    joined(alloc, &["{\"outcome\":\"", outcome, "\"}"])
}

/// Why there is no version.
fn word_of_error(error: PickError) -> Result<&'static str, CallError> {
    match error {
        PickError::Wanted => Ok("invalid_wanted"),
        PickError::NoTag => Ok("no_tag"),
        PickError::NoVersion => Ok("no_version"),
        PickError::NoVersions => Ok("no_versions"),
        PickError::NoneInRange => Ok("none_in_range"),
        PickError::Forbidden => Ok("forbidden"),
        PickError::Avoided => Ok("only_avoided"),
        PickError::Memory => Err(CallError::Memory),
    }
}
