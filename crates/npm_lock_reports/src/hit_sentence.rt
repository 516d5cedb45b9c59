//! An installed package that advisories hit, as a sentence for a person.

use crate::advisory_exceptions::Date;
use crate::excepted::Excepted;
use crate::piece::{Piece, Reading, before, push_pieces, text_or_empty};
use crate::vague::Vague;
use node_semver::Version;
use npm_advisories::{About, Found};
use serde_json::Value;
use std::alloc::{AllocError, Global};

/// Adds the sentence of a package that is hit:
/// `a 1.0.0 is hit by 7 (high): Bad, and by 9 (low); 1.0.1 is not, and satisfies all that ask for it (node_modules/a)`. Of a package
/// without a version it is `a is hit by 7 (high): Bad; each release is hit (node_modules/a)`.
pub fn push_hit_sentence(
    alloc: Global,
    line: &mut Vec<u8>,
    reading: Reading,
    found: &Found<'_, '_>,
    vague: &Vague<'_>,
) -> Result<(), AllocError> {
    let (blank, version) = after_name(found.version);
    let begin = [
        Piece::First(found.name),
        Piece::Fixed(blank),
        Piece::Text(version),
    ];
    push_pieces(line, reading, &begin)?;
    push_advisories(line, reading, &found.hits)?;
    push_offer(alloc, line, reading, found, vague)?;
    let end = [
        Piece::Fixed(" ("),
        Piece::Text(found.folder),
        Piece::Fixed(")"),
    ];
    push_pieces(line, reading, &end)
}

/// What comes after the name of a package: a blank and its version, if it has one.
fn after_name(version: Option<&str>) -> (&'static str, &str) {
    match version {
        Some(version) => (" ", version),
        None => ("", ""),
    }
}

/// Adds the advisories.
fn push_advisories(
    line: &mut Vec<u8>,
    reading: Reading,
    hits: &[About<'_>],
) -> Result<(), AllocError> {
    let mut before = " is hit by ";
    for about in hits {
        push_advisory(line, reading, before, *about)?;
        before = ", and by ";
    }
    Ok(())
}

/// Adds an advisory after these words: `1523 (high): Prototype Pollution in lodash`.
fn push_advisory(
    line: &mut Vec<u8>,
    reading: Reading,
    before: &'static str,
    about: About<'_>,
) -> Result<(), AllocError> {
    let (joint, title) = match about.title {
        Some(title) => ("): ", title),
        None => (")", ""),
    };
    let pieces = [
        Piece::Fixed(before),
        id_piece(about.id),
        Piece::Fixed(" ("),
        Piece::Fixed(about.severity.as_str()),
        Piece::Fixed(joint),
        Piece::Text(title),
    ];
    push_pieces(line, reading, &pieces)
}

/// Which advisory it is: its `id`, if that is a text or a number without sign and fraction.
fn id_piece(id: &Value) -> Piece<'_> {
    if let Some(text) = id.as_str() {
        return Piece::Text(text);
    }
    match id.as_u64() {
        Some(number) => Piece::Number(number),
        None => Piece::Fixed("an advisory"),
    }
}

/// Adds the version that is offered, or that there is none.
fn push_offer(
    alloc: Global,
    line: &mut Vec<u8>,
    reading: Reading,
    found: &Found<'_, '_>,
    vague: &Vague<'_>,
) -> Result<(), AllocError> {
    let (version, said) = match (found.least.as_ref(), found.admitted.as_ref()) {
        (_, Some(version)) => (version, " is not, and satisfies all that ask for it"),
        (Some(version), None) => (version, unadmitted(found.folder, vague)),
        (None, None) => {
            return push_pieces(line, reading, &[Piece::Fixed(none_offered(found.version))]);
        }
    };
    offer(alloc, line, reading, version, said)
}

/// Adds a version, and what is said of it.
fn offer(
    alloc: Global,
    line: &mut Vec<u8>,
    reading: Reading,
    version: &Version,
    said: &'static str,
) -> Result<(), AllocError> {
    let text = version.to_string(alloc)?;
    let pieces = [
        Piece::Fixed("; "),
        Piece::Text(text.as_str()),
        Piece::Fixed(said),
    ];
    push_pieces(line, reading, &pieces)
}

/// What is said where no version is offered for a package of this version.
fn none_offered(version: Option<&str>) -> &'static str {
    match version {
        Some(_) => "; each later release is hit too",
        None => "; each release is hit",
    }
}

/// What is said of a version that not every range of those that ask for the package in a folder admits. What is no range may admit it.
fn unadmitted(folder: &str, vague: &Vague<'_>) -> &'static str {
    if vague.has(folder) {
        " is not, but may not satisfy all that ask for it"
    } else {
        " is not, but does not satisfy all that ask for it"
    }
}

/// Adds the sentence of a package that is hit by an advisory which is excepted for it, also after other words:
/// `a 1.0.0 is hit by 7, until 2027-03-01: only used to build (node_modules/a)`.
pub fn push_excepted_sentence(
    alloc: Global,
    line: &mut Vec<u8>,
    reading: Reading,
    excepted: &Excepted,
) -> Result<(), AllocError> {
    let name = excepted.name.as_str();
    let begin = [
        if line.is_empty() {
            Piece::First(name)
        } else {
            Piece::Text(name)
        },
        Piece::Fixed(before(excepted.version.as_ref(), " ")),
        Piece::Text(text_or_empty(excepted.version.as_ref())),
        Piece::Fixed(" is hit by "),
        Piece::Text(excepted.id.as_str()),
    ];
    push_pieces(line, reading, &begin)?;
    push_until(alloc, line, reading, excepted.until)?;
    let end = [
        Piece::Fixed(": "),
        Piece::Text(excepted.reason.as_str()),
        Piece::Fixed(" ("),
        Piece::Text(excepted.folder.as_str()),
        Piece::Fixed(")"),
    ];
    push_pieces(line, reading, &end)
}

/// Adds the last day of an exception, if it has one.
fn push_until(
    alloc: Global,
    line: &mut Vec<u8>,
    reading: Reading,
    until: Option<Date>,
) -> Result<(), AllocError> {
    let Some(last) = until else {
        return Ok(());
    };
    let text = format!(in alloc; ", until {last}")?;
    push_pieces(line, reading, &[Piece::Text(text.as_str())])
}
