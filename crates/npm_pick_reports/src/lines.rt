//! The lines of replies, and those of notes.
use crate::format::Format;
use crate::mirror::KeptPackage;
use crate::mirror::texts::kept_texts;
use crate::outdated::{Outcome, Row};
use command_lines::push_shown;
use npm_pick::Picked;
use serde_json::Value;
use std::alloc::{AllocError, Global};

/// Adds the line of the version that is picked: its text, or `{"avoided":false,"version":"1.3.0"}`.
pub fn push_picked(
    alloc: Global,
    lines: &mut Vec<u8>,
    picked: Picked<'_>,
    format: Format,
) -> Result<(), AllocError> {
    match format {
        Format::Text => push_shown(lines, picked.key)?,
        Format::Json => {
            let front = if picked.is_avoided {
                "{\"avoided\":true,\"version\":"
            } else {
                "{\"avoided\":false,\"version\":"
            };
            push_member(alloc, lines, front, Some(picked.key))?;
            lines.extend_from_slice(b"}")?;
        }
    }
    lines.extend_from_slice(b"\n")
}

/// Adds a line for each dependency that is outdated.
pub fn push_outcomes(
    alloc: Global,
    lines: &mut Vec<u8>,
    outcomes: &[Outcome<'_>],
    format: Format,
) -> Result<(), AllocError> {
    for outcome in outcomes {
        if let Outcome::Outdated(row) = outcome {
            push_row(alloc, lines, row, format)?;
        }
    }
    Ok(())
}

/// Adds the line of a dependency that is outdated.
fn push_row(
    alloc: Global,
    lines: &mut Vec<u8>,
    row: &Row<'_>,
    format: Format,
) -> Result<(), AllocError> {
    match format {
        Format::Text => push_words(lines, row),
        Format::Json => push_object(alloc, lines, row),
    }
}

/// Adds the name, and the versions that are installed, wanted and the latest: `a 1.0.0 1.2.0 2.0.0`.
fn push_words(lines: &mut Vec<u8>, row: &Row<'_>) -> Result<(), AllocError> {
    let installed = row.edge.version.unwrap_or("MISSING");
    let words = [
        (row.edge.name, " "),
        (installed, " "),
        (row.wanted.as_str(), " "),
        (row.latest.as_str(), "\n"),
    ];
    for (word, end) in &words {
        push_shown(lines, word)?;
        lines.extend_from_slice(end.as_bytes())?;
    }
    Ok(())
}

/// Adds a JSON object, whose members are in the order of their names.
fn push_object(alloc: Global, lines: &mut Vec<u8>, row: &Row<'_>) -> Result<(), AllocError> {
    let members = [
        ("{\"current\":", row.edge.version),
        (",\"folder\":", row.edge.to),
        (",\"from\":", Some(row.edge.from)),
        (",\"latest\":", Some(row.latest.as_str())),
        (",\"name\":", Some(row.edge.name)),
        (",\"wanted\":", Some(row.wanted.as_str())),
    ];
    for (front, text) in &members {
        push_member(alloc, lines, front, *text)?;
    }
    lines.extend_from_slice(b"}\n")
}

/// Adds the beginning of a member, and its text as a JSON string, or `null`.
fn push_member(
    alloc: Global,
    lines: &mut Vec<u8>,
    front: &str,
    text: Option<&str>,
) -> Result<(), AllocError> {
    lines.extend_from_slice(front.as_bytes())?;
    match text {
        Some(text) => {
            let string = Value::try_from_str(alloc, text)?.to_string(alloc)?;
            lines.extend_from_slice(string.as_bytes())
        }
        None => lines.extend_from_slice(b"null"),
    }
}

/// Adds the versions that a mirror keeps: a line each, or a JSON list.
pub fn push_kept(
    alloc: Global,
    lines: &mut Vec<u8>,
    packages: &[KeptPackage],
    format: Format,
) -> Result<(), AllocError> {
    let kept = kept_texts(alloc, packages)?;
    match format {
        Format::Text => push_lines(lines, "", &kept),
        Format::Json => push_list(alloc, lines, &kept),
    }
}

/// Adds a JSON list of texts.
fn push_list(alloc: Global, lines: &mut Vec<u8>, texts: &[String]) -> Result<(), AllocError> {
    let mut front = "[";
    for text in texts {
        push_member(alloc, lines, front, Some(text.as_str()))?;
        front = ",";
    }
    lines.extend_from_slice(if texts.is_empty() { b"[]\n" } else { b"]\n" })
}

/// Adds a line for each text, with these words in front.
pub fn push_lines(lines: &mut Vec<u8>, front: &str, texts: &[String]) -> Result<(), AllocError> {
    for text in texts {
        lines.extend_from_slice(front.as_bytes())?;
        push_shown(lines, text.as_str())?;
        lines.extend_from_slice(b"\n")?;
    }
    Ok(())
}
