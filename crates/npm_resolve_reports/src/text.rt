//! Lines for a person.
use crate::Result;
use crate::pieces::{Piece, push_pieces};
use crate::sentence::Sentence;
use crate::steps::steps_of;
use npm_resolve::{Chosen, Conflict, Culprit, Document, Reason, Resolution};
use npm_texts::filled;
use std::alloc::Global;

/// Returns the lines of a resolution: a line for each version that is selected, or what cannot be installed together.
pub(crate) fn text_lines(
    alloc: Global,
    documents: &[Document],
    resolution: &Resolution<'_>,
) -> Result<Vec<u8>> {
    match resolution {
        Resolution::Selected(chosen) => chosen_lines(alloc, chosen),
        Resolution::NoSelection(Some(conflict)) => conflict_lines(alloc, documents, conflict),
        Resolution::NoSelection(None) => unblamed_line(alloc),
        Resolution::Undecided => Ok(Vec::new(alloc)),
    }
}

/// A line for each version, in the order of the bytes.
fn chosen_lines(alloc: Global, chosen: &[Chosen<'_>]) -> Result<Vec<u8>> {
    let mut texts = Vec::with_capacity(alloc, chosen.len())?;
    for one in chosen {
        texts.push(chosen_text(alloc, *one)?)?;
    }
    texts.sort_unstable();
    let mut lines = Vec::new(alloc);
    for text in &texts {
        push_pieces(alloc, &mut lines, &[Piece::Shown(text), Piece::Fixed("\n")])?;
    }
    Ok(lines)
}

/// The text of a version: `react@18.2.0`, and `old@npm:react@17.0.2` of an alias.
fn chosen_text(alloc: Global, chosen: Chosen<'_>) -> Result<String> {
    let (front, package, end) = if chosen.name == chosen.package {
        ("@", "", "")
    } else {
        ("@npm:", chosen.package, "@")
    };
    let name = chosen.name;
    let key = chosen.key;
    format!(in alloc; "{name}{front}{package}{end}{key}")
}

/// What cannot be installed together, why, and what would fit.
fn conflict_lines(
    alloc: Global,
    documents: &[Document],
    conflict: &Conflict<'_>,
) -> Result<Vec<u8>> {
    let mut lines = culprit_lines(alloc, documents, &conflict.culprits)?;
    push_known(alloc, &mut lines, documents, conflict.reasons.as_ref())?;
    push_fitting(alloc, &mut lines, &conflict.culprits)?;
    Ok(lines)
}

/// Adds why it cannot be installed, if that is known.
fn push_known(
    alloc: Global,
    lines: &mut Vec<u8>,
    documents: &[Document],
    reasons: Option<&Vec<Reason<'_>>>,
) -> Result<()> {
    match reasons {
        Some(reasons) => push_reasons(alloc, lines, documents, reasons),
        None => Ok(()),
    }
}

/// Adds why it cannot be installed.
fn push_reasons<'r>(
    alloc: Global,
    lines: &mut Vec<u8>,
    documents: &'r [Document],
    reasons: &'r [Reason<'r>],
) -> Result<()> {
    lines.extend_from_slice(b"because\n")?;
    let mut number = 0_usize;
    for step in steps_of(alloc, documents, reasons)? {
        number = number.saturating_add(1);
        if let Some(reason) = reasons.get(step.place) {
            let sentence = Sentence {
                documents: &*documents,
                reason,
                together: &*reasons,
                numbers: &step.numbers,
                is_short: true,
            };
            push_reason(alloc, lines, number, sentence)?;
        }
    }
    Ok(())
}

/// Adds a line of the reasons.
fn push_reason(
    alloc: Global,
    lines: &mut Vec<u8>,
    number: usize,
    sentence: Sentence<'_>,
) -> Result<()> {
    let line = format!(in alloc; "  {number}. {sentence}\n")?;
    lines.extend_from_slice(line.as_bytes())
}

/// What cannot be installed together.
fn culprit_lines(
    alloc: Global,
    documents: &[Document],
    culprits: &[Culprit<'_>],
) -> Result<Vec<u8>> {
    let mut lines = Vec::new(alloc);
    let words = match culprits {
        [_] => "This cannot be installed:\n",
        _ => "These cannot be installed together:\n",
    };
    lines.extend_from_slice(words.as_bytes())?;
    for culprit in culprits {
        push_culprit(alloc, &mut lines, documents, *culprit)?;
    }
    Ok(lines)
}

/// Adds the line of a culprit.
fn push_culprit(
    alloc: Global,
    lines: &mut Vec<u8>,
    documents: &[Document],
    culprit: Culprit<'_>,
) -> Result<()> {
    let ask = culprit.ask;
    let pieces = [
        Piece::Fixed("  "),
        Piece::Shown(ask.name),
        Piece::Fixed(" "),
        Piece::Shown(filled(ask.spec)),
        Piece::Fixed(asked_words(ask.needed)),
        Piece::Fixed(document_words(has_document(documents, ask.name))),
        Piece::Fixed("\n"),
    ];
    push_pieces(alloc, lines, &pieces)
}

/// What the root does with a name.
fn asked_words(needed: bool) -> &'static str {
    if needed {
        ", which the root asks for"
    } else {
        ", to which the root limits it"
    }
}

/// Whether there is a document.
fn document_words(has_document: bool) -> &'static str {
    if has_document {
        ""
    } else {
        ", and which has no document"
    }
}

/// Returns `true` if a name has a document.
pub(crate) fn has_document(documents: &[Document], name: &str) -> bool {
    for document in documents {
        if document.name.as_str() == name {
            return true;
        }
    }
    false
}

/// Adds a line for each culprit with a version that would fit in its place.
fn push_fitting(alloc: Global, lines: &mut Vec<u8>, culprits: &[Culprit<'_>]) -> Result<()> {
    for culprit in culprits {
        if let Some(key) = culprit.would_fit {
            let pieces = [
                Piece::Shown(culprit.ask.name),
                Piece::Fixed(" "),
                Piece::Shown(key),
                Piece::Fixed(" would fit, outside the range.\n"),
            ];
            push_pieces(alloc, lines, &pieces)?;
        }
    }
    Ok(())
}

/// What is said if it takes too long to find what cannot be installed together.
fn unblamed_line(alloc: Global) -> Result<Vec<u8>> {
    let mut line = Vec::new(alloc);
    line.extend_from_slice(
        b"No versions fit together. To say what cannot be installed together takes more steps.\n",
    )?;
    Ok(line)
}
