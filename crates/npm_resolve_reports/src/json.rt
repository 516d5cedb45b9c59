//! A resolution as a JSON object, without spaces. The members of objects are in the order of their names.
use crate::Result;
use crate::pieces::{Piece, push_pieces};
use crate::reasons_json::push_reasons;
use crate::text::has_document;
use npm_resolve::{Chosen, Conflict, Culprit, Document, Resolution};
use npm_texts::filled;
use std::alloc::Global;

/// Returns the JSON object of a resolution, and a newline.
pub(crate) fn json_line(
    alloc: Global,
    documents: &[Document],
    resolution: &Resolution<'_>,
) -> Result<Vec<u8>> {
    let mut line = json_text(alloc, documents, resolution)?;
    line.extend_from_slice(b"\n")?;
    Ok(line)
}

/// Returns the JSON object of a resolution.
pub(crate) fn json_text(
    alloc: Global,
    documents: &[Document],
    resolution: &Resolution<'_>,
) -> Result<Vec<u8>> {
    let mut text = Vec::new(alloc);
    match resolution {
        Resolution::Selected(chosen) => push_selected(alloc, &mut text, chosen)?,
        Resolution::NoSelection(Some(conflict)) => {
            push_conflict(alloc, &mut text, documents, conflict)?;
        }
        // It takes too long to find what cannot be installed together.
        Resolution::NoSelection(None) => {
            text.extend_from_slice(b"{\"culprits\":null,\"outcome\":\"none\",\"reasons\":null}")?;
        }
        Resolution::Undecided => text.extend_from_slice(b"{\"outcome\":\"undecided\"}")?,
    }
    Ok(text)
}

/// Adds the object of what is selected, in the order in which the names are first needed.
fn push_selected(alloc: Global, text: &mut Vec<u8>, chosen: &[Chosen<'_>]) -> Result<()> {
    let mut front = "{\"outcome\":\"selected\",\"packages\":[";
    for one in chosen {
        let pieces = [
            Piece::Fixed(front),
            Piece::Fixed("{\"name\":"),
            Piece::Json(one.name),
            Piece::Fixed(",\"package\":"),
            Piece::Json(one.package),
            Piece::Fixed(",\"version\":"),
            Piece::Json(one.key),
            Piece::Fixed("}"),
        ];
        push_pieces(alloc, text, &pieces)?;
        front = ",";
    }
    let front = if chosen.is_empty() { front } else { "" };
    push_pieces(alloc, text, &[Piece::Fixed(front), Piece::Fixed("]}")])
}

/// Adds the object of what cannot be installed together, and why.
fn push_conflict(
    alloc: Global,
    text: &mut Vec<u8>,
    documents: &[Document],
    conflict: &Conflict<'_>,
) -> Result<()> {
    text.extend_from_slice(b"{\"culprits\":[")?;
    let mut front = "";
    for culprit in &conflict.culprits {
        push_culprit(alloc, text, documents, *culprit, front)?;
        front = ",";
    }
    text.extend_from_slice(b"],\"outcome\":\"none\",\"reasons\":")?;
    push_reasons(alloc, text, documents, conflict.reasons.as_ref())?;
    text.extend_from_slice(b"}")
}

/// Adds the object of a culprit, with what stands before it.
fn push_culprit<'c>(
    alloc: Global,
    text: &mut Vec<u8>,
    documents: &[Document],
    culprit: Culprit<'c>,
    front: &'c str,
) -> Result<()> {
    let ask = culprit.ask;
    let pieces = [
        Piece::Fixed(front),
        Piece::Fixed("{\"document\":"),
        Piece::flag(has_document(documents, ask.name)),
        Piece::Fixed(",\"name\":"),
        Piece::Json(ask.name),
        Piece::Fixed(",\"needed\":"),
        Piece::flag(ask.needed),
        Piece::Fixed(",\"spec\":"),
        Piece::Json(filled(ask.spec)),
        Piece::Fixed(",\"would_fit\":"),
        Piece::json_or_null(culprit.would_fit),
        Piece::Fixed("}"),
    ];
    push_pieces(alloc, text, &pieces)
}
