//! Reasons as JSON objects. The first line has the number 0, as the first item of the array.
use crate::Result;
use crate::pieces::{Piece, push_pieces};
use crate::sentence::{Sentence, lines_of};
use npm_resolve::{Document, Reason, Source, Term, Wish};
use npm_texts::filled;
use std::alloc::Global;
use std::slice;

/// Adds the objects of all reasons, or `null` if there are none.
pub(crate) fn push_reasons(
    alloc: Global,
    text: &mut Vec<u8>,
    documents: &[Document],
    reasons: Option<&Vec<Reason<'_>>>,
) -> Result<()> {
    match reasons {
        Some(reasons) => push_all(alloc, text, documents, reasons),
        None => text.extend_from_slice(b"null"),
    }
}

/// Adds the objects of these reasons.
fn push_all<'r>(
    alloc: Global,
    text: &mut Vec<u8>,
    documents: &'r [Document],
    reasons: &'r [Reason<'r>],
) -> Result<()> {
    text.extend_from_slice(b"[")?;
    let mut front = "";
    for reason in reasons {
        text.extend_from_slice(front.as_bytes())?;
        push_reason(alloc, text, documents, reason)?;
        front = ",";
    }
    text.extend_from_slice(b"]")
}

/// Adds the object of a reason.
fn push_reason<'r>(
    alloc: Global,
    text: &mut Vec<u8>,
    documents: &'r [Document],
    reason: &'r Reason<'r>,
) -> Result<()> {
    let numbers = numbers_of(alloc, lines_of(reason))?;
    let sentence = Sentence {
        documents: &*documents,
        reason: &*reason,
        together: slice::from_ref(&*reason),
        numbers: &numbers,
        is_short: false,
    };
    let said = text_of(alloc, sentence)?;
    match &reason.source {
        Source::Root(wish) => {
            text.extend_from_slice(b"{\"source\":\"root\"")?;
            push_terms(alloc, text, &reason.terms, &said)?;
            push_wish(alloc, text, *wish)?;
        }
        Source::Versions(name, wish, keys) => {
            let pieces = [
                Piece::Fixed("{\"name\":"),
                Piece::Json(name),
                Piece::Fixed(",\"source\":\"versions\""),
            ];
            push_pieces(alloc, text, &pieces)?;
            push_terms(alloc, text, &reason.terms, &said)?;
            text.extend_from_slice(b",\"versions\":")?;
            push_texts(alloc, text, keys)?;
            push_wish(alloc, text, *wish)?;
        }
        Source::Lines(name, lines) => {
            push_numbers(alloc, text, lines)?;
            let pieces = [
                Piece::Fixed(",\"name\":"),
                Piece::Json(name),
                Piece::Fixed(",\"source\":\"lines\""),
            ];
            push_pieces(alloc, text, &pieces)?;
            push_terms(alloc, text, &reason.terms, &said)?;
        }
    }
    text.extend_from_slice(b"}")
}

/// The numbers of lines in sentences. The first line has the number 1 there.
fn numbers_of(alloc: Global, lines: &[usize]) -> Result<Vec<usize>> {
    let mut numbers = Vec::with_capacity(alloc, lines.len())?;
    for line in lines {
        numbers.push(line.saturating_add(1))?;
    }
    Ok(numbers)
}

/// The sentence.
fn text_of(alloc: Global, sentence: Sentence<'_>) -> Result<String> {
    format!(in alloc; "{sentence}")
}

/// Adds the beginning of an object: the numbers of lines.
fn push_numbers(alloc: Global, text: &mut Vec<u8>, lines: &[usize]) -> Result<()> {
    text.extend_from_slice(b"{\"lines\":[")?;
    let mut front = "";
    for line in lines {
        push_pieces(alloc, text, &[Piece::Fixed(front), Piece::Number(*line)])?;
        front = ",";
    }
    text.extend_from_slice(b"]")
}

/// Adds the members of all terms and of the sentence.
fn push_terms(alloc: Global, text: &mut Vec<u8>, terms: &[Term<'_>], said: &str) -> Result<()> {
    text.extend_from_slice(b",\"terms\":[")?;
    let mut front = "";
    for term in terms {
        push_term(alloc, text, *term, front)?;
        front = ",";
    }
    push_pieces(
        alloc,
        text,
        &[Piece::Fixed("],\"text\":"), Piece::Json(said)],
    )
}

/// Adds the object of a term, with what stands before it.
fn push_term<'t>(alloc: Global, text: &mut Vec<u8>, term: Term<'t>, front: &'t str) -> Result<()> {
    let wish = match term {
        Term::Asking(name, wish) => {
            let pieces = [
                Piece::Fixed(front),
                Piece::Fixed("{\"name\":"),
                Piece::Json(name),
                Piece::Fixed(",\"term\":\"asking\""),
            ];
            push_pieces(alloc, text, &pieces)?;
            wish
        }
        Term::Outside(wish) => {
            let pieces = [Piece::Fixed(front), Piece::Fixed("{\"term\":\"outside\"")];
            push_pieces(alloc, text, &pieces)?;
            wish
        }
    };
    push_wish(alloc, text, wish)?;
    text.extend_from_slice(b"}")
}

/// Adds the member of a wish.
fn push_wish(alloc: Global, text: &mut Vec<u8>, wish: Wish<'_>) -> Result<()> {
    let spec = match wish.spec {
        Some(spec) => Piece::Json(filled(spec)),
        None => Piece::Fixed("null"),
    };
    let pieces = [
        Piece::Fixed(",\"wish\":{\"name\":"),
        Piece::Json(wish.name),
        Piece::Fixed(",\"needed\":"),
        Piece::flag(wish.needed),
        Piece::Fixed(",\"spec\":"),
        spec,
        Piece::Fixed("}"),
    ];
    push_pieces(alloc, text, &pieces)
}

/// Adds the array of texts.
pub(crate) fn push_texts(alloc: Global, text: &mut Vec<u8>, words: &[&str]) -> Result<()> {
    text.extend_from_slice(b"[")?;
    let mut front = "";
    for one in words {
        push_pieces(alloc, text, &[Piece::Fixed(front), Piece::Json(one)])?;
        front = ",";
    }
    text.extend_from_slice(b"]")
}
