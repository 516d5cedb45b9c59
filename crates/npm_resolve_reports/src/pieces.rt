//! Lines and JSON texts, from pieces.
use crate::Result;
use command_lines::push_shown;
use serde_json::Value;
use std::alloc::Global;

/// A piece of a line or of a JSON text.
#[derive(Clone, Copy, Drop)]
pub enum Piece<'a> {
    /// Words as they stand.
    Fixed(&'a str),
    /// A text in printable ASCII, for a line.
    Shown(&'a str),
    /// A JSON string.
    Json(&'a str),
    Number(usize),
}

impl<'a> Piece<'a> {
    /// A JSON string, or `null` if there is no text.
    pub fn json_or_null(text: Option<&'a str>) -> Piece<'a> {
        match text {
            Some(text) => Piece::Json(text),
            None => Piece::Fixed("null"),
        }
    }

    /// `true` or `false`.
    pub fn flag(is_set: bool) -> Piece<'a> {
        Piece::Fixed(if is_set { "true" } else { "false" })
    }
}

/// Adds pieces to a text.
pub fn push_pieces(alloc: Global, text: &mut Vec<u8>, pieces: &[Piece<'_>]) -> Result<()> {
    for piece in pieces {
        match piece {
            Piece::Fixed(words) => text.extend_from_slice(words.as_bytes())?,
            Piece::Shown(words) => push_shown(text, words)?,
            Piece::Json(words) => push_json(alloc, text, words)?,
            Piece::Number(number) => push_number(alloc, text, *number)?,
        }
    }
    Ok(())
}

/// Adds a JSON string.
fn push_json(alloc: Global, text: &mut Vec<u8>, words: &str) -> Result<()> {
    let string = Value::try_from_str(alloc, words)?.to_string(alloc)?;
    text.extend_from_slice(string.as_bytes())
}

/// Adds a number.
fn push_number(alloc: Global, text: &mut Vec<u8>, number: usize) -> Result<()> {
    let digits = format!(in alloc; "{number}")?;
    text.extend_from_slice(digits.as_bytes())
}
