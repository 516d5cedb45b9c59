//! What lines for a person are made of.
//!
//! See docs/DECISIONS.md, "A sentence has printable ASCII alone".

use command_lines::{push_shown, push_shown_bytes, push_shown_first};
use itoa::Buffer;
use std::alloc::AllocError;

/// A piece of a line for a person.
#[derive(Clone, Copy, Drop)]
pub enum Piece<'a> {
    /// Words of the program.
    Fixed(&'static str),
    /// A text at the beginning of a line.
    First(&'a str),
    /// A text.
    Text(&'a str),
    Number(u64),
}

/// Where a sentence is read.
#[derive(Clone, Copy, Debug, PartialEq, Eq, Drop)]
pub enum Reading {
    /// In a terminal: a text is written in printable ASCII alone.
    Terminal,
    /// In a browser: letters of all scripts are written as they are. What is no letter is left to the form that the sentence is written in.
    Browser,
}

/// Adds pieces to a line.
pub fn push_pieces(
    line: &mut Vec<u8>,
    reading: Reading,
    pieces: &[Piece<'_>],
) -> Result<(), AllocError> {
    for piece in pieces {
        push_piece(line, reading, *piece)?;
    }
    Ok(())
}

/// Adds a piece.
fn push_piece(line: &mut Vec<u8>, reading: Reading, piece: Piece<'_>) -> Result<(), AllocError> {
    match piece {
        Piece::Fixed(words) => line.extend_from_slice(words.as_bytes()),
        Piece::First(text) => push_first(line, reading, text),
        Piece::Text(text) => push_text(line, reading, text),
        Piece::Number(number) => { line.extend_from_slice(Buffer::new().format(number).as_bytes()) }
    }
}

/// Adds a text at the beginning of a line.
fn push_first(line: &mut Vec<u8>, reading: Reading, text: &str) -> Result<(), AllocError> {
    match reading {
        Reading::Browser if !text.is_empty() => push_letters(line, text),
        _ => push_shown_first(line, text),
    }
}

/// Adds a text.
fn push_text(line: &mut Vec<u8>, reading: Reading, text: &str) -> Result<(), AllocError> {
    match reading {
        Reading::Terminal => push_shown(line, text),
        Reading::Browser => push_letters(line, text),
    }
}

/// Adds a text, of which ASCII is written as in a terminal.
fn push_letters(line: &mut Vec<u8>, text: &str) -> Result<(), AllocError> {
    for byte in text.as_bytes() {
        if *byte < 128 {
            push_shown_bytes(line, &[*byte])?;
        } else {
            line.extend_from_slice(&[*byte])?;
        }
    }
    Ok(())
}

/// The text, or the empty one.
pub fn text_or_empty(text: Option<&String>) -> &str {
    match text {
        Some(text) => text.as_str(),
        None => "",
    }
}

/// These words before a text that is there.
pub fn before(text: Option<&String>, words: &'static str) -> &'static str {
    match text {
        Some(_) => words,
        None => "",
    }
}
