//! The pieces of a text.
ghost use Rattle.std.specs.Prelude.{◌≡◌, ◌++◌, ℕ, List, OnOk, map};
ghost use Rattle.npm_lock_findings.specs.Forms.{IsShown, IsWritten, piece_value};

use crate::forms::escapes::{push_address, push_text};
use std::alloc::AllocError;

/// A form of text.
#[derive(Clone, Copy, Drop)]
pub enum Form {
    /// A workflow command of GitHub, in one line.
    Line,
    /// JSON.
    Json,
    /// HTML or XML.
    Markup,
}

/// A piece of a text.
#[derive(Clone, Copy, Drop)]
pub enum Piece<'a> {
    /// Words of the program, which are written as they are.
    Fixed(&'static str),
    /// A text: a property of a command, or a part of a string of JSON or of markup.
    Text(&'a [u8]),
    /// The message of a finding: the data of a command, or a text in which SARIF sees no link and no placeholder.
    Message(&'a [u8]),
    /// A text in an address, or in the name of a place on a page: `a%20b`.
    Address(&'a [u8]),
    /// A number in decimal.
    Number(usize),
}

/// Adds pieces in a form.
///
/// # Errors
///
/// An allocation failed. Then a beginning of them may have been added.
pub fn push_pieces(out: &mut Vec<u8>, form: Form, pieces: &[Piece<'_>]) -> Result<(), AllocError>
    ensures { OnOk result ((text : List ℕ) × IsWritten form (map piece_value pieces.now) text
        × (out.new.items ≡ out.old.items ++ text)) }
{
    for piece in pieces {
        push_piece(out, form, *piece)?;
    }
    Ok(())
}

/// Adds a piece.
fn push_piece(out: &mut Vec<u8>, form: Form, piece: Piece<'_>) -> Result<(), AllocError>
    ensures { OnOk result ((shown : List ℕ) × IsShown form (piece_value piece.entry) shown
        × (out.new.items ≡ out.old.items ++ shown)) }
{
    match piece {
        Piece::Fixed(words) => out.extend_from_slice(words.as_bytes()),
        Piece::Text(text) => push_text(out, form, text, false),
        Piece::Message(text) => push_text(out, form, text, true),
        Piece::Address(text) => push_address(out, form, text),
        Piece::Number(number) => {
            push_text(
                out,
                form,
                itoa::Buffer::new().format(number).as_bytes(),
                false,
            )
        }
    }
}
