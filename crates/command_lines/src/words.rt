//! The words after the program's name.
ghost use Rattle.std.specs.Prelude.{Some};
ghost use Rattle.command_lines.specs.Shown as Shown;

use crate::shown::write_quoted;
use std::alloc::{AllocError, Global};
use std::env::{Env, FillError};
use std::fmt;
use thiserror::Error;

/// The greatest number of words that a program should read: a recursion over them takes room on the stack for each.
pub const MAX_WORDS: usize = 1000;

/// A text about the program, which is shown in place of its work.
#[derive(Clone, Copy, Debug, PartialEq, Eq, Drop)]
pub enum Shown {
    Help,
    Version,
}

/// A word that is not in UTF-8.
#[derive(Debug, Drop)]
pub struct RawWord {
    bytes: Vec<u8>,
}

/// Prints the word between quotation marks, in printable ASCII alone. Format options such as a width are ignored.
impl fmt::Display for RawWord {
    ghost output = { λ word. Some (Shown.quoted word.bytes.items) };

    fn fmt<W: fmt::Write>(&self, f: &mut fmt::Formatter<W>) -> fmt::Result {
        write_quoted(f, self.bytes.as_slice())
    }
}

/// Why the words were not read.
#[derive(Debug, Drop, Error)]
pub enum WordsError {
    /// A word is not in UTF-8.
    #[error("the argument {0} is not in UTF-8")]
    NoUtf8(RawWord),
    /// An allocation failed.
    #[error("out of memory")]
    Memory,
}

/// Returns the words after the program's name.
pub fn words_of<E: Env>(alloc: Global, env: &E) -> Result<Vec<String>, WordsError> {
    let mut words = Vec::new(alloc);
    // The first word is the program's name.
    for place in 1..usize::MAX {
        match word_bytes(alloc, env, place).map_err(|_| WordsError::Memory)? {
            Some(bytes) => words.push(text_of(bytes)?).map_err(|_| WordsError::Memory)?,
            None => break,
        }
    }
    Ok(words)
}

/// The word of these bytes.
fn text_of(bytes: Vec<u8>) -> Result<String, WordsError> {
    match String::from_utf8(bytes) {
        Ok(word) => Ok(word),
        Err(error) => Err(WordsError::NoUtf8(RawWord {
            bytes: error.into_bytes(),
        })),
    }
}

/// Returns the bytes of the word at this place, or `None` after the last word. The program's name is at place 0.
///
/// # Memory
///
/// Allocates 256 bytes, and then twice as many until the word fits.
pub fn word_bytes<E: Env>(
    alloc: Global,
    env: &E,
    place: usize,
) -> Result<Option<Vec<u8>>, AllocError> {
    let mut room: usize = 256;
    for _ in 0..usize::BITS {
        let mut bytes = Vec::new(alloc);
        bytes.resize(room, 0)?;
        match env.arg(place, bytes.as_mut_slice()) {
            Ok(length) => {
                bytes.truncate(length);
                return Ok(Some(bytes));
            }
            Err(FillError::NotPresent) => return Ok(None),
            Err(FillError::TooLong) => room = room.saturating_add(room),
        }
    }
    Err(AllocError)
}
