//! Parts that programs for a command line share.
//!
//! - [`words_of`] returns the words after the program's name, [`word_bytes`] the bytes of one. [`Shown`] is a text about the program.
//! - [`Quoted`], [`write_shown`], [`push_shown`], [`push_shown_bytes`] and [`push_shown_first`] write texts in printable ASCII
//!   alone, as a terminal gets them.
//! - [`Watched`] is a reader or writer that remembers that a call failed, and [`read_json`] reads the JSON value of one.
#![tactic(auto)]

mod input;
mod input_error;
mod shown;
mod watched;
mod words;

pub use input::{read_json, read_json_with_text};
pub use input_error::{InputError, failure_error, open_error};
pub use shown::{
    Quoted, push_shown, push_shown_bytes, push_shown_first, write_quoted, write_shown,
};
pub use watched::Watched;
pub use words::{MAX_WORDS, RawWord, Shown, WordsError, word_bytes, words_of};
