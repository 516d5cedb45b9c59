//! Calls, and what a program makes of them.
use std::alloc::{AllocError, Global};
use std::io;
use thiserror::Error;

/// The name of a call, and what its arguments are read as.
#[derive(Drop)]
pub struct Call<'c, W> {
    pub alloc: Global,
    pub name: &'c str,
    pub words: &'c [W],
    /// Whether its other forms are asked too, even if that allocates and the call does not.
    pub asks_forms: bool,
}

/// The calls of a program.
pub trait Calls {
    /// A word, and what it is read as before a call is made.
    type Word: Drop;

    fn word_of(alloc: Global, text: &str) -> Result<Self::Word, AllocError>;

    /// Makes a call, and appends its answer.
    fn answer(call: &Call<'_, Self::Word>, out: &mut String) -> Written;
}

/// Why a call has no answer, or nothing was written.
#[derive(Debug, Drop, Error)]
pub enum CallError {
    #[error("no call has this name and these arguments")]
    Words,
    #[error("out of memory")]
    Memory(#[from(alloc)] AllocError),
    /// Forms of one call give different results.
    #[error("its forms differ")]
    Forms,
    #[error("a line could not be read or written")]
    Stream(#[from] io::Error),
}

pub type Written = Result<(), CallError>;

/// Makes the call of the first of some modules that has one of this name, with these arguments.
#[macro_export]
macro_rules! answer_of_first {
    ($call:ident, $out:ident, $($subject:ident),+) => {{
        $(match $subject::answer($call, $out) {
            Err(CallError::Words) => {}
            written => return written,
        })+
        Err(CallError::Words)
    }};
}

/// The list of what is made of each item.
#[macro_export]
macro_rules! list_of {
    ($alloc:expr, $items:expr, $item:ident => $made:expr) => {{
        let mut list = Vec::new($alloc);
        for $item in $items {
            list.push($made)?;
        }
        list
    }};
}

/// The words of texts.
pub(crate) fn words_of<C: Calls>(
    alloc: Global,
    texts: &[String],
) -> Result<Vec<C::Word>, AllocError> {
    Ok(list_of!(alloc, texts, text => C::word_of(alloc, text)?))
}
