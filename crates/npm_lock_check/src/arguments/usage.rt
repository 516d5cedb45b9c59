//! An error of `clap` in one line.

use clap::Error;
use command_lines::push_shown;
use std::alloc::{AllocError, Global};
use std::fmt;

/// What `clap` says of words that it does not read, in one line of printable ASCII.
#[derive(Debug, Drop)]
pub struct Usage {
    line: String,
}

/// Prints the line. Format options such as a width are ignored.
impl fmt::Display for Usage {
    fn fmt<W: fmt::Write>(&self, f: &mut fmt::Formatter<W>) -> fmt::Result {
        f.write_str(self.line.as_str())
    }
}

/// Returns the lines of an error above those that tell the usage, one after the other.
pub fn usage_of(alloc: Global, error: &Error) -> Result<Usage, AllocError> {
    let text = error.to_string(alloc)?;
    let mut line = Vec::new(alloc);
    let mut before = "";
    for part in text.as_str().lines() {
        let part = part.trim();
        if part.starts_with("Usage:") || part.starts_with("For more information") {
            break;
        }
        if !part.is_empty() {
            line.extend_from_slice(before.as_bytes())?;
            push_shown(&mut line, words_of(part))?;
            before = "; ";
        }
    }
    line.extend_from_slice(b"; --help lists the options")?;
    match String::from_utf8(line) {
        Ok(line) => Ok(Usage { line }),
        Err(_) => Err(AllocError),
    }
}

/// The words of a part without what `clap` writes around them.
fn words_of(part: &str) -> &str {
    if let Some(rest) = part.strip_prefix("error: ") {
        return rest;
    }
    if let Some(rest) = part.strip_prefix("tip: ") {
        return rest;
    }
    match part.strip_prefix("[") {
        Some(rest) => rest.strip_suffix("]").unwrap_or(rest),
        None => part,
    }
}
