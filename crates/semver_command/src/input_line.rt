//! A line of standard input.

use crate::stopped::Stopped;
use std::io::{BufRead, BufReader, ErrorKind, Read};

/// What was read.
#[derive(Clone, Copy, Drop)]
pub enum InputLine {
    /// A line, and the newline byte that ends it.
    Ended,
    /// The last line, which has no newline byte.
    Last,
    /// Nothing, since there is no more line.
    End,
}

/// Reads the next line into `line`, without its newline byte.
pub fn read_line<R: Read>(
    reader: &mut BufReader<R>,
    line: &mut Vec<u8>,
) -> Result<InputLine, Stopped> {
    line.clear();
    match reader.read_until(b'\n', line) {
        Ok(0) => Ok(InputLine::End),
        Ok(_) if take_newline(line) => Ok(InputLine::Ended),
        Ok(_) => Ok(InputLine::Last),
        Err(error) => Err(match error.kind() {
            ErrorKind::OutOfMemory => Stopped::Memory,
            _ => Stopped::Read,
        }),
    }
}

/// Takes the newline byte from the end of a line, if it is there.
fn take_newline(line: &mut Vec<u8>) -> bool {
    let Some(last) = line.len().checked_sub(1) else {
        return false;
    };
    if line[last] != b'\n' {
        return false;
    }
    line.truncate(last);
    true
}
