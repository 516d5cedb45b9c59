//! A range text that is refused, with a mark at its fault.
use command_lines::push_shown_bytes;
use std::alloc::{AllocError, Global};

/// Returns two lines: the text, and below it a `^` under the byte at this offset. A byte that is no printable ASCII is
/// written by its number, so each byte of the first line is a character, also on a terminal.
///
/// # Memory
///
/// Allocates the two lines.
///
/// # Examples
///
/// `>=1.2 foo` with offset 6: this line, and the line `      ^`.
pub fn lines_of_refused(alloc: Global, text: &str, offset: usize) -> Result<Vec<u8>, AllocError> {
    let (before, after) = parted(text.as_bytes(), offset);
    let mut lines = Vec::new(alloc);
    push_shown_bytes(&mut lines, before)?;
    let mut blanks = Vec::new(alloc);
    blanks.resize(lines.len(), b' ')?;
    push_shown_bytes(&mut lines, after)?;
    lines.push(b'\n')?;
    lines.extend_from_slice(&blanks)?;
    lines.extend_from_slice(b"^\n")?;
    Ok(lines)
}

/// The bytes before the offset, and those after it. All are before it if there are fewer.
fn parted(text: &[u8], offset: usize) -> (&[u8], &[u8]) {
    if offset > text.len() {
        return (text, &[]);
    }
    text.split_at(offset)
}
