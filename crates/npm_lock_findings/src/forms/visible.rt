//! Characters that are not seen, or that change how others are seen: control characters, those of no width, and those that turn the
//! direction of a text.

use std::alloc::{AllocError, Global};

/// Returns a copy of a text in which the bytes of such characters are written by their numbers, as `\xe2\x80\xae`. Letters of all
/// scripts stay as they are.
///
/// # Errors
///
/// An allocation failed.
///
/// # Memory
///
/// Allocates the copy.
pub(crate) fn visible(alloc: Global, text: &[u8]) -> Result<Vec<u8>, AllocError> {
    let mut seen = Vec::new(alloc);
    let mut left: usize = 0;
    for index in 0..text.len() {
        let byte = text[index];
        left = left_of(left, &text[index..]);
        if 0 < left || byte < 32 || byte == 127 {
            seen.extend_from_slice(&numbered(byte))?;
        } else {
            seen.push(byte)?;
        }
        left = left.saturating_sub(1);
    }
    Ok(seen)
}

/// A byte by its number: `\x1b`.
pub(crate) fn numbered(byte: u8) -> [u8; 4] {
    [b'\\', b'x', hex(byte / 16, b'a'), hex(byte % 16, b'a')]
}

/// The hexadecimal digit of a number below 16, where ten is this letter.
pub(crate) fn hex(number: u8, ten: u8) -> u8 {
    if number < 10 {
        b'0' + number
    } else {
        ten.saturating_add(number.saturating_sub(10))
    }
}

/// Returns how many bytes of a hidden character stand at the beginning of a text. So many are left of one that began before.
pub(crate) fn left_of(left: usize, text: &[u8]) -> usize {
    if left == 0 { hidden_length(text) } else { left }
}

/// Returns how many bytes the hidden character has that a text begins with, and 0 if it begins with another one.
fn hidden_length(text: &[u8]) -> usize {
    match text {
        [0xc2, 0x80..=0x9f | 0xad, ..] | [0xd8, 0x9c, ..] => 2,
        [0xe2, 0x80, 0x8b..=0x8f | 0xa8..=0xae, ..] | [0xe2, 0x81, 0xa0..=0xaf, ..] => 3,
        [0xef, 0xbf, 0xb9..=0xbb | 0xbe..=0xbf, ..] | [0xef, 0xbb, 0xbf, ..] => 3,
        [0xe1, 0xa0, 0x8e, ..] => 3,
        _ => 0,
    }
}
