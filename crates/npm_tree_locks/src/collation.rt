//! The order of names in English.

use crate::Result;
use std::alloc::Global;

/// The characters of ASCII before the letters, in the order of the Unicode collation.
const BEFORE_LETTERS: &[u8] = b"_-,;:!?.'\"()[]{}@*/\\&#%`^+<=>|~$0123456789";

/// Returns bytes that sort as names do: by their letters of either case, and then small letters first.
pub(crate) fn sort_key(alloc: Global, name: &str) -> Result<Vec<u8>> {
    let mut key = Vec::with_capacity(alloc, name.len())?;
    for byte in name.as_bytes() {
        key.push(weight(*byte))?;
    }
    key.push(0)?;
    for byte in name.as_bytes() {
        key.push(if byte.is_ascii_uppercase() { 2 } else { 1 })?;
    }
    Ok(key)
}

fn weight(byte: u8) -> u8 {
    let mut place = 1_u8;
    for other in BEFORE_LETTERS {
        if *other == byte {
            return place;
        }
        place = place.saturating_add(1);
    }
    byte.to_ascii_lowercase().max(place)
}
