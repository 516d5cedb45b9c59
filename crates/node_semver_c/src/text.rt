//! Texts and keys that are written to the caller's array.
ghost use Rattle.std.specs.Prelude.{◌≡◌, MatchResult, string_bytes};
ghost use Rattle.node_semver_c.specs.Printed.{IsPrinted, IsPut};

use std::alloc::AllocError;

// Writes the text, or nothing if memory ran out before it was made. Returns its length, or 0.
pub(crate) fn put(text: Result<String, AllocError>, room: &mut [u8]) -> usize
    ensures { MatchResult text (λ t. IsPut (string_bytes t) room.old room.new result)
        (λ _. (result ≡ 0) × (room.new ≡ room.old)) }
{
    match text {
        Ok(text) => copy(text.as_bytes(), room),
        Err(_) => 0,
    }
}

// Writes the bytes, or nothing if memory ran out before they were made. Returns their number, or 0.
pub(crate) fn put_bytes(bytes: Result<Vec<u8>, AllocError>, room: &mut [u8]) -> usize
    ensures { MatchResult bytes (λ b. IsPut b.items room.old room.new result)
        (λ _. (result ≡ 0) × (room.new ≡ room.old)) }
{
    match bytes {
        Ok(bytes) => copy(&bytes, room),
        Err(_) => 0,
    }
}

// Writes the bytes to the start of the array if they fit. Returns their number.
pub(crate) fn copy(text: &[u8], room: &mut [u8]) -> usize
    ensures { IsPut text.now room.old room.new result }
{
    let length = text.len();
    if length <= room.len() {
        room[..length].copy_from_slice(text);
    }
    length
}
