//! The export.
ghost use Rattle.std.specs.Prelude.{◌≡◌};
ghost use Rattle.npm_c.specs.Answer.{IsAnswered, IsPut, IsTold};

use crate::status::{OK, OUT_OF_MEMORY, REFUSED};
use npm_calls::{Answer, answer_of};
use std::alloc::Global;

/// `npm_calls::answer_of`: writes the JSON text of the answer to the room, if it fits, and its length.
#[unsafe(no_mangle)]
pub extern "C" fn npm_call(
    alloc: Global,
    name: &[u8],
    text: &[u8],
    room: &mut [u8],
    length: &mut usize,
) -> u32
    ensures { IsAnswered result room.old room.new length.old length.new }
{
    match answer_of(alloc, name, text) {
        Ok(made) => tell(&made, room, length),
        Err(_) => OUT_OF_MEMORY,
    }
}

/// Writes the text of an answer and its length. Returns the status.
fn tell(made: &Answer, room: &mut [u8], length: &mut usize) -> u32
    ensures { IsTold made.now result room.old room.new length.new }
{
    *length = put(made.text.as_bytes(), room);
    if made.is_refused { REFUSED } else { OK }
}

/// Writes the text to the start of the array if it fits. Returns its length.
fn put(text: &[u8], room: &mut [u8]) -> usize
    ensures { IsPut text.now room.old room.new result }
{
    let length = text.len();
    if length <= room.len() {
        room[..length].copy_from_slice(text);
    }
    length
}
