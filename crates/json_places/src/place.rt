//! A place in a text: a byte offset, and the line and the column of it.
ghost use Rattle.std.specs.Prelude.{◌≡◌, ◌+◌, ◌<◌, ◌≤◌, length};
ghost use Rattle.json_places.specs.Places.{IsPlace, IsPlaceAfter, begins_character};

/// A place in a text.
#[derive(Clone, Copy, Debug, PartialEq, Eq, Drop)]
pub struct Place {
    /// How many bytes are before it.
    pub offset: usize,
    /// The line, counted from 1. A line ends with a newline byte.
    pub line: usize,
    /// The column, counted from 1 in characters (Unicode code points).
    pub column: usize,
}

impl Place {
    /// The place where every text begins.
    pub const START: Place = Place {
        offset: 0,
        line: 1,
        column: 1,
    };
}

/// Moves a place on to this offset.
pub fn moved(text: &[u8], place: Place, offset: usize) -> Place
    requires start { IsPlace text.now place }
    requires forward { place.offset ≤ offset }
    requires inside { offset ≤ length text.now }
    ensures place { IsPlace text.now result }
    ensures offset { result.offset ≡ offset }
{
    let mut place = place;
    while place.offset < offset {
        place = passed(text, place);
    }
    place
}

/// Moves a place past one byte.
fn passed(text: &[u8], place: Place) -> Place
    requires start { IsPlace text.now place }
    requires inside { place.offset < length text.now }
    ensures place { IsPlace text.now result }
    ensures offset { result.offset ≡ place.offset + 1 }
{
    let byte = text[place.offset];
    let offset = place.offset + 1;
    if byte == b'\n' {
        Place {
            offset,
            line: place.line + 1,
            column: 1,
        }
    } else if begins_character(byte) {
        Place {
            offset,
            line: place.line,
            column: place.column + 1,
        }
    } else {
        Place {
            offset,
            line: place.line,
            column: place.column,
        }
    }
}

/// Whether a byte is the first one of a character.
fn begins_character(byte: u8) -> bool
    ensures { result ≡ begins_character byte }
{
    byte < 128 || 192 <= byte
}
