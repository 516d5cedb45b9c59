//! Texts in printable ASCII alone, as a terminal gets them.
//!
//! See docs/DECISIONS.md, "A sentence has printable ASCII alone".
ghost use Rattle.std.specs.Prelude.{◌≡◌, ◌<◌, ◌++◌, OnOk, Some};
ghost use Rattle.std.specs.List.{flat_map};
ghost use Rattle.std.specs.Fmt.{WritesOnOk};
ghost use Rattle.command_lines.specs.Private.ShownBytes.{bytes_of};
ghost use Rattle.command_lines.specs.Shown as Shown;

use std::alloc::AllocError;
use std::{fmt, str};

/// The bytes that are written for one byte.
#[derive(Clone, Copy, Drop)]
enum ShownByte {
    /// The byte itself.
    Plain([u8; 1]),
    /// The byte after a backslash.
    Marked([u8; 2]),
    /// The number of the byte, as `\x1b`.
    Numbered([u8; 4]),
}

impl ShownByte {
    /// What is written for this byte.
    fn new(byte: u8) -> ShownByte
        ensures { bytes_of result ≡ Shown.shown_byte byte }
    {
        if byte == b'"' || byte == b'\\' {
            ShownByte::Marked([b'\\', byte])
        } else if byte < 32 || 126 < byte || byte == b'[' {
            ShownByte::Numbered([b'\\', b'x', digit(byte / 16), digit(byte % 16)])
        } else {
            ShownByte::Plain([byte])
        }
    }

    /// What is written for this byte at the beginning of a line.
    fn first(byte: u8) -> ShownByte
        ensures { bytes_of result ≡ Shown.first_byte byte }
    {
        if byte == b' ' || byte == b'#' || byte == b':' {
            ShownByte::Numbered([b'\\', b'x', digit(byte / 16), digit(byte % 16)])
        } else {
            ShownByte::new(byte)
        }
    }

    fn as_bytes(&self) -> &[u8]
        ensures { result.now ≡ bytes_of self.now }
    {
        match self {
            ShownByte::Plain(bytes) => &bytes[..],
            ShownByte::Marked(bytes) => &bytes[..],
            ShownByte::Numbered(bytes) => &bytes[..],
        }
    }
}

/// The hexadecimal digit of a number.
fn digit(number: u8) -> u8
    requires { number < 16 }
    ensures { result ≡ Shown.digit number }
{
    if number < 10 {
        b'0' + number
    } else {
        b'a' + (number - 10)
    }
}

/// Adds a text to a line.
pub fn push_shown(line: &mut Vec<u8>, text: &str) -> Result<(), AllocError>
    ensures { OnOk result (line.new.items ≡ line.old.items ++ flat_map Shown.shown_byte text.now) }
{
    push_shown_bytes(line, text.as_bytes())
}

/// Adds the bytes of a text to a line.
pub fn push_shown_bytes(line: &mut Vec<u8>, text: &[u8]) -> Result<(), AllocError>
    ensures { OnOk result (line.new.items ≡ line.old.items ++ flat_map Shown.shown_byte text.now) }
{
    for byte in text {
        line.extend_from_slice(ShownByte::new(*byte).as_bytes())?;
    }
    Ok(())
}

/// Adds a text to an empty line, so that no runner of workflows takes the line for a command.
pub fn push_shown_first(line: &mut Vec<u8>, text: &str) -> Result<(), AllocError>
    ensures { OnOk result (line.new.items ≡ line.old.items ++ Shown.shown_first text.now) }
{
    match text.as_bytes().split_first() {
        Some((first, rest)) => {
            line.extend_from_slice(ShownByte::first(*first).as_bytes())?;
            push_shown_bytes(line, rest)
        }
        None => line.extend_from_slice(b"\"\""),
    }
}

/// Prints a text.
pub fn write_shown<W: fmt::Write>(f: &mut fmt::Formatter<W>, text: &[u8]) -> fmt::Result
    ensures { WritesOnOk W.write_str_gives f.old result (flat_map Shown.shown_byte text.now) f.new }
{
    for byte in text {
        write_byte(f, *byte)?;
    }
    Ok(())
}

/// Prints a byte.
fn write_byte<W: fmt::Write>(f: &mut fmt::Formatter<W>, byte: u8) -> fmt::Result
    ensures { WritesOnOk W.write_str_gives f.old result (Shown.shown_byte byte) f.new }
{
    let shown = ShownByte::new(byte);
    f.write_str(str::from_utf8(shown.as_bytes()).map_err(|_| fmt::Error)?)
}

/// Prints a text between quotation marks.
pub fn write_quoted<W: fmt::Write>(f: &mut fmt::Formatter<W>, text: &[u8]) -> fmt::Result
    ensures { WritesOnOk W.write_str_gives f.old result (Shown.quoted text.now) f.new }
{
    f.write_char('"')?;
    write_shown(f, text)?;
    f.write_char('"')
}

/// A text that is printed between quotation marks, as a word of the command line in the line of an error.
#[derive(Clone, Copy, Debug, PartialEq, Eq, Drop)]
pub struct Quoted<'a> {
    pub text: &'a str,
}

/// Prints `"package-lock.json"`. Format options such as a width are ignored.
impl<'a> fmt::Display for Quoted<'a> {
    ghost output = { λ quoted. Some (Shown.quoted quoted.text.now) };

    fn fmt<W: fmt::Write>(&self, f: &mut fmt::Formatter<W>) -> fmt::Result {
        write_quoted(f, self.text.as_bytes())
    }
}
