//! Lines, and the newline bytes that end them.
ghost use Rattle.std.specs.Prelude.{◌≡◌, ◌∷◌, ◌++◌, ◌<◌, length, IfSome, IfNone};
ghost use Rattle.std.specs.Str.{IsAscii};
ghost use Rattle.std.specs.Str.Lines.{strip_carriage_return};
ghost use Rattle.memchr.specs.Find.{IsFirstByte, is_byte};
ghost use Rattle.semver_texts.specs.Characters.{newline};
ghost use Rattle.semver_pairs.specs.Private.Splitting.{BeginsWithLine, HasNoNewline};

use memchr::memchr_iter;

/// Returns the bytes before the first newline byte, and the bytes after it.
pub(crate) fn split_line(bytes: &[u8]) -> Option<(&[u8], &[u8])>
    ensures split { IfSome result (λ pair. BeginsWithLine bytes.now pair.0.now pair.1.now) }
    ensures fewer { IfSome result (λ pair. length pair.1.now < length bytes.now) }
    ensures ascii { IfSome result (λ pair. IsAscii bytes.now → IsAscii pair.0.now × IsAscii pair.1.now) }
    ensures none { IfNone result (HasNoNewline bytes.now) }
{
    let at = newline_place(bytes)?;
    Some((&bytes[..at], &bytes[at + 1..]))
}

/// Returns the index of the first newline byte.
// Most lines are short: the iterator tests 32 bytes first, and `memchr` 64.
fn newline_place(bytes: &[u8]) -> Option<usize>
    ensures { IsFirstByte (is_byte newline) bytes.now result }
{
    memchr_iter(b'\n', bytes).next()
}

/// Returns the bytes after a line and its newline byte, if the bytes begin with both.
pub(crate) fn past_line<'b>(bytes: &'b [u8], line: &[u8]) -> Option<&'b [u8]>
    ensures { IfSome result (λ rest. bytes.now ≡ line.now ++ (newline ∷ rest.now)) }
{
    bytes.strip_prefix(line)?.strip_prefix(b"\n")
}

/// Returns the line without one carriage return at its end, if it has one.
#[inline]
pub(crate) fn without_return(line: &[u8]) -> &[u8]
    ensures line { result.now ≡ strip_carriage_return line.now }
    ensures ascii { IsAscii line.now → IsAscii result.now }
{
    match line {
        [text @ .., b'\r'] => text,
        _ => line,
    }
}
