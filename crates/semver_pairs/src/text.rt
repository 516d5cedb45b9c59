//! The text of a line.
ghost use Rattle.std.specs.Prelude.{◌≡◌, IfSome, IfNone, IsTrue, IsUtf8};
ghost use Rattle.std.specs.Str.{IsAscii};

use std::str;

/// Returns the text of a line, or `None` if it is not UTF-8. A line that is known to be ASCII is not tested again.
// `inline(always)` in this file: most lines are known to be ASCII, which is then one test.
#[inline(always)]
pub(crate) fn text_of(line: &[u8], is_ascii: bool) -> Option<&str>
    requires { IsTrue is_ascii → IsAscii line.now }
    ensures text { IfSome result (λ text. (text.now ≡ line.now) × IsUtf8 line.now) }
    ensures none { IfNone result (¬ IsUtf8 line.now) }
{
    if is_ascii_line(line, is_ascii) {
        // Safe, and proved so: `is_ascii_line` returns `true` only if each byte is ASCII, and ASCII is UTF-8.
        return Some(unsafe { str::from_utf8_unchecked(line) });
    }
    str::from_utf8(line).ok()
}

/// Returns `true` if a line is ASCII. It is not tested if that is known.
#[inline(always)]
fn is_ascii_line(line: &[u8], is_known: bool) -> bool
    requires { IsTrue is_known → IsAscii line.now }
    ensures { IsTrue result → IsAscii line.now }
{
    is_known || line.is_ascii()
}
