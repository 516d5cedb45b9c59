//! White space, as JavaScript has it.
ghost use Rattle.std.specs.Prelude.{◌≡◌, ◌↔◌, ◌<◌, IsTrue, chars, length};
ghost use Rattle.std.specs.Char.{IsScalar};
ghost use Rattle.node_semver.specs.Versions.{MAX_LENGTH};
ghost use Rattle.npm_texts.specs.WhiteSpace as WhiteSpace;
ghost use Rattle.npm_texts.specs.WhiteSpace.{without_end, without_start};

use node_semver::MAX_LENGTH;

/// Returns `true` if the text has more than 256 characters.
pub fn is_long(text: &str) -> bool
    ensures { IsTrue result ↔ MAX_LENGTH < length (chars text.now) }
{
    text.len() > MAX_LENGTH && text.chars().count() > MAX_LENGTH
}

/// Returns the text without white space at its start.
pub fn without_white_start(text: &str) -> &str
    ensures { chars result.now ≡ without_start WhiteSpace.is_white (chars text.now) }
{
    let mut left = text.chars();
    'white: loop {
        let rest = left.as_str();
        match left.next() {
            Some(c) if is_white(c) => {}
            _ => return rest,
        }
    }
}

/// Returns the text without white space at its end.
pub fn without_white_end(text: &str) -> &str
    ensures { chars result.now ≡ without_end WhiteSpace.is_white (chars text.now) }
{
    let mut left = text.chars();
    'white: loop {
        let front = left.as_str();
        match left.next_back() {
            Some(c) if is_white(c) => {}
            _ => return front,
        }
    }
}

/// Returns the text without white space at its ends.
pub fn trimmed(text: &str) -> &str
    ensures { result.now ≡ WhiteSpace.trimmed text.now }
{
    without_white_end(without_white_start(text))
}

/// Returns `true` for the white space of JavaScript.
pub fn is_white(c: char) -> bool
    ensures white { result ≡ WhiteSpace.is_white c }
    ensures scalar { IsScalar c }
{
    match c {
        ' ' | '\t'..='\r' => true,
        '\u{a0}' | '\u{1680}' | '\u{2000}'..='\u{200a}' | '\u{2028}' | '\u{2029}' | '\u{202f}' =>
            true,
        '\u{205f}' | '\u{3000}' | '\u{feff}' => true,
        _ => false,
    }
}
