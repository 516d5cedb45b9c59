//! What a step leads to, at an offset.
ghost use Rattle.std.specs.Prelude.{◌≡◌, ◌≤◌, IfOk, length, true};
ghost use Rattle.json.specs.Reads.{token_of};
ghost use Rattle.json_places.specs.Places.{IsAfterMark, IsItemAt, IsNameAt, IsStepAt, begins_value, is_mark};
ghost use Rattle.json_places.specs.Places.{is_white_space};
ghost use Rattle.json_places.specs.Steps.{step_value};

use crate::path::Step;
use json::{Reader, Scratch, Token};
use std::alloc::AllocError;

/// Returns whether what a step leads to begins at this offset: the name of its member, or an item.
pub fn is_step_at(
    scratch: &mut Scratch,
    text: &str,
    offset: usize,
    step: Step<'_>,
) -> Result<bool, AllocError>
    ensures { IfOk result (λ is. is ≡ true → IsStepAt text.now offset (step_value step.entry)) }
{
    match step {
        Step::Member(name) => is_name_at(scratch, text, offset, name),
        Step::Item(_) => is_item_at(scratch, text, offset),
    }
}

/// Returns whether the name of a member begins at this offset, and is this one.
fn is_name_at(
    scratch: &mut Scratch,
    text: &str,
    offset: usize,
    name: &str,
) -> Result<bool, AllocError>
    ensures { IfOk result (λ is_name. is_name ≡ true → IsNameAt text.now offset name.now) }
{
    if text.len() <= offset || text.as_bytes()[offset] != b'"' || !text.is_char_boundary(offset) {
        return Ok(false);
    }
    let mut reader = Reader::new(&text[offset..], scratch)?;
    match reader.next() {
        Some(Token::Key(key)) => Ok(key == name),
        _ => Ok(false),
    }
}

/// Returns whether an item of a list begins at this offset.
fn is_item_at(scratch: &mut Scratch, text: &str, offset: usize) -> Result<bool, AllocError>
    ensures { IfOk result (λ is_item. is_item ≡ true → IsItemAt text.now offset) }
{
    if text.len() <= offset
        || is_white_space(text.as_bytes()[offset])
        || !text.is_char_boundary(offset)
    {
        return Ok(false);
    }
    if !is_after_mark(text.as_bytes(), offset) {
        return Ok(false);
    }
    let mut reader = Reader::new(&text[offset..], scratch)?;
    match reader.next() {
        Some(token) => Ok(begins_value(token)),
        None => Ok(false),
    }
}

/// Returns whether a value begins with this token.
fn begins_value(token: Token<'_>) -> bool
    ensures { result ≡ begins_value (token_of token.entry) }
{
    match token {
        Token::BeginObject
        | Token::BeginArray
        | Token::String(_)
        | Token::Number(_)
        | Token::Bool(_)
        | Token::Null => true,
        Token::EndObject | Token::EndArray | Token::Key(_) | Token::Bad => false,
    }
}

/// Returns whether `[` or a comma comes before this offset, with nothing or only white space between.
fn is_after_mark(text: &[u8], offset: usize) -> bool
    requires { offset ≤ length text.now }
    ensures { result ≡ true → IsAfterMark text.now offset }
{
    let mut at = offset;
    while 0 < at {
        let byte = text[at - 1];
        if is_mark(byte) {
            return true;
        }
        if !is_white_space(byte) {
            return false;
        }
        at -= 1;
    }
    false
}

/// Returns whether a byte is `[` or a comma.
fn is_mark(byte: u8) -> bool
    ensures { result ≡ is_mark byte }
{
    byte == b'[' || byte == b','
}

/// Returns whether a byte is JSON's white space.
fn is_white_space(byte: u8) -> bool
    ensures { result ≡ is_white_space byte }
{
    byte == b' ' || byte == b'\t' || byte == b'\n' || byte == b'\r'
}
