//! The texts that keys begin with.
ghost use Rattle.std.specs.Prelude.{◌≡◌, ◌≢◌, ◌≤◌, ◌∷◌, ℕ, List, IfNone, IfOk, IfSome, IsUtf8, IsTrue, length, string_bytes};
ghost use Rattle.semver_keys.specs.Private.Reading.{BeginsWithNoByte, BeginsWithNoText, IsByteRead, IsTextRead, written};

use std::alloc::{AllocError, Global};

// The text whose key the bytes begin with, as it is written, without the 0 that ends it, and the rest.
pub(crate) fn read_text(key: &[u8]) -> Option<(&[u8], &[u8])>
    ensures read { IfSome result (λ r. IsTextRead key.now r.0.now r.1.now) }
    ensures none { IfNone result (BeginsWithNoText key.now) }
{
    let mut rest = key;
    'bytes: while let Some((_, others)) = read_byte(rest) {
        rest = others;
    }
    let Some((end, others)) = rest.split_first() else {
        return None;
    };
    if *end != 0 {
        return None;
    }
    Some((&key[..key.len() - rest.len()], others))
}

// The byte that the bytes begin with, as it is written in a text, and the rest. `inline`: it is the body of a loop.
#[inline]
fn read_byte(key: &[u8]) -> Option<(u8, &[u8])>
    ensures read { IfSome result (λ r. IsByteRead key.now r.0 r.1.now) }
    ensures none { IfNone result (BeginsWithNoByte key.now) }
{
    let Some((first, rest)) = key.split_first() else {
        return None;
    };
    let first = *first;
    if first > 1 {
        return Some((first, rest));
    }
    if first == 0 {
        return None;
    }
    read_low_byte(rest)
}

// What is written after a byte 1, the byte 0 or 1 of a text, and the rest.
fn read_low_byte(rest: &[u8]) -> Option<(u8, &[u8])>
    ensures read { IfSome result (λ r. IsByteRead (1 ∷ rest.now) r.0 r.1.now) }
    ensures none { IfNone result (BeginsWithNoByte (1 ∷ rest.now)) }
{
    let Some((second, others)) = rest.split_first() else {
        return None;
    };
    let second = *second;
    if second == 0 || second > 2 {
        return None;
    }
    Some((second - 1, others))
}

// The text that is written as these bytes.
pub(crate) fn text_of(alloc: Global, bytes: &[u8]) -> Result<Option<String>, AllocError>
    ensures text { IfOk result (λ found. IfSome found (λ text. written (string_bytes text) ≡ bytes.now)) }
    ensures none { IfOk result (λ found. IfNone found ((text : List ℕ) → IsUtf8 text → written text ≢ bytes.now)) }
{
    if is_plain(bytes) {
        return plain_text(alloc, bytes);
    }
    odd_text(alloc, bytes)
}

// Returns `true` if no byte is written as two.
fn is_plain(bytes: &[u8]) -> bool
    ensures { IsTrue result → written bytes.now ≡ bytes.now }
{
    'bytes: for byte in bytes {
        if *byte < 2 {
            return false;
        }
    }
    true
}

// The text with these bytes.
fn plain_text(alloc: Global, bytes: &[u8]) -> Result<Option<String>, AllocError>
    requires { written bytes.now ≡ bytes.now }
    ensures text { IfOk result (λ found. IfSome found (λ text. written (string_bytes text) ≡ bytes.now)) }
    ensures none { IfOk result (λ found. IfNone found ((text : List ℕ) → IsUtf8 text → written text ≢ bytes.now)) }
{
    match std::str::from_utf8(bytes) {
        Ok(text) => Ok(Some(String::from_str(alloc, text)?)),
        Err(_) => Ok(None),
    }
}

// The text with these bytes, if it has a byte 0 or 1. `inline(never)`: only versions that are made by hand have one.
#[inline(never)]
fn odd_text(alloc: Global, bytes: &[u8]) -> Result<Option<String>, AllocError>
    ensures text { IfOk result (λ found. IfSome found (λ text. written (string_bytes text) ≡ bytes.now)) }
    ensures none { IfOk result (λ found. IfNone found ((text : List ℕ) → IsUtf8 text → written text ≢ bytes.now)) }
{
    match decoded(alloc, bytes)? {
        None => Ok(None),
        Some(text) => Ok(utf8_of(text)),
    }
}

// The text with these bytes, if they are UTF-8.
fn utf8_of(bytes: Vec<u8>) -> Option<String>
    ensures text { IfSome result (λ text. string_bytes text ≡ bytes.items) }
    ensures none { IfNone result (¬ IsUtf8 bytes.items) }
{
    match String::from_utf8(bytes) {
        Ok(text) => Some(text),
        Err(_) => None,
    }
}

// The bytes that are written as these.
fn decoded(alloc: Global, bytes: &[u8]) -> Result<Option<Vec<u8>>, AllocError>
    ensures text { IfOk result (λ found. IfSome found (λ text. written text.items ≡ bytes.now)) }
    ensures none { IfOk result (λ found. IfNone found ((text : List ℕ) → written text ≢ bytes.now)) }
{
    let mut text = Vec::with_capacity(alloc, decoded_length(bytes))?;
    let mut rest = bytes;
    'bytes: while let Some((byte, others)) = read_byte(rest) {
        text.push(byte)?;
        rest = others;
    }
    if rest.is_empty() {
        Ok(Some(text))
    } else {
        Ok(None)
    }
}

// How many bytes are written as these.
fn decoded_length(bytes: &[u8]) -> usize {
    let mut length = 0;
    let mut rest = bytes;
    'bytes: while let Some((_, others)) = read_byte(rest) {
        length += 1;
        rest = others;
    }
    length
}
