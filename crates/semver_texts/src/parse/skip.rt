//! What is passed over at the start of a text: runs of bytes that pass a test, and marks of one byte.
//!
//! `#[inline(always)]` makes the test, a closure, part of the loop.
ghost use Rattle.std.specs.Prelude.{◌≡◌, ℕ, Bool, false, IfSome, IfNone, IsTrue};
ghost use Rattle.semver_texts.specs.Characters as Characters;
ghost use Rattle.semver_texts.specs.Reading as Reading;
ghost use Rattle.semver_texts.specs.Reading.{IsTest};

/// Returns the longest prefix whose bytes all pass the test, and the rest.
#[inline(always)]
pub fn split<F: Fn(u8) -> bool>(text: &[u8], passes: F) -> (&[u8], &[u8])
    requires { F.IsAlwaysCallable passes }
    ensures prefix { (test : ℕ → Bool) → IsTest (F.post passes) test → result.0.now ≡ Reading.prefix_of test text.now }
    ensures rest { (test : ℕ → Bool) → IsTest (F.post passes) test → result.1.now ≡ Reading.rest_of test text.now }
{
    'run: for i in 0..text.len() {
        if !passes(text[i]) {
            return (&text[..i], &text[i..]);
        }
    }
    (text, &text[text.len()..])
}

// The text without its first byte, if that passes the test.
#[inline(always)]
pub fn skip_one<F: Fn(u8) -> bool>(text: &[u8], passes: F) -> &[u8]
    requires { F.IsAlwaysCallable passes }
    ensures { (test : ℕ → Bool) → IsTest (F.post passes) test → result.now ≡ Reading.skip_one test text.now }
{
    match text {
        [first, rest @ ..] if passes(*first) => rest,
        _ => text,
    }
}

// A space or a tab.
#[inline(always)]
pub(crate) fn is_blank(byte: u8) -> bool
    ensures { result ≡ Characters.is_blank byte }
{
    byte == b' ' || byte == b'\t'
}

// `1.2` of ` 1.2`
#[inline(always)]
pub fn skip_blanks(text: &[u8]) -> &[u8]
    ensures { result.now ≡ Reading.rest_of Characters.is_blank text.now }
{
    split(text, is_blank).1
}

// The text without its leading blanks, or `None` if it has none.
#[inline(always)]
pub fn skip_some_blanks(text: &[u8]) -> Option<&[u8]>
    ensures some { IfSome result (λ rest. IsTrue (Reading.begins Characters.is_blank text.now)
        × (rest.now ≡ Reading.rest_of Characters.is_blank text.now)) }
    ensures none { IfNone result (Reading.begins Characters.is_blank text.now ≡ false) }
{
    match text {
        [first, ..] if is_blank(*first) => Some(skip_blanks(text)),
        _ => None,
    }
}

// Returns `true` if a word can end before this text.
#[inline(always)]
pub fn is_clean_end(text: &[u8]) -> bool
    ensures { result ≡ Reading.is_clean_end text.now }
{
    match text {
        [] => true,
        [first, ..] => is_blank(*first),
    }
}
