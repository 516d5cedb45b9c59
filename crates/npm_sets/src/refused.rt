//! Where a text is refused in strict form: at its first word that is no comparator. Only a text that was refused is read
//! here, and once more from its start.
ghost use Rattle.std.specs.Prelude.{◌≡◌, ℕ, List, IfOk, is_ok, false};
ghost use Rattle.npm_sets.specs.NpmMeaning.{IsNpmRefused, word_comparator};
ghost use Rattle.npm_sets.specs.RefusedPlace.{HasOnePlace, IsRefusalOffset, IsRefusedAt};
ghost use Rattle.npm_sets.specs.declared.options.NpmOptions.{NpmOptions};
ghost use Rattle.npm_sets.specs.Spaces.{with_plain_spaces};
ghost use Rattle.npm_sets.specs.declared.words.Lead.{Lead};
ghost use Rattle.npm_sets.specs.Private.ReadViews.{some_seen};
ghost use Rattle.npm_sets.specs.Private.RefusedViews.{IsPieceEnd, IsPlace, IsWordsEnd};

use crate::NpmOptions;
use crate::partial::read_side;
use crate::piece::{begins_comparator, read_hyphen};
use crate::spaces::{length_before, with_plain_spaces};
use crate::words::{read_word, skip_space};
use semver_sets::read::first_piece;
use std::alloc::{AllocError, Global};

/// Returns the byte offset at which a text is refused: in strict form that of its first word that is no comparator, and 0
/// in loose form.
///
/// # Errors
///
/// Returns an error if an allocation fails.
///
/// # Memory
///
/// Allocates a copy of a text that is not in ASCII, for the time of the call.
pub fn refused_offset(alloc: Global, text: &str, options: NpmOptions) -> Result<usize, AllocError>
    requires { IsNpmRefused options (with_plain_spaces text.now) }
    ensures { IfOk result (IsRefusalOffset options text.now) }
{
    if options.loose {
        return Ok(0);
    }
    strict_offset(alloc, text, options)
}

// Returns the byte offset at which a text is refused in strict form.
fn strict_offset(alloc: Global, text: &str, options: NpmOptions) -> Result<usize, AllocError>
    requires strict { options.loose ≡ false }
    requires refused { IsNpmRefused options (with_plain_spaces text.now) }
    ensures { IfOk result (IsRefusedAt options text.now) }
{
    if text.is_ascii() {
        return Ok(refused_place(text.as_bytes(), options));
    }
    let plain = with_plain_spaces(alloc, text)?;
    Ok(length_before(text, refused_place(plain.as_str().as_bytes(), options)))
}

// Returns the byte offset at which a text without white space outside ASCII is refused in strict form.
fn refused_place(text: &[u8], options: NpmOptions) -> usize
    requires strict { options.loose ≡ false }
    requires refused { IsNpmRefused options text.now }
    ensures { IsPlace options text.now result }
{
    let mut left = Some(text);
    while let Some(rest) = left {
        let (piece, later) = first_piece(rest);
        match refused_end(piece, options) {
            Some(end) => return (text.len() - rest.len()) + (piece.len() - end.len()),
            None => left = later,
        }
    }
    text.len()
}

// What is left of a piece from its first word on that is no comparator, or `None` if the piece is read.
fn refused_end(piece: &[u8], options: NpmOptions) -> Option<&[u8]>
    requires { options.loose ≡ false }
    ensures { IsPieceEnd options piece.now (some_seen result) }
{
    let text = skip_space(piece);
    if text.is_empty() {
        return None;
    }
    if !begins_comparator(text) {
        return Some(text);
    }
    match read_hyphen(text, options) {
        Some(_) => None,
        None => refused_word(piece, options),
    }
}

// What is left of the words of a piece from the first on that is no comparator, or `None` if there is none.
fn refused_word(piece: &[u8], options: NpmOptions) -> Option<&[u8]>
    ensures { IsWordsEnd options piece.now (some_seen result) }
{
    let mut rest = skip_space(piece);
    while !rest.is_empty() {
        let (_, operand, others) = read_word(rest);
        if !is_comparator(operand, options) {
            return Some(rest);
        }
        rest = others;
    }
    None
}

// Returns `true` if a word with this operand is a comparator, whatever its lead.
fn is_comparator(operand: &[u8], options: NpmOptions) -> bool
    ensures { (lead : Lead) → result ≡ is_ok (word_comparator options (lead, operand.now)) }
{
    read_side(options.loose, operand).is_ok()
}

/// A text is refused at one place at most in strict form, and a text with such a place is refused.
///
/// This function does nothing: its contract is the law.
pub fn a_refused_text_has_one_place()
    ensures one { (options : NpmOptions) (text : List ℕ) → HasOnePlace options text }
    ensures refused { (options : NpmOptions) (text : List ℕ) (offset : ℕ) → IsRefusedAt options text offset
        → IsNpmRefused options (with_plain_spaces text) }
{}
