//! Reading a range text: one alternative after another, each word by word.
//!
//! See docs/DECISIONS.md, "A word is defined by its text, not by how it is found".
ghost use Rattle.std.specs.Prelude.{◌≡◌, ◌∷◌, [], IfErr, IfNone, IfOk, IfSome, OnOk};
ghost use Rattle.semver_sets.specs.Division.{HasFirstPiece, IsPieces};
ghost use Rattle.semver_sets.specs.Meaning.{IsRefused};
ghost use Rattle.semver_sets.specs.Merging.{AreSetsOfText};
ghost use Rattle.semver_sets.specs.RangeSets.{IsRangeValue, sets_seen};
ghost use Rattle.semver_sets.specs.Private.PieceReading.{piece_at, piece_seen};
ghost use Rattle.semver_sets.specs.Private.RangeViews.{IsOneMore, IsReadResultOf};
ghost use Rattle.semver_sets.specs.declared.read.Unread.TheVariants.{OutOfMemory, Refused};

pub mod alternative;
pub mod full;

use crate::set_list::Sets;
use crate::set_list::gathered::Gathered;
use crate::word::skip_ignored;
use alternative::read_set;
use memchr::memchr;
use semver_texts::parse::skip_blanks;
use std::alloc::{AllocError, Global};

/// Why a text was not read.
#[derive(Clone, Copy)]
pub enum Unread {
    /// No alternative has a comparator and a cut that lies in all its comparators.
    Refused,
    /// Nothing is wrong with the text: an allocation failed.
    OutOfMemory,
}

impl From<AllocError> for Unread {
    ghost from_gives = { λ _ unread. unread ≡ OutOfMemory };

    fn from(_error: AllocError) -> Unread {
        Unread::OutOfMemory
    }
}

impl Sets {
    /// Reads the sets of a range text: one for each alternative that has a comparator and a cut that lies in all its
    /// comparators.
    ///
    /// # Errors
    ///
    /// Returns [`Unread::Refused`] if there is no such alternative, and [`Unread::OutOfMemory`] if an allocation fails.
    ///
    /// # Memory
    ///
    /// Allocates the identifiers of the ends, and a list with its index if there are several sets.
    // `inline(always)`: it has one caller, and its sets are built in the place of that caller's result.
    #[inline(always)]
    pub fn read(alloc: Global, text: &[u8]) -> Result<Sets, Unread>
        ensures sets { IfOk result (λ sets. AreSetsOfText text.now (sets_seen sets)) }
        ensures holds { IfOk result (λ sets. IsRangeValue (sets_seen sets)) }
        ensures refused { IfErr result (λ unread. unread ≡ Refused → IsRefused text.now) }
        ensures accepted { OnOk result (¬ IsRefused text.now) }
    {
        let (piece, left) = next_piece(text);
        if let Some(others) = left {
            return read_pieces(alloc, piece, others);
        }
        // If no word can begin a comparator, nothing is prepared to read one.
        let words = skip_ignored(piece);
        if words.is_empty() {
            return Err(Unread::Refused);
        }
        match read_set(alloc, words) {
            Ok(Some(set)) => Ok(Sets::One(set)),
            Ok(None) => Err(Unread::Refused),
            Err(_) => Err(Unread::OutOfMemory),
        }
    }
}

// Calls `read_several`. With this function between, the toolchain clears the place of its result only if it is called.
#[inline(always)]
fn read_pieces(alloc: Global, first: &[u8], others: &[u8]) -> Result<Sets, Unread>
    ensures { IsReadResultOf first.now others.now result }
{
    read_several(alloc, first, others)
}

// Reads the first alternative, and then those of the text after the first `||`. `inline(never)`: few texts have `||`.
#[inline(never)]
fn read_several(alloc: Global, first: &[u8], others: &[u8]) -> Result<Sets, Unread>
    ensures { IsReadResultOf first.now others.now result }
{
    let mut sets = Gathered::new(alloc);
    add_alternative(alloc, &mut sets, first)?;
    let mut left = Some(others);
    while let Some(rest) = left {
        let (piece, later) = next_piece(rest);
        add_alternative(alloc, &mut sets, skip_blanks(piece))?;
        left = later;
    }
    match sets.into_sets() {
        Ok(Some(sets)) => Ok(sets),
        Ok(None) => Err(Unread::Refused),
        Err(_) => Err(Unread::OutOfMemory),
    }
}

// Adds the set of an alternative, if it gives one.
fn add_alternative(alloc: Global, sets: &mut Gathered, text: &[u8]) -> Result<(), AllocError>
    ensures { OnOk result (IsOneMore text.now sets.old sets.new) }
{
    match read_set(alloc, text) {
        Ok(Some(set)) => sets.add(set),
        Ok(None) => Ok(()),
        Err(error) => Err(error),
    }
}

/// Returns the text before the first `||`, and what follows the `||`: `1` and `|2` for `1|||2`. If there is no `||`,
/// returns the whole text and `None`.
///
/// # Memory
///
/// Does not allocate.
#[inline(always)]
pub fn first_piece(text: &[u8]) -> (&[u8], Option<&[u8]>)
    ensures first { IfSome result.1 (λ others. HasFirstPiece text.now result.0.now others.now) }
    ensures last { IfNone result.1 (IsPieces text.now (result.0.now ∷ [])) }
{
    next_piece(text)
}

// The text before the first `||` (or the whole text), and what follows the `||` if there is one: `1` and `|2` of
// `1|||2`. `inline(always)`: one loop over the bars, in each of its two callers.
#[inline(always)]
fn next_piece(text: &[u8]) -> (&[u8], Option<&[u8]>)
    ensures { piece_seen result ≡ piece_at text.now }
{
    let mut passed = 0;
    'bars: while let Some(at) = memchr(b'|', &text[passed..]) {
        let bar = passed + at;
        if let [b'|', b'|', after @ ..] = &text[bar..] {
            return (&text[..bar], Some(after));
        }
        passed = bar + 1;
    }
    (text, None)
}
