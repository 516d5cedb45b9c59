//! Reading a range text as npm does: one piece after another, each word by word.
ghost use Rattle.std.specs.Prelude.{◌≡◌, ◌↔◌, IfErr, IfOk, OnOk};
ghost use Rattle.semver_sets.specs.Division.{HasBars};
ghost use Rattle.semver_sets.specs.RangeSets.{IsRangeValue, sets_seen};
ghost use Rattle.semver_sets.specs.declared.read.Unread.TheVariants.{Refused};
ghost use Rattle.semver_texts.specs.Version.{VersionValue};
ghost use Rattle.npm_sets.specs.NpmMeaning as Meaning;
ghost use Rattle.npm_sets.specs.NpmMeaning.{AreNpmSets, IsNpmRefused, NpmSetsAdmit, NpmTextAdmits};
ghost use Rattle.npm_sets.specs.Rows as Rows;
ghost use Rattle.npm_sets.specs.Private.ReadViews.{IsAddedBy};

pub mod full;

use crate::NpmOptions;
use crate::piece::merge_piece;
use semver_cuts::{Cut, Span};
use semver_sets::read::alternative::CommonSpan;
use semver_sets::read::{Unread, first_piece};
use semver_sets::set_list::Sets;
use semver_sets::set_list::gathered::Gathered;
use semver_texts::end::EndVersion;
use std::alloc::Global;

/// Reads the sets of a range text as npm reads it: one for each piece whose comparators share a cut. If no piece's
/// comparators do, the only set is that of `<0.0.0-0`, which no version satisfies.
///
/// # Errors
///
/// Returns [`Unread::Refused`] if the text is refused, and [`Unread::OutOfMemory`] if an allocation fails.
///
/// # Memory
///
/// Allocates the identifiers of the ends, and a list with its index if there are several sets.
// `inline(always)`: it has one caller, and its sets are built in the place of that caller's result.
#[inline(always)]
pub fn read_npm(alloc: Global, text: &[u8], options: NpmOptions) -> Result<Sets, Unread>
    ensures sets { IfOk result (λ sets. AreNpmSets options text.now (sets_seen sets)) }
    ensures means { IfOk result (λ sets. (v : VersionValue)
        → NpmSetsAdmit options.include_prerelease (sets_seen sets) v ↔ NpmTextAdmits options text.now v) }
    ensures holds { IfOk result (λ sets. IsRangeValue (sets_seen sets)) }
    ensures refused { IfErr result (λ unread. unread ≡ Refused → IsNpmRefused options text.now) }
    ensures accepted { OnOk result (¬ IsNpmRefused options text.now) }
{
    match first_piece(text).1 {
        Some(_) => read_pieces(alloc, text, options),
        None => read_one(alloc, text, options),
    }
}

// Reads a text without `||`: its set needs no list.
#[inline(always)]
fn read_one(alloc: Global, text: &[u8], options: NpmOptions) -> Result<Sets, Unread>
    requires { ¬ HasBars text.now }
    ensures sets { IfOk result (λ sets. AreNpmSets options text.now (sets_seen sets)) }
    ensures means { IfOk result (λ sets. (v : VersionValue)
        → NpmSetsAdmit options.include_prerelease (sets_seen sets) v ↔ NpmTextAdmits options text.now v) }
    ensures holds { IfOk result (λ sets. IsRangeValue (sets_seen sets)) }
    ensures refused { IfErr result (λ unread. unread ≡ Refused → IsNpmRefused options text.now) }
    ensures accepted { OnOk result (¬ IsNpmRefused options text.now) }
{
    let mut common = CommonSpan::new();
    match merge_piece(alloc, text, options, &mut common) {
        Ok(found) => {
            if !found {
                return Err(Unread::Refused);
            }
        }
        Err(unread) => return Err(unread),
    }
    match common.into_set() {
        Some(set) => Ok(Sets::One(set)),
        None => Ok(Sets::One(no_versions())),
    }
}

// Calls `read_several`. With this function between, the toolchain clears the place of its result only if it is called.
#[inline(always)]
fn read_pieces(alloc: Global, text: &[u8], options: NpmOptions) -> Result<Sets, Unread>
    ensures sets { IfOk result (λ sets. AreNpmSets options text.now (sets_seen sets)) }
    ensures means { IfOk result (λ sets. (v : VersionValue)
        → NpmSetsAdmit options.include_prerelease (sets_seen sets) v ↔ NpmTextAdmits options text.now v) }
    ensures holds { IfOk result (λ sets. IsRangeValue (sets_seen sets)) }
    ensures refused { IfErr result (λ unread. unread ≡ Refused → IsNpmRefused options text.now) }
    ensures accepted { OnOk result (¬ IsNpmRefused options text.now) }
{
    read_several(alloc, text, options)
}

// Reads one piece after another. `inline(never)`: few texts have `||`.
#[inline(never)]
fn read_several(alloc: Global, text: &[u8], options: NpmOptions) -> Result<Sets, Unread>
    ensures sets { IfOk result (λ sets. AreNpmSets options text.now (sets_seen sets)) }
    ensures means { IfOk result (λ sets. (v : VersionValue)
        → NpmSetsAdmit options.include_prerelease (sets_seen sets) v ↔ NpmTextAdmits options text.now v) }
    ensures holds { IfOk result (λ sets. IsRangeValue (sets_seen sets)) }
    ensures refused { IfErr result (λ unread. unread ≡ Refused → IsNpmRefused options text.now) }
    ensures accepted { OnOk result (¬ IsNpmRefused options text.now) }
{
    let mut sets = Gathered::new(alloc);
    let mut found = false;
    let mut left = Some(text);
    while let Some(rest) = left {
        let (piece, later) = first_piece(rest);
        match add_piece(alloc, piece, options, &mut sets) {
            Ok(here) => {
                if here {
                    found = true;
                }
            }
            Err(unread) => return Err(unread),
        }
        left = later;
    }
    if !found {
        return Err(Unread::Refused);
    }
    match sets.into_sets() {
        Ok(Some(sets)) => Ok(sets),
        Ok(None) => Ok(Sets::One(no_versions())),
        Err(_) => Err(Unread::OutOfMemory),
    }
}

// `<0.0.0-0`
fn no_versions() -> Span<EndVersion>
    ensures { result ≡ Rows.no_versions }
{
    Span::between(Cut::Start, Cut::Before(EndVersion::least(0, 0, 0)))
}

// Adds the set of a piece, if it gives one. Returns `true` if the piece has a comparator.
fn add_piece(
    alloc: Global,
    piece: &[u8],
    options: NpmOptions,
    sets: &mut Gathered,
) -> Result<bool, Unread>
    ensures { IsAddedBy (Meaning.piece_comparators options piece.now) sets.old sets.new result }
{
    let mut common = CommonSpan::new();
    let found = merge_piece(alloc, piece, options, &mut common)?;
    match common.into_set() {
        Some(set) => {
            sets.add(set)?;
            Ok(found)
        }
        None => Ok(found),
    }
}
