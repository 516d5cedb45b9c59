//! Whether it is told which optional dependencies are left out.
ghost use Rattle.std.specs.Prelude.{◌≡◌, ◌↔◌, ◌<◌, All, IfOk, IsTrue};
ghost use Rattle.npm_trees.specs.LeftOut.{AreLeftOut, IsLeftOut};
ghost use Rattle.npm_trees.specs.Private.Folders.{AreUpward, IsIndexOf};

use crate::Result;
use crate::folders::{Folders, seen_from};
use crate::found::Found;
use crate::place::start_of;
use crate::tree::{Ask, Kind, Place};
use std::alloc::Global;

/// Returns `true` if just those that are left out are told.
pub(crate) fn are_left_out<'d>(
    alloc: Global,
    folders: &Folders<'d>,
    places: &[Place<'d>],
    asks: &[Ask<'d>],
    left_out: &[usize],
) -> Result<bool>
    requires index { IsIndexOf places.now folders.now }
    requires upward { AreUpward places.now }
    ensures { IfOk result (λ all. IsTrue all ↔ AreLeftOut places.now asks.now left_out.now) }
{
    if !are_below(left_out, asks.len()) {
        return Ok(false);
    }
    let mut told = Found::new(alloc);
    told.add_all(left_out)?;
    for number in 0..asks.len() {
        let is_told = told.has(number);
        let is_left = is_left_out(folders, places, &asks[number]);
        if !are_same(is_told, is_left) {
            return Ok(false);
        }
    }
    Ok(true)
}

fn are_same(one: bool, other: bool) -> bool
    ensures { IsTrue result ↔ (one ≡ other) }
{
    one == other
}

fn are_below(numbers: &[usize], bound: usize) -> bool
    ensures { IsTrue result ↔ All (λ number. number < bound) numbers.now }
{
    for number in numbers {
        if *number >= bound {
            return false;
        }
    }
    true
}

/// Returns `true` for an optional dependency that sees nothing.
fn is_left_out<'d>(folders: &Folders<'d>, places: &[Place<'d>], ask: &Ask<'d>) -> bool
    requires index { IsIndexOf places.now folders.now }
    requires upward { AreUpward places.now }
    ensures { IsTrue result ↔ IsLeftOut places.now ask.now }
{
    if ask.bundled {
        return false;
    }
    match ask.kind {
        Kind::Optional => { seen_from(folders, places, ask.name, start_of(places, ask)).is_none() }
        _ => false,
    }
}
