//! What is picked in place of a version to avoid.
ghost use Rattle.std.specs.Prelude.{◌≡◌, IfOk, Ok, string_bytes};
ghost use Rattle.serde_json.specs.View.{view};
ghost use Rattle.npm_pick.specs.Pick as Picks;
ghost use Rattle.npm_pick.specs.Pick.{IsAnswer, IsPickedBeside, IsPickedOfAll, IsPickedStrictly, answer_value, picked_value};

use crate::error::PickError;
use crate::options::Options;
use crate::picked::{Picked, pick_for};
use serde_json::Value;
use std::alloc::{AllocError, Global};

/// Picks a version for the text, or another one if that should be avoided.
pub(crate) fn pick_strictly<'v>(
    alloc: Global,
    packument: &'v Value,
    wanted: &str,
    options: &Options<'_>,
) -> Result<Picked<'v>, PickError>
    ensures { IsAnswer (IsPickedStrictly (view packument.now) options.now wanted.now) (answer_value result) }
{
    let first = pick_for(alloc, packument, wanted, options)?;
    if first.is_avoided {
        pick_beside(alloc, packument, first.key, options)
    } else {
        Ok(first)
    }
}

/// Picks a version that is compatible with one to avoid, or else any.
fn pick_beside<'v>(
    alloc: Global,
    packument: &'v Value,
    key: &str,
    options: &Options<'_>,
) -> Result<Picked<'v>, PickError>
    ensures { IsAnswer (IsPickedBeside (view packument.now) options.now key.now) (answer_value result) }
{
    let compatible = caret_of(alloc, key)?;
    let second = pick_for(alloc, packument, compatible.as_str(), options)?;
    if second.is_avoided {
        pick_of_all(alloc, packument, options)
    } else {
        Ok(outside(second, false))
    }
}

/// Picks one of all versions.
fn pick_of_all<'v>(
    alloc: Global,
    packument: &'v Value,
    options: &Options<'_>,
) -> Result<Picked<'v>, PickError>
    ensures { IsAnswer (IsPickedOfAll (view packument.now) options.now) (answer_value result) }
{
    let third = pick_for(alloc, packument, "*", options)?;
    if third.is_avoided {
        Err(PickError::Avoided)
    } else {
        Ok(outside(third, true))
    }
}

/// The caret range of a version.
fn caret_of(alloc: Global, key: &str) -> Result<String, AllocError>
    ensures { IfOk result (λ text. string_bytes text ≡ Picks.caret_of key.now) }
{
    let mut text = String::from_str(alloc, "^")?;
    text.push_str(key)?;
    Ok(text)
}

/// The picked version, with the mark that it replaces a version to avoid.
fn outside<'v>(picked: Picked<'v>, is_major: bool) -> Picked<'v>
    ensures { Ok (picked_value result) ≡ Picks.outside is_major (Ok (picked_value picked.entry)) }
{
    Picked {
        is_outside: true,
        is_major,
        ..picked
    }
}
