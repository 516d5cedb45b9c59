//! The versions of a document that a mirror keeps.
ghost use Rattle.std.specs.Prelude.{◌≢◌, IfOk, OnOk, map, string_bytes};
ghost use Rattle.std.specs.List.{All};
ghost use Rattle.serde_json.specs.View.{view};
ghost use Rattle.npm_pick.specs.Kept.{ArePicked, IsKept};
ghost use Rattle.npm_pick.specs.declared.error.PickError.TheVariants as Errors;
ghost use Rattle.npm_pick.specs.Private.Keeping.{AreGathered, IsKeyRead, IsPickAdded, key_value, texts_of};

use crate::Result;
use crate::admitted::{Admitting, ranges_of};
use crate::error::PickError;
use crate::key::{Key, in_order};
use crate::options::Options;
use crate::picked::pick;
use serde_json::Value;
use std::alloc::{AllocError, Global};

/// Returns the versions of a package that a mirror keeps for these texts, each a version, a tag or a range.
///
/// These are the versions that [`pick`] picks for the texts. With `all` they are also the versions in the range of one of
/// the texts that were published in time and that no policy restricts. A text for which none is picked adds none, and so does
/// one that is no range with `all`, as a URL or an alias.
///
/// The keys are in the order of their versions. Equal versions are in the order of their bytes, and keys that are no
/// versions, which only a tag can name, come first. No key is there twice.
///
/// `avoid` counts only for a pick: with `all` a version to avoid is kept if it is in a range.
///
/// # Errors
///
/// Only if an allocation fails.
///
/// # Memory
///
/// Allocates the list, the ranges of the texts, and what [`pick`] does. The keys borrow the document.
///
/// # Examples
///
/// Of 1.2.0, 1.3.0 and 2.0.0, where `latest` is 1.2.0, it keeps 1.2.0 and 2.0.0 for `^1`, `*` and `^2`. With `all` it keeps
/// 1.2.0 and 1.3.0 for `^1`.
pub fn keep<'v>(
    alloc: Global,
    packument: &'v Value,
    wanted: &[String],
    options: &Options<'_>,
    all: bool,
) -> Result<Vec<&'v str>>
    ensures { IfOk result (λ keys. IsKept (view packument.now) options.now all (map string_bytes wanted.now)
        (map (λ key. key.now) keys.items)) }
{
    let keys = gathered(alloc, packument, wanted, options, all)?;
    in_order(alloc, keys)
}

/// The keys that are picked and, if all are kept, those that are admitted.
fn gathered<'v>(
    alloc: Global,
    packument: &'v Value,
    wanted: &[String],
    options: &Options<'_>,
    all: bool,
) -> Result<Vec<Key<'v>>>
    ensures { IfOk result (λ keys. AreGathered (view packument.now) options.now all (map string_bytes wanted.now)
        (map key_value keys.items)) }
{
    let keys = picked_keys(alloc, packument, wanted, options)?;
    if !all {
        return Ok(keys);
    }
    let asked = Admitting {
        packument,
        options,
        ranges: ranges_of(alloc, wanted)?,
    };
    asked.with_all(keys)
}

/// The keys that are picked for the texts.
fn picked_keys<'v>(
    alloc: Global,
    packument: &'v Value,
    wanted: &[String],
    options: &Options<'_>,
) -> Result<Vec<Key<'v>>>
    ensures picked { IfOk result (λ keys. ArePicked (view packument.now) options.now (map string_bytes wanted.now)
        (texts_of (map key_value keys.items))) }
    ensures read { IfOk result (λ keys. All IsKeyRead (map key_value keys.items)) }
{
    let mut keys = Vec::new(alloc);
    for text in wanted {
        push_picked(alloc, packument, text.as_str(), options, &mut keys)?;
    }
    Ok(keys)
}

/// Adds the key that is picked for a text, if there is one.
fn push_picked<'v>(
    alloc: Global,
    packument: &'v Value,
    wanted: &str,
    options: &Options<'_>,
    keys: &mut Vec<Key<'v>>,
) -> Result<()>
    ensures { OnOk result (IsPickAdded (view packument.now) options.now wanted.now (map key_value keys.old.items)
        (map key_value keys.new.items)) }
{
    match pick(alloc, packument, wanted, options) {
        Ok(picked) => {
            keys.push(Key::of(picked.key))?;
            Ok(())
        }
        Err(error) => {
            unless_memory(error)?;
            Ok(())
        }
    }
}

/// Fails if an allocation failed.
fn unless_memory(error: PickError) -> Result<()>
    ensures { OnOk result (error ≢ Errors.Memory) }
{
    match error {
        PickError::Memory => Err(AllocError),
        _ => Ok(()),
    }
}
