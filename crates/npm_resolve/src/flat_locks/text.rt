//! The text of a lock file.
ghost use Rattle.std.specs.Prelude.{IfOk};
ghost use Rattle.serde_json.specs.View.{view};
ghost use Rattle.npm_resolve.specs.LockText.{IsLockText};

use crate::Result;
use serde_json::Value;
use std::alloc::Global;

/// Returns the text of a lock file: a line for each member and item, with two spaces for each level, and a newline at the end.
///
/// # Errors
///
/// An allocation failed.
///
/// # Memory
///
/// Allocates the text.
pub fn lock_text(alloc: Global, lock: &Value) -> Result<Vec<u8>>
    ensures { IfOk result (λ text. IsLockText (view lock.now) text.items) }
{
    let mut text = lock.to_vec_pretty(alloc)?;
    text.extend_from_slice(b"\n")?;
    Ok(text)
}
