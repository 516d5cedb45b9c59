//! Members of `packages` that npm reads as another folder of the project.
//!
//! See docs/DECISIONS.md, "A key that npm reads as another folder is a fault".
ghost use Rattle.std.specs.Prelude.{IfErr, None, OnOk};
ghost use Rattle.serde_json.specs.View.{view};
ghost use Rattle.npm_lock.specs.OtherFolders.{IsFirstAnotherOf};
ghost use Rattle.npm_lock_check.specs.Private.Refusals.{IsFolderRefused};

use crate::checks::run_error::RunError;
use npm_lock::{Fault, SoundLock, key_read_as_another};
use npm_lock_findings::{FaultPath, FaultPlace};
use std::alloc::{AllocError, Global};

/// Fails if npm reads a member of `packages` as another folder of the project with this path. `text` is that of the lock file.
pub(crate) fn check_folders(
    alloc: Global,
    lock: &SoundLock<'_>,
    text: &str,
    project: &str,
) -> Result<(), RunError>
    ensures own { OnOk result (IsFirstAnotherOf (view lock.now) project.now None) }
    ensures refused { IfErr result (IsFolderRefused (view lock.now) project.now) }
{
    let Some(key) = key_read_as_another(lock, project) else {
        return Ok(());
    };
    match place_of(alloc, text, key) {
        Ok(found) => Err(RunError::NoLockFile(found)),
        Err(_) => Err(RunError::Memory),
    }
}

/// The place of this member of `packages` in the text.
fn place_of(alloc: Global, text: &str, key: &str) -> Result<FaultPlace, AllocError> {
    let names = ["packages", key];
    let path = FaultPath {
        fault: Fault::Folder,
        names: Vec::from_slice(alloc, &names)?,
    };
    let found = FaultPlace::in_text(alloc, text, &path)?;
    Ok(found)
}
