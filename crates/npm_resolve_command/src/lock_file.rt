//! The lock file that the arguments name.
ghost use Rattle.std.specs.Prelude.{IfOk, option_map};
ghost use Rattle.serde_json.specs.View.{view};
ghost use Rattle.npm_resolve_command.specs.LockFile as LockFiles;
ghost use Rattle.npm_resolve_command.specs.LockFile.{IsLockOf};

use crate::program_error::ProgramError;
use command_lines::Quoted;
use npm_packages::{Fault, Lock, lock_of};
use serde_json::Value;
use std::alloc::Global;

/// The value of a file, and the word that names the file.
#[derive(Drop)]
pub struct LockFile<'a> {
    pub path: &'a str,
    pub value: Value,
}

/// Returns the packages of the lock file, if there is one.
pub fn lock_in<'a, 'v>(
    alloc: Global,
    file: &'v Option<LockFile<'a>>,
) -> Result<Option<Lock<'v>>, ProgramError<'a>>
    ensures { IfOk result (LockFiles.IsLockIn (option_map (λ file. view file.value) file.now)) }
{
    match file {
        Some(file) => Ok(Some(lock_of_file(alloc, file)?)),
        None => Ok(None),
    }
}

/// The packages of a lock file.
fn lock_of_file<'a, 'v>(alloc: Global, file: &'v LockFile<'a>) -> Result<Lock<'v>, ProgramError<'a>>
    ensures { IfOk result (IsLockOf (view file.now.value)) }
{
    let quoted = Quoted { text: file.path };
    match lock_of(alloc, &file.value) {
        Ok(lock) => Ok(lock),
        Err(Fault::Version) => Err(ProgramError::LockVersion(quoted)),
        Err(fault) => Err(ProgramError::Lock(quoted, fault)),
    }
}

/// Checks that the lock file is one, if there is one.
pub fn check_lock_file<'a>(
    alloc: Global,
    file: &Option<LockFile<'a>>,
) -> Result<(), ProgramError<'a>> {
    match lock_in(alloc, file) {
        Ok(_) => Ok(()),
        Err(error) => Err(error),
    }
}
