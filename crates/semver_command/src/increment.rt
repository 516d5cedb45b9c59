//! The version after an increment.
ghost use Rattle.std.specs.Prelude.{◌≡◌, ◌≢◌, ◌⊎◌, IfErr, IfOk, IsErrOf, option_map};
ghost use Rattle.semver_texts.specs.Identifier.{value_of};
ghost use Rattle.semver_command.specs.Increment.{IsIdentifierGiven, IsIncremented, IsNoIdentifier};
ghost use Rattle.semver_command.specs.Ranges.{text_value};

use crate::command_error::CommandError;
use crate::stopped::Stopped;
use node_semver::{Identifier, Version};
use npm_semver::{Bump, BumpError, IdentifierBase, inc, read_identifier};
use std::alloc::Global;

/// Returns the version after an increment, or `None` if there is none.
pub fn incremented(
    alloc: Global,
    version: &Version,
    bump: Bump,
    identifier: Option<&str>,
    base: IdentifierBase,
) -> Result<Option<Version>, CommandError>
    ensures version { IfOk result (IsIncremented bump (text_value identifier.entry) base version.now) }
    ensures identifier { IsErrOf result CommandError.Identifier → IsNoIdentifier (text_value identifier.entry) }
    ensures errors { IfErr result (λ error. error ≡ CommandError.Identifier ⊎ error ≡ CommandError.Stopped Stopped.Memory) }
{
    let given = given_identifier(alloc, identifier)?;
    match inc(alloc, version, bump, given.as_ref(), base) {
        Ok(bumped) => Ok(Some(bumped)),
        Err(error) => {
            stop_without_memory(error)?;
            Ok(None)
        }
    }
}

/// Fails if an increment was not made since an allocation failed.
fn stop_without_memory(error: BumpError) -> Result<(), Stopped>
    ensures refused { IfOk result (λ _. error ≢ BumpError.OutOfMemory) }
    ensures errors { IfErr result (λ e. e ≡ Stopped.Memory) }
{
    match error {
        BumpError::OutOfMemory => Err(Stopped::Memory),
        BumpError::NoIdentifier | BumpError::SameIdentifier | BumpError::NumberTooLarge => Ok(()),
    }
}

/// The identifier of the text after `--preid`; the empty text means none.
fn given_identifier(alloc: Global, text: Option<&str>) -> Result<Option<Identifier>, CommandError>
    ensures given { IfOk result (λ given. IsIdentifierGiven (text_value text.entry) (option_map value_of given)) }
    ensures refused { IsErrOf result CommandError.Identifier → IsNoIdentifier (text_value text.entry) }
    ensures errors { IfErr result (λ error. error ≡ CommandError.Identifier ⊎ error ≡ CommandError.Stopped Stopped.Memory) }
{
    let Some(text) = text else {
        return Ok(None);
    };
    if text.is_empty() {
        return Ok(None);
    }
    match read_identifier(alloc, text.as_bytes()) {
        Ok(Some(identifier)) => Ok(Some(identifier)),
        Ok(None) => Err(CommandError::Identifier),
        Err(_) => Err(CommandError::Stopped(Stopped::Memory)),
    }
}
