//! The folder and the number that the arguments name.
use crate::argument_error::ArgumentError;
use crate::arguments::Arguments;
use command_lines::Quoted;
use npm_resolve::Reach;
use npm_resolve_reports::Format;

/// So many steps are done if `--steps` names no number.
const STEPS: u64 = 10_000_000;

/// Returns the folder of packuments. Manifests must be named too.
pub fn folder_of<'a>(asked: &Arguments<'a>) -> Result<&'a str, ArgumentError<'a>> {
    if asked.manifests.is_empty() {
        return Err(ArgumentError::NoManifest);
    }
    match asked.packuments {
        Some(packuments) => Ok(packuments),
        None => Err(ArgumentError::NoPackuments),
    }
}

/// Checks what a lock file needs: the dependencies of versions count, no group is left out, and there is one manifest.
pub fn check_lock<'a>(asked: &Arguments<'a>) -> Result<(), ArgumentError<'a>> {
    if asked.format != Format::Lock {
        return Ok(());
    }
    if asked.reach == Some(Reach::Peers) {
        return Err(ArgumentError::LockNotFlat);
    }
    if asked.omits.dev || asked.omits.optional || asked.omits.peer {
        return Err(ArgumentError::LockOmits);
    }
    if 1 < asked.manifests.len() {
        return Err(ArgumentError::LockOfManifests);
    }
    Ok(())
}

/// Checks that no argument has a meaning for a flat selection alone.
pub fn check_tree<'a>(asked: &Arguments<'a>) -> Result<(), ArgumentError<'a>> {
    if asked.omits.dev || asked.omits.optional || asked.omits.peer {
        return Err(ArgumentError::NotOfTrees("--omit"));
    }
    if asked.lowest {
        return Err(ArgumentError::NotOfTrees("--lowest"));
    }
    for (name, value) in [
        ("--os", asked.os),
        ("--cpu", asked.cpu),
        ("--libc", asked.libc),
    ] {
        if value.is_some() {
            return Err(ArgumentError::NotOfTrees(name));
        }
    }
    Ok(())
}

/// Returns the number of `--steps`.
pub fn steps_of<'a>(text: Option<&'a str>) -> Result<u64, ArgumentError<'a>> {
    let Some(text) = text else {
        return Ok(STEPS);
    };
    match text.parse::<u64>() {
        Ok(steps) => Ok(steps),
        Err(_) => Err(ArgumentError::Steps(Quoted { text })),
    }
}
