//! What the program does.
use crate::argument_error::ArgumentError;
use crate::arguments::Arguments;
use command_lines::Quoted;

/// What the program does, with the files for it.
#[derive(Clone, Copy, Drop)]
pub enum Task<'a> {
    /// Picks a version of the packument in a file.
    Pick {
        packument: &'a str,
        wanted: &'a str,
    },
    /// Compares a lock file with the packuments in a folder.
    Outdated {
        packuments: &'a str,
        lock: &'a str,
    },
    /// Lists what a mirror keeps of the packuments in a folder, for manifests and maybe a lock file.
    Keep {
        packuments: &'a str,
        lock: Option<&'a str>,
    },
}

/// Returns the task of the arguments.
pub fn task_of<'a>(asked: &Arguments<'a>) -> Result<Task<'a>, ArgumentError<'a>> {
    if asked.keep {
        return keep_task(asked);
    }
    if asked.outdated {
        return outdated_task(asked);
    }
    match asked.packument {
        Some(packument) => {
            let wanted = asked.spec.unwrap_or("");
            Ok(Task::Pick { packument, wanted })
        }
        None => Err(ArgumentError::NoPackument),
    }
}

/// The task of `--outdated`.
fn outdated_task<'a>(asked: &Arguments<'a>) -> Result<Task<'a>, ArgumentError<'a>> {
    let packuments = folder_of(asked, "--outdated")?;
    match asked.lock {
        Some(lock) => Ok(Task::Outdated { packuments, lock }),
        None => Err(ArgumentError::NoLock),
    }
}

/// The task of `--keep`.
fn keep_task<'a>(asked: &Arguments<'a>) -> Result<Task<'a>, ArgumentError<'a>> {
    if asked.outdated {
        return Err(ArgumentError::TwoTasks);
    }
    let packuments = folder_of(asked, "--keep")?;
    if asked.manifests.is_empty() && asked.lock.is_none() {
        return Err(ArgumentError::NoManifest);
    }
    Ok(Task::Keep {
        packuments,
        lock: asked.lock,
    })
}

/// The folder of packuments, for an option that takes one and no SPEC.
fn folder_of<'a>(
    asked: &Arguments<'a>,
    option: &'static str,
) -> Result<&'a str, ArgumentError<'a>> {
    if let Some(text) = asked.spec {
        return Err(ArgumentError::NoSpec(option, Quoted { text }));
    }
    match asked.packuments {
        Some(packuments) => Ok(packuments),
        None => Err(ArgumentError::NoPackuments(option)),
    }
}
