//! Writes npm's tree of folders, or versions of packages that fit together, for manifests and a folder of documents, or says what cannot be
//! met.
//!
//! The exit status is 0 if there is a tree or versions fit together, 1 if not, 3 if the steps were used up before either was known, and 2
//! after an error: a wrong argument, a file that is not read, or rules in `overrides` that are not read for a lock file. A line on standard
//! error says what the error is, and which dependencies are left out.
#![tactic(auto)]

ghost use Rattle.std.specs.Prelude.{◌≡◌, IfErr, None, Ok, Some, false, true};
ghost use Rattle.npm_resolve_command.specs.Status.{status_of_ending};
ghost use Rattle.npm_resolve_reports.specs.declared.reply.Ending.{Ending};

mod argument_error;
mod arguments;
mod help;
mod lock_file;
mod program_error;
mod values;
mod workspaces;

use arguments::{Arguments, read_arguments};
use command_lines::{Quoted, Shown, words_of};
use help::{HELP, VERSION};
use lock_file::{LockFile, check_lock_file, lock_in};
use npm_pick_reports::{before_of, file_value, manifests_at, node_of, packument_in, version_of};
use npm_resolve::{Options, Reach};
use npm_resolve_reports::{Done, Ending, Format, Platform, Question, RunError, run};
use npm_tree_building::Manifest;
use npm_tree_reports::TreeError;
use program_error::ProgramError;
use serde_json::Value;
use std::alloc::{AllocError, Global};
use std::io::Write;
use std::process::ExitCode;
use std::{fs, io};
use values::{check_lock, check_tree, folder_of, steps_of};
use workspaces::folders_of;

/// Ends with the status of `status_of`.
fn main(rt: HostRuntime) -> ExitCode {
    let words = words_of(rt.alloc(), &rt);
    let outcome = match &words {
        Ok(words) => outcome_of(&rt, words),
        Err(error) => Err(ProgramError::Words(error)),
    };
    let (outcome, said) = match outcome {
        Ok(None) => (Ok(None), Ok(())),
        Ok(Some((done, reach))) => {
            let said = say(&rt, &done, reach);
            (Ok(Some(done.ending)), said)
        }
        Err(error) => {
            let said = eprintln!(rt; "npm_resolve: {error}");
            (Err(error), said)
        }
    };
    ExitCode::from(status_of(&outcome, said.is_ok()))
}

/// Writes the lines for standard error. Those of a tree, of which no reach is asked for, say all.
fn say(rt: &HostRuntime, done: &Done, reach: Option<Reach>) -> io::Result<()> {
    rt.stderr().write_all(done.notes.as_slice())?;
    match (done.ending, reach) {
        (Ending::NoSelection, Some(Reach::Dependencies)) => eprintln!(rt;
            "npm_resolve: --flat selects one version of each package; npm may install several"
        ),
        (Ending::Undecided, Some(_)) => {
            eprintln!(rt; "npm_resolve: the steps are used up; --steps allows more")
        }
        (Ending::Unread, _) => eprintln!(rt;
            "npm_resolve: --format lock writes no lock file if overrides are not read"
        ),
        (Ending::Selected | Ending::NoSelection | Ending::Undecided, _) => Ok(()),
    }
}

/// Does what the arguments ask. Returns how the program ends, and what counts of a version unless it wrote a tree, or `None` if only a text
/// about it was shown.
fn outcome_of<'a>(
    rt: &HostRuntime,
    words: &'a [String],
) -> Result<Option<(Done, Option<Reach>)>, ProgramError<'a>> {
    let asked = read_arguments(rt.alloc(), words)?;
    if let Some(shown) = asked.shown {
        show(rt, shown)?;
        return Ok(None);
    }
    let done = match asked.reach {
        Some(reach) => write_selection(rt, &asked, reach)?,
        None => write_tree(rt, &asked)?,
    };
    Ok(Some((done, asked.reach)))
}

/// Writes a text about the program.
fn show(rt: &HostRuntime, shown: Shown) -> Result<(), RunError> {
    let text = match shown {
        Shown::Help => HELP,
        Shown::Version => VERSION,
    };
    match print!(rt; "{text}") {
        Ok(()) => Ok(()),
        Err(_) => Err(RunError::Write),
    }
}

/// Reads the manifests, and writes the versions that fit together for them. Documents of packages are in a folder.
fn write_selection<'a>(
    rt: &HostRuntime,
    asked: &Arguments<'a>,
    reach: Reach,
) -> Result<Done, ProgramError<'a>> {
    let folder = folder_of(asked)?;
    let steps = steps_of(asked.steps)?;
    let before = before_of(rt.alloc(), asked.before)?;
    check_lock(asked)?;
    let node_text = node_of(rt.alloc(), asked.node)?;
    let node_version = version_of(&node_text);
    let node = node_version.as_ref();
    let manifests = manifests_at(rt, &asked.manifests)?;
    check_folder(rt, folder)?;
    let lock_file = lock_file_at(rt, asked.lock)?;
    let lock = lock_in(rt.alloc(), &lock_file)?;
    let question = Question {
        manifests: &manifests,
        options: Options {
            default_tag: asked.tag.unwrap_or("latest"),
            before,
            node,
            is_lowest: asked.lowest,
            lock,
        },
        reach,
        omits: asked.omits,
        platform: Platform {
            os: asked.os,
            cpu: asked.cpu,
            libc: asked.libc,
        },
        steps,
    };
    let load = |name: &str| packument_in(rt, folder, name);
    let done = run(rt.alloc(), question, asked.format, load, &mut rt.stdout())?;
    Ok(done)
}

/// Reads the manifests, and writes npm's tree of folders for them. Documents of packages are in a folder.
fn write_tree<'a>(rt: &HostRuntime, asked: &Arguments<'a>) -> Result<Done, ProgramError<'a>> {
    let folder = folder_of(asked)?;
    let steps = steps_of(asked.steps)?;
    let before = before_of(rt.alloc(), asked.before)?;
    check_tree(asked)?;
    let folders = folders_of(rt.alloc(), &asked.manifests)?;
    let node = node_of(rt.alloc(), asked.node)?;
    let values = manifests_at(rt, &asked.manifests)?;
    check_folder(rt, folder)?;
    let lock = lock_file_at(rt, asked.lock)?;
    check_lock_file(rt.alloc(), &lock)?;
    let tag = asked.tag.unwrap_or("latest");
    let done = write_tree_of(
        rt,
        folder,
        asked.format,
        &folders,
        &values,
        value_of(&lock),
        tag,
        before,
        text_of(&node),
        steps,
    )?;
    Ok(done)
}

/// Writes npm's tree of folders for manifests in these folders.
fn write_tree_of(
    rt: &HostRuntime,
    folder: &str,
    format: Format,
    folders: &[String],
    values: &[Value],
    lock: Option<&Value>,
    default_tag: &str,
    before: Option<i128>,
    node: Option<&str>,
    steps: u64,
) -> Result<Done, TreeError> {
    let manifests = placed(rt.alloc(), folders, values)?;
    let question = npm_tree_reports::Question {
        manifests: &manifests,
        lock,
        default_tag,
        before,
        node,
        steps,
    };
    let load = |name: &str| packument_in(rt, folder, name);
    npm_tree_reports::run(rt.alloc(), question, format, load, &mut rt.stdout())
}

/// The manifests with their folders.
fn placed<'v>(
    alloc: Global,
    folders: &'v [String],
    values: &'v [Value],
) -> Result<Vec<Manifest<'v>>, AllocError> {
    let mut manifests = Vec::with_capacity(alloc, values.len())?;
    for (at, value) in folders.iter().zip(values) {
        manifests.push(Manifest {
            at: at.as_str(),
            value,
        })?;
    }
    Ok(manifests)
}

/// The value of a lock file.
fn value_of<'v>(file: &'v Option<LockFile<'_>>) -> Option<&'v Value> {
    match file {
        Some(file) => Some(&file.value),
        None => None,
    }
}

/// A text, borrowed.
fn text_of(text: &Option<String>) -> Option<&str> {
    match text {
        Some(text) => Some(text.as_str()),
        None => None,
    }
}

/// Checks that the folder of packuments is there.
fn check_folder<'a>(rt: &HostRuntime, folder: &'a str) -> Result<(), ProgramError<'a>> {
    match fs::metadata(rt, folder) {
        Ok(found) if found.is_dir() => Ok(()),
        Ok(_) | Err(_) => Err(ProgramError::NoFolder(Quoted { text: folder })),
    }
}

/// Reads the lock file, if one is named.
fn lock_file_at<'a>(
    rt: &HostRuntime,
    path: Option<&'a str>,
) -> Result<Option<LockFile<'a>>, ProgramError<'a>> {
    let Some(path) = path else {
        return Ok(None);
    };
    let value = file_value(rt, "--lock", path)?;
    Ok(Some(LockFile { path, value }))
}

/// Returns the exit status: 0 if versions fit together or a text was shown, 1 if none do, 3 if the steps were used up before either was
/// known, and 2 after an error, if no lock file was written since rules are not read, or if the lines on standard error were not written.
fn status_of(outcome: &Result<Option<Ending>, ProgramError<'_>>, is_said: bool) -> u8
    ensures shown { outcome.now ≡ Ok None → is_said ≡ true → result ≡ 0 }
    ensures ended { (ending : Ending) → outcome.now ≡ Ok (Some ending) → is_said ≡ true
        → result ≡ status_of_ending ending }
    ensures stopped { IfErr outcome.now (λ _. result ≡ 2) }
    ensures unsaid { is_said ≡ false → result ≡ 2 }
{
    match outcome {
        Err(_) => 2,
        Ok(_) if !is_said => 2,
        Ok(Some(Ending::NoSelection)) => 1,
        Ok(Some(Ending::Unread)) => 2,
        Ok(Some(Ending::Undecided)) => 3,
        Ok(None | Some(Ending::Selected)) => 0,
    }
}
