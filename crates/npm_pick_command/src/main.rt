//! Writes the version of a package that npm would install, from the document of a registry: npm's `npm-pick-manifest`. With
//! `--outdated` the dependencies of a lock file that are outdated: npm's `npm outdated`. With `--keep` the versions that a mirror
//! keeps.
//!
//! The exit status is 0 if a version is picked, nothing is outdated or each package has a document with all its installed versions, 1
//! if none is picked, something is outdated or a mirror has no document of a package or lacks an installed version, and 2 after an
//! error: a wrong argument, or a file that is not read.
//! A line on standard error says why no version is picked, and what the error is.
#![tactic(auto)]

ghost use Rattle.std.specs.Prelude.{◌≡◌, IfErr, None, Ok, Some, false, true};
ghost use Rattle.npm_pick_command.specs.Status.{status_of_ending};
ghost use Rattle.npm_pick_reports.specs.declared.reply.Ending.{Ending};

mod argument_error;
mod arguments;
mod help;
mod program_error;
mod task;

use arguments::{Arguments, read_arguments};
use command_lines::{Shown, words_of};
use help::{HELP, VERSION};
use npm_pick::Options;
use npm_pick_reports::{
    Ending, Question, RunError, before_of, file_value, manifests_at, node_of, npm_of, packument_in,
    reply_to, version_of,
};
use program_error::ProgramError;
use std::io;
use std::io::Write;
use std::process::ExitCode;
use task::{Task, task_of};

/// How the program ends, and the lines of the notes.
#[derive(Drop)]
struct Done {
    ending: Ending,
    notes: Vec<u8>,
}

/// Ends with the status of `status_of`.
fn main(rt: HostRuntime) -> ExitCode {
    let words = words_of(rt.alloc(), &rt);
    let outcome = match &words {
        Ok(words) => outcome_of(&rt, words),
        Err(error) => Err(ProgramError::Words(error)),
    };
    let (outcome, said) = match outcome {
        Ok(None) => (Ok(None), Ok(())),
        Ok(Some(done)) => {
            let said = say(&rt, &done);
            (Ok(Some(done.ending)), said)
        }
        Err(error) => {
            let said = eprintln!(rt; "npm_pick: {error}");
            (Err(error), said)
        }
    };
    ExitCode::from(status_of(&outcome, said.is_ok()))
}

/// Writes the lines for standard error.
fn say(rt: &HostRuntime, done: &Done) -> io::Result<()> {
    match done.ending {
        Ending::Picked | Ending::Compared(_, 0) => Ok(()),
        Ending::Compared(_, 1) => {
            eprintln!(rt; "npm_pick: 1 dependency has no document in the folder")
        }
        Ending::Compared(_, absent) => {
            eprintln!(rt; "npm_pick: {absent} dependencies have no document in the folder")
        }
        Ending::Nothing(error) => eprintln!(rt; "npm_pick: {error}"),
        Ending::Kept(_) => rt.stderr().write_all(done.notes.as_slice()),
    }
}

/// Does the task of the arguments. Returns how the program ends, or `None` if only a text about it was shown.
fn outcome_of<'a>(rt: &HostRuntime, words: &'a [String]) -> Result<Option<Done>, ProgramError<'a>> {
    let asked = read_arguments(rt.alloc(), words)?;
    if let Some(shown) = asked.shown {
        show(rt, shown)?;
        return Ok(None);
    }
    let task = task_of(&asked)?;
    let before = before_of(rt.alloc(), asked.before)?;
    let node = node_of(rt.alloc(), asked.node)?;
    let npm = npm_of(rt.alloc(), asked.npm)?;
    let mut options = options_of(asked.tag, asked.avoid, &node, &npm);
    options.before = before;
    options.avoid_strict = asked.avoid_strict;
    options.include_staged = asked.include_staged;
    let done = do_task(rt, task, &asked, &options)?;
    Ok(Some(done))
}

/// Returns the options of a pick, without a time and without what may be set or not.
fn options_of<'o>(
    tag: Option<&'o str>,
    avoid: Option<&'o str>,
    node: &'o Option<String>,
    npm: &'o Option<String>,
) -> Options<'o> {
    Options {
        default_tag: tag.unwrap_or("latest"),
        before: None,
        avoid,
        avoid_strict: false,
        include_staged: false,
        node: version_of(node),
        npm: version_of(npm),
    }
}

/// Writes a text about the program.
fn show(rt: &HostRuntime, shown: Shown) -> Result<(), RunError> {
    let text = match shown {
        Shown::Help => HELP,
        Shown::Version => VERSION,
    };
    match print!(rt; "{text}") {
        Ok(()) => Ok(()),
        Err(_) => Err(RunError::Write),
    }
}

/// Reads the files of a task, and does it.
fn do_task<'a>(
    rt: &HostRuntime,
    task: Task<'a>,
    asked: &Arguments<'a>,
    options: &Options<'_>,
) -> Result<Done, ProgramError<'a>> {
    match task {
        Task::Pick { packument, wanted } => {
            let value = file_value(rt, "--packument", packument)?;
            write_reply(rt, Question::Pick(&value, wanted), asked, options, "")
        }
        Task::Outdated { packuments, lock } => {
            let value = file_value(rt, "--lock", lock)?;
            write_reply(
                rt,
                Question::Outdated(&value, asked.all),
                asked,
                options,
                packuments,
            )
        }
        Task::Keep { packuments, lock } => {
            let manifests = manifests_at(rt, &asked.manifests)?;
            let lock = match lock {
                Some(lock) => Some(file_value(rt, "--lock", lock)?),
                None => None,
            };
            let question = Question::Keep(&manifests, lock.as_ref(), asked.all);
            write_reply(rt, question, asked, options, packuments)
        }
    }
}

/// Writes the reply to a question. Documents of packages are in this folder.
fn write_reply<'a>(
    rt: &HostRuntime,
    question: Question<'_>,
    asked: &Arguments<'a>,
    options: &Options<'_>,
    folder: &str,
) -> Result<Done, ProgramError<'a>> {
    let load = |name: &str| packument_in(rt, folder, name);
    let reply = reply_to(rt.alloc(), question, options, load)?;
    let lines = reply.lines(rt.alloc(), asked.format)?;
    let notes = reply.notes(rt.alloc())?;
    match rt.stdout().write_all(lines.as_slice()) {
        Ok(()) => Ok(Done {
            ending: reply.ending(),
            notes,
        }),
        Err(_) => Err(ProgramError::Run(RunError::Write)),
    }
}

/// Returns the exit status: 0 if a version is picked, nothing is outdated, each package that a mirror keeps has a document with all its
/// installed versions or a text was shown; 1 if no version is picked, something is outdated or such a document or version is not
/// there; and 2 after an error, or if the lines on standard error were not written.
fn status_of(outcome: &Result<Option<Ending>, ProgramError<'_>>, is_said: bool) -> u8
    ensures shown { outcome.now ≡ Ok None → is_said ≡ true → result ≡ 0 }
    ensures ended { (ending : Ending) → outcome.now ≡ Ok (Some ending) → is_said ≡ true
        → result ≡ status_of_ending ending }
    ensures stopped { IfErr outcome.now (λ _. result ≡ 2) }
    ensures unsaid { is_said ≡ false → result ≡ 2 }
{
    match outcome {
        Err(_) => 2,
        Ok(_) if !is_said => 2,
        Ok(Some(Ending::Nothing(_) | Ending::Compared(true, _) | Ending::Kept(false))) => 1,
        Ok(None | Some(Ending::Picked | Ending::Compared(false, _) | Ending::Kept(true))) => 0,
    }
}
