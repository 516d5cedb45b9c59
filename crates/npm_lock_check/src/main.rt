//! Reads lock files, and writes each dependency that is missing or has a version that its spec does not admit. With `--node VERSION` also
//! each package whose `engines.node` does not admit it, with `--manifest FILE` also where the root's manifest and the lock file differ, and
//! with `--advisories FILE` each package that an advisory hits, but for those that a file after `--exceptions` excepts.
//!
//! The exit status is 0 if nothing was found, 1 if something was, and 2 if a lock file was not checked: then a line on standard error says
//! why. It is also 2 if that line, or the one that counts, is not written.
#![tactic(auto)]

mod arguments;
mod checks;
mod inputs;
mod lines;
mod program_error;
mod runs;

use arguments::{ArgumentError, Arguments, NUMBER, Paths, command, node_of, usage_of};
use checks::{
    Format, Kinds, ListName, Output, PlacedFault, RunError, StopError, Wanted, checked_in,
};
use clap::error::ErrorKind;
use clap::{ArgMatches, Error};
use command_lines::{Quoted, Watched, open_error, words_of};
use inputs::{Advisories, Excepting, FIRST_DAY, Inputs, inputs_of};
use lines::write_lines;
use node_semver::Version;
use npm_lock_findings::PageFormat;
use npm_lock_reports::{Exceptions, Report, ReportFormat};
use npm_manifest_files::{folder_of, manifest_in, manifests_of, with_workspaces};
use program_error::ProgramError;
use runs::{Subject, Writing, run, status_of, stop_text, subject_of};
use serde_json::Value;
use std::fs::{File, canonicalize};
use std::io::{IsTerminal, Read, Write};
use std::mem::forget;
use std::process::ExitCode;

/// What each lock file is checked with.
#[derive(Drop)]
struct Beside<'a, 'r, 'e> {
    asked: &'r Arguments<'a>,
    writing: Writing<'a>,
    node: Option<Version>,
    manifest: Option<Value>,
    advisories: Option<Advisories>,
    exceptions: Option<Exceptions<'e>>,
}

/// Ends with the status of the run, or with 2 if it did not begin.
fn main(rt: HostRuntime) -> ExitCode {
    let words = words_of(rt.alloc(), &rt);
    let outcome = match &words {
        Ok(words) => run_words(&rt, words),
        Err(error) => Err(ProgramError::Words(error)),
    };
    let status = match &outcome {
        Ok(status) => *status,
        Err(error) => match eprintln!(rt; "npm_lock_check: {error}") {
            Ok(()) | Err(_) => 2,
        },
    };
    ExitCode::from(status)
}

/// Does what the words say. Returns the exit status.
fn run_words<'a>(rt: &HostRuntime, words: &'a [String]) -> Result<u8, ProgramError<'a>> {
    let Ok(command) = command(rt.alloc()) else {
        return Err(no_memory());
    };
    match command.try_get_matches_from(words) {
        Ok(found) => run_found(rt, &found),
        Err(error) => show(rt, &error),
    }
}

/// Writes the text that the words ask for, or says why they are not read. Returns the exit status.
fn show<'a>(rt: &HostRuntime, error: &Error) -> Result<u8, ProgramError<'a>> {
    match error.kind() {
        ErrorKind::DisplayHelp | ErrorKind::DisplayVersion => match print!(rt; "{error}") {
            Ok(()) => Ok(0),
            Err(_) => Err(stop_error(RunError::Write)),
        },
        ErrorKind::OutOfMemory => Err(no_memory()),
        _ => match usage_of(rt.alloc(), error) {
            Ok(usage) => Err(ProgramError::Usage(usage)),
            Err(_) => Err(no_memory()),
        },
    }
}

/// Does what the arguments say. Returns the exit status.
fn run_found<'a>(rt: &HostRuntime, found: &ArgMatches<'a>) -> Result<u8, ProgramError<'a>> {
    let Ok(asked) = Arguments::of(rt.alloc(), found) else {
        return Err(no_memory());
    };
    if let Some(fault) = asked.fault() {
        return Err(ProgramError::Argument(fault));
    }
    run_asked(rt, &asked)
}

/// Checks what is asked for. Returns the exit status.
fn run_asked<'a>(rt: &HostRuntime, asked: &Arguments<'a>) -> Result<u8, ProgramError<'a>> {
    let node = asked_node(rt, asked.node)?;
    let writing = Writing {
        format: format_of(rt, asked.format),
        asked: asked.paths,
        outer: outer_of(asked.paths.manifest),
    };
    let inputs = match inputs_of(rt, asked.paths, asked.no_advisories) {
        Ok(inputs) => inputs,
        Err(error) => {
            write_stop(rt, writing, &error);
            return Err(ProgramError::Stopped(subject_of(asked.paths, "-", &error), error));
        }
    };
    let Inputs {
        manifest,
        advisories,
        excepting,
    } = inputs;
    let exceptions = exceptions_of(&excepting);
    let beside = Beside {
        asked,
        writing,
        node,
        manifest,
        advisories,
        exceptions,
    };
    match check_all(rt, beside) {
        Ok(status) => Ok(status),
        Err(error) => Err(stop_error(error)),
    }
}

/// The exceptions, if there is a file of them.
fn exceptions_of(excepting: &Option<Excepting>) -> Option<Exceptions<'_>> {
    match excepting {
        Some(Excepting { list, today }) => Some(Exceptions {
            list: list.as_slice(),
            today: *today,
        }),
        None => None,
    }
}

/// The folder of the root's manifest.
fn outer_of<'a>(manifest: Option<&'a str>) -> &'a str {
    match manifest {
        Some(path) => folder_of(path),
        None => ".",
    }
}

/// The format that is asked for, or else lines: text for a terminal, and JSON for anything else.
fn format_of(rt: &HostRuntime, format: Option<Format>) -> Format {
    match format {
        Some(format) => format,
        None if rt.stdout().is_terminal() => Format::Report(ReportFormat::Text),
        None => Format::Report(ReportFormat::Json),
    }
}

/// Writes what a format with places says of an error that stops the run. The error has its line on standard error as well, so
/// nothing more is done if this fails.
fn write_stop(rt: &HostRuntime, writing: Writing<'_>, error: &StopError) {
    if let Ok(text) = stop_text(rt.alloc(), writing, error) {
        match rt.stdout().write_all(text.as_slice()) {
            Ok(()) | Err(_) => {}
        }
    }
}

/// Checks the lock files, and writes the output and the lines. Returns the exit status.
fn check_all(rt: &HostRuntime, beside: Beside<'_, '_, '_>) -> Result<u8, RunError> {
    let asked = beside.asked;
    let exceptions = beside.exceptions;
    let outcomes = outcomes_of(rt, beside)?;
    let is_said = write_lines(rt, asked, &outcomes, exceptions);
    Ok(status_of(&outcomes, is_said))
}

/// Checks the lock files, and writes the output. What several are checked with is dropped after the last one is checked, before the output
/// is written. What a single one is checked with stays: the program ends, and to free each member of the advisories takes a third of the
/// time in which they are read.
fn outcomes_of(
    rt: &HostRuntime,
    beside: Beside<'_, '_, '_>,
) -> Result<Vec<Result<Report, StopError>>, RunError> {
    let asked = beside.asked;
    let files = asked.files.as_slice();
    let writing = beside.writing;
    let mut writer = Watched::new(rt.stdout());
    if asked.has_several() {
        return run(
            rt.alloc(),
            &mut writer,
            files,
            writing,
            move |file| check_file(rt, &beside, file),
        );
    }
    let outcomes = run(
        rt.alloc(),
        &mut writer,
        files,
        writing,
        |file| check_file(rt, &beside, file),
    );
    forget(beside);
    outcomes
}

/// The error of a run that stopped, which is about no lock file.
fn stop_error<'a>(error: RunError) -> ProgramError<'a> {
    ProgramError::Stopped(Subject::Nothing, StopError::Check(error))
}

/// The error of a run without memory.
fn no_memory<'a>() -> ProgramError<'a> {
    stop_error(RunError::Memory)
}

/// The version of Node that the arguments name.
fn asked_node<'a>(
    rt: &HostRuntime,
    text: Option<&'a str>,
) -> Result<Option<Version>, ProgramError<'a>> {
    let Some(text) = text else {
        return Ok(None);
    };
    match node_of(rt.alloc(), text) {
        Ok(Some(version)) => Ok(Some(version)),
        Ok(None) => Err(ProgramError::Argument(ArgumentError::NodeVersion(Quoted { text }))),
        Err(_) => Err(no_memory()),
    }
}

/// Opens a lock file and checks it.
fn check_file<'f>(
    rt: &HostRuntime,
    beside: &Beside<'_, '_, '_>,
    file: &'f str,
) -> Result<(Report, Output<'f>), StopError> {
    if file == "-" {
        return check_reader(rt, rt.stdin(), beside, file);
    }
    match File::open(rt, file) {
        Ok(reader) => check_reader(rt, reader, beside, file),
        Err(error) => Err(StopError::Check(RunError::Input(open_error(error)))),
    }
}

/// The path of the folder in which npm finds the lock file: that of the manifest, or else of the file. Empty if it is not known.
fn project_of(rt: &HostRuntime, manifest: Option<&str>, file: &str) -> String {
    let folder = match manifest {
        Some(path) => folder_of(path),
        None if file == "-" => return String::new(rt.alloc()),
        None => folder_of(file),
    };
    let top = if folder.is_empty() { "/" } else { folder };
    match canonicalize(rt, top) {
        Ok(path) => path.into_string(),
        Err(_) => String::new(rt.alloc()),
    }
}

/// Checks a lock file.
fn check_reader<'f, R: Read + Drop>(
    rt: &HostRuntime,
    reader: R,
    beside: &Beside<'_, '_, '_>,
    file: &'f str,
) -> Result<(Report, Output<'f>), StopError> {
    let asked = beside.asked;
    let Writing { format, outer, .. } = beside.writing;
    let project = project_of(rt, asked.paths.manifest, file);
    let manifest = beside.manifest.as_ref();
    let advisories = beside.advisories.as_ref();
    let wanted = Wanted {
        manifest,
        exact: asked.exact,
        advisories: advisories.map(|file| &file.value),
        advisories_text: advisories.map_or("", |file| file.text.as_str()),
        today: advisories.map_or(FIRST_DAY, |file| file.today),
        level: asked.level,
        exceptions: beside.exceptions,
        omissions: asked.omissions,
        node: beside.node.as_ref(),
        ignored: Kinds::of(asked.ignored.as_slice()),
        sources: asked.sources,
        registries: asked.registries.as_slice(),
        strict: asked.strict,
        unchecked: asked.unchecked
            || asked.strict
            || matches!(format, Format::Pages(PageFormat::Html)),
        format,
        project: project.as_str(),
        file,
        named: asked.has_several(),
    };
    checked_in(rt.alloc(), &mut Watched::new(reader), wanted, |lock| {
        let loaded = manifests_of(rt.alloc(), lock, |linked| {
            manifest_in(rt, outer, linked, asked.outside, true)
        })?;
        with_workspaces(rt, outer, manifest, asked.outside, loaded)
    })
}
