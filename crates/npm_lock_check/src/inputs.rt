//! The files that are read once, before the lock files.
ghost use Rattle.std.specs.Prelude.{◌≡◌, ◌&&◌, not};
ghost use Rattle.serde_json.specs.View.{view};
ghost use Rattle.npm_lock_reports.specs.Read.{has_no_advisory};

use crate::{Paths, RunError, StopError};
use command_lines::{Watched, open_error, read_json_with_text};
use npm_lock_reports::{Date, Exception, ExceptionsError, day_at, has_no_advisory, read_file};
use npm_manifest_files::{ManifestError, read_faultless};
use serde_json::Value;
use std::fs::File;
use std::time::{SystemTime, UNIX_EPOCH};

/// A file of advisories, and the day on which it is read.
#[derive(Drop)]
pub struct Advisories {
    pub value: Value,
    pub text: String,
    pub today: Date,
}

/// The day if the clock is not read: no advisory was withdrawn by then.
///
/// See docs/DECISIONS.md, "An advisory is withdrawn from a day on".
pub const FIRST_DAY: Date = Date {
    year: 0,
    month: 1,
    day: 1,
};

/// A file of exceptions, and the day on which it is read.
#[derive(Drop)]
pub struct Excepting {
    pub list: Vec<Exception>,
    pub today: Date,
}

/// The files that are read once, before the lock files.
#[derive(Drop)]
pub struct Inputs {
    pub manifest: Option<Value>,
    pub advisories: Option<Advisories>,
    pub excepting: Option<Excepting>,
}

/// Reads the files that the arguments name beside the lock files.
pub fn inputs_of(
    rt: &HostRuntime,
    asked: Paths<'_>,
    is_none_allowed: bool,
) -> Result<Inputs, StopError> {
    let manifest = manifest_at(rt, asked.manifest).map_err(StopError::Manifest)?;
    let advisories = advisories_at(rt, asked.advisories, is_none_allowed).map_err(
        StopError::Advisories,
    )?;
    let excepting = excepting_at(rt, asked.exceptions).map_err(StopError::Exceptions)?;
    Ok(Inputs {
        manifest,
        advisories,
        excepting,
    })
}

/// Reads the manifest of the root, if there is one.
fn manifest_at(rt: &HostRuntime, path: Option<&str>) -> Result<Option<Value>, ManifestError> {
    let Some(path) = path else {
        return Ok(None);
    };
    let file = File::open(rt, path).map_err(|error| ManifestError::Input(open_error(error)))?;
    read_faultless(rt.alloc(), &mut Watched::new(file)).map(Some)
}

/// Reads the file of advisories, if there is one, and the day.
fn advisories_at(
    rt: &HostRuntime,
    path: Option<&str>,
    is_none_allowed: bool,
) -> Result<Option<Advisories>, RunError> {
    let Some(path) = path else {
        return Ok(None);
    };
    let file = File::open(rt, path).map_err(|error| RunError::Input(open_error(error)))?;
    let (value, text) = read_json_with_text(rt.alloc(), &mut Watched::new(file)).map_err(
        RunError::Input,
    )?;
    if is_refused(&value, is_none_allowed) {
        return Err(RunError::NoneRead);
    }
    let today = today(rt).unwrap_or(FIRST_DAY);
    Ok(Some(Advisories { value, text, today }))
}

/// Returns `true` for a file of no advisories that is not allowed.
fn is_refused(file: &Value, is_none_allowed: bool) -> bool
    ensures { result ≡ (not is_none_allowed && has_no_advisory (view file.now)) }
{
    !is_none_allowed && has_no_advisory(file)
}

/// Reads the file of exceptions, if there is one, and the day.
fn excepting_at(
    rt: &HostRuntime,
    path: Option<&str>,
) -> Result<Option<Excepting>, ExceptionsError> {
    let Some(path) = path else {
        return Ok(None);
    };
    let file = File::open(rt, path).map_err(|error| ExceptionsError::Input(open_error(error)))?;
    let list = read_file(rt.alloc(), &mut Watched::new(file))?;
    let today = today(rt)?;
    Ok(Some(Excepting { list, today }))
}

/// The day in UTC.
fn today(rt: &HostRuntime) -> Result<Date, ExceptionsError> {
    let Ok(now) = SystemTime::now(rt) else {
        return Err(ExceptionsError::Clock);
    };
    let Ok(since) = now.duration_since(UNIX_EPOCH) else {
        return Err(ExceptionsError::Clock);
    };
    match day_at(since.as_secs()) {
        Some(day) => Ok(day),
        None => Err(ExceptionsError::Clock),
    }
}
