//! The check of one lock file.
ghost use Rattle.std.specs.Prelude.{◌≡◌, List, IfErr, IfOk, filter, map, not};
ghost use Rattle.std.specs.Fn.{FnOnceReturnsAt};
ghost use Rattle.serde_json.specs.View.{view};
ghost use Rattle.npm_advisories.specs.Audit.{FoundValue};
ghost use Rattle.npm_lock_check.specs.Kinds.{has, kinds_value};
ghost use Rattle.npm_lock_check.specs.Check.{IsReported, IsStopped};
ghost use Rattle.npm_lock_check.specs.Written.{IsOutput};
ghost use Rattle.npm_lock_check.specs.Private.Refusals.{IsRefused};
ghost use Rattle.npm_lock_check.specs.Report.{AreLeft, IsReportOf, manifests_of, placed};
ghost use Rattle.npm_lock_check.specs.Report.{wanted_value};
ghost use Rattle.npm_manifest_files.specs.Linked.{loaded_value, workspace_value};

use crate::checks::hits::counted_of;
use crate::checks::kinds::Kinds;
use crate::checks::needed::{needed_of, told_omissions};
use crate::checks::output::Output;
use crate::checks::own_folder::check_folders;
use crate::checks::run_error::{RunError, StopError};
use crate::checks::sound::{converted, sound_lock};
use crate::checks::sync::{all_unread, as_read, compare, is_compared, load_compared};
use crate::checks::wanted::Wanted;
use crate::checks::workspace_problems::add_workspaces;
use crate::checks::written::output_of;
use command_lines::{Watched, read_json_with_text};
use npm_lock::{Problem, Problems, SoundLock, check_sound_lock, suspicious_sources};
use npm_lock_reports::{
    CountedHits, Report, count_of, count_read, leave_out_omitted, leave_out_sources,
};
use npm_manifest_files::{LoadError, Loaded, Workspace};
use serde_json::Value;
use std::alloc::{AllocError, Global};
use std::io::Read;
use std::mem::forget;

/// Reads a lock file to the end, and returns its report and its output: the mismatches of the manifests, the problems but those of
/// ignored kinds, the packages that an advisory hits which is not excepted, what is suspicious in where packages come from, what is needed and left out, and the dependencies that are not checked if they are
/// listed. Packages that are left out have neither problems nor hits.
///
/// `load` is called with the lock file if that is compared with a manifest, and not otherwise. It returns the manifests of
/// workspaces and of other packages that links name, and the folders of those that are not read.
///
/// # Errors
///
/// - `Check`: the lock file was not read, or it, the manifest or the advisories have a fault, or an allocation failed.
/// - `Load`: the error of `load`.
///
/// # Memory
///
/// Allocates the report and the output, and for the time of the call the lock file with its text. A lock file that is not one of several
/// is not freed.
pub fn checked_in<'f, R: Read, F: FnOnce(&Value) -> Result<Loaded, LoadError>>(
    alloc: Global,
    reader: &mut Watched<R>,
    wanted: Wanted<'_, 'f>,
    load: F,
) -> Result<(Report, Output<'f>), StopError>
    requires { F.IsAlwaysCallable load }
    ensures found { IfOk result (λ made. (found : List FoundValue)
        × IsReported R.remaining reader.old reader.new (FnOnceReturnsAt F.FnOnce load) (wanted_value wanted.entry)
        made.0 found made.1) }
    ensures refused { IfErr result (λ error. IsStopped R.remaining (FnOnceReturnsAt F.FnOnce load)
        (wanted_value wanted.entry) reader.old reader.new error) }
{
    let (lock, text) = match read_json_with_text(alloc, reader) {
        Ok(read) => read,
        Err(error) => return Err(StopError::Check(RunError::Input(error))),
    };
    let loaded = match load_compared(alloc, &lock, wanted.manifest, load) {
        Ok(loaded) => loaded,
        Err(error) => return Err(StopError::Load(error)),
    };
    let Ok(lock) = as_read(alloc, lock, wanted.manifest) else {
        return Err(StopError::Check(RunError::Memory));
    };
    match report_of(alloc, lock, text.as_str(), loaded, wanted) {
        Ok(made) => Ok(made),
        Err(error) => Err(StopError::Check(error)),
    }
}

/// Returns the report of a lock file, and its output.
fn report_of<'f>(
    alloc: Global,
    lock: Value,
    text: &str,
    loaded: Loaded,
    wanted: Wanted<'_, 'f>,
) -> Result<(Report, Output<'f>), RunError>
    ensures found { IfOk result (λ made. (found : List FoundValue)
        × IsReportOf (view lock) (loaded_value loaded) (wanted_value wanted.entry) made.0 found
        × IsOutput wanted.entry.format made.0 found made.1) }
    ensures refused { IfErr result (IsRefused (view lock) (placed (view lock)
        (manifests_of (wanted_value wanted.entry).manifest (loaded_value loaded).linked))
        (loaded_value loaded).linked (wanted_value wanted.entry)) }
{
    let Loaded {
        linked,
        unread,
        workspaces,
    } = loaded;
    let compared = is_compared(&lock, wanted.manifest);
    let groups = told_omissions(&lock, wanted.omissions);
    let Ok(sources) = suspicious_sources(alloc, &lock, wanted.registries) else {
        return Err(RunError::Memory);
    };
    let mut lock = lock;
    let mismatches = compare(alloc, &mut lock, linked, wanted)?;
    let lock = converted(alloc, lock, text, wanted.manifest)?;
    let sound = match sound_lock(alloc, &lock, text) {
        Ok(sound) => sound,
        Err(error) => return Err(error),
    };
    if let Err(error) = check_folders(alloc, &sound, text, wanted.project) {
        return Err(error);
    }
    let unread = all_unread(&lock, unread)?;
    let problems = match problems_of(alloc, &sound, &workspaces, wanted) {
        Ok(problems) => problems,
        Err(_) => return Err(RunError::Memory),
    };
    let CountedHits { found, excepted } = match counted_of(alloc, &sound, wanted) {
        Ok(counted) => counted,
        Err(error) => return Err(error),
    };
    let mut sources = sources;
    leave_out_sources(&mut sources, wanted.omissions, sound.file(), wanted.sources);
    let needed = match needed_of(alloc, &sound, groups) {
        Ok(needed) => needed,
        Err(_) => return Err(RunError::Memory),
    };
    let report = Report {
        compared,
        mismatches,
        exact: wanted.exact,
        strict: wanted.strict,
        unread,
        problems,
        sources,
        needed,
        audited: wanted.advisories.is_some(),
        advisories: count_in(wanted.advisories),
        hits: found.len(),
        excepted,
        omitted: count_of(wanted.omissions, &lock),
        listed: wanted.unchecked,
    };
    // While the output is made, the index takes no memory.
    drop(sound);
    let output = output_of(alloc, text, &report, &found, wanted);
    drop(found);
    free(lock, wanted.named);
    match output {
        Ok(output) => Ok((report, output)),
        Err(_) => Err(RunError::Memory),
    }
}

/// How many advisories the file has, if there is one.
fn count_in(file: Option<&Value>) -> usize {
    match file {
        Some(file) => count_read(file),
        None => 0,
    }
}

/// Frees a lock file that is one of several. The only one stays: the program ends, and to free each member takes a seventh of the time.
fn free(lock: Value, is_one_of_many: bool) {
    if !is_one_of_many {
        forget(lock);
    }
}

/// The problems of workspaces that were found on disk, and those of a lock file, but those of ignored kinds and of what is left out.
fn problems_of(
    alloc: Global,
    lock: &SoundLock<'_>,
    workspaces: &[Workspace],
    wanted: Wanted<'_, '_>,
) -> Result<Problems, AllocError>
    ensures { IfOk result (AreLeft (view lock.now) (map workspace_value workspaces.now)
        (wanted_value wanted.entry)) }
{
    let mut problems = check_sound_lock(lock, wanted.node)?;
    add_workspaces(alloc, &mut problems.list, lock.file(), workspaces)?;
    leave_out(&mut problems.list, wanted.ignored);
    leave_out_omitted(&mut problems, lock.file(), wanted.omissions);
    Ok(problems)
}

/// Removes the problems of ignored kinds.
fn leave_out(list: &mut Vec<Problem>, ignored: Kinds<'_>)
    ensures { list.new.items ≡ filter (λ problem. not (has (kinds_value ignored.entry) problem.kind)) list.old.items }
{
    list.retain(|problem| !ignored.has(problem.kind));
}
