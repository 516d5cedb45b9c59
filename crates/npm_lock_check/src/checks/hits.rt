//! The installed packages of a lock file that an advisory hits, and those that count.
ghost use Rattle.std.specs.Prelude.{IfErr, IfOk, map};
ghost use Rattle.serde_json.specs.View.{view};
ghost use Rattle.npm_advisories.specs.Audit.{found_value};
ghost use Rattle.npm_lock_check.specs.Private.Refusals.{AreRefusedAs, IsAuditRefused};
ghost use Rattle.npm_lock_check.specs.Report.{AreCounted, AreHit, wanted_value};
ghost use Rattle.npm_lock_reports.specs.Counted.{counted_value};

use crate::checks::list_name::ListName;
use crate::checks::run_error::RunError;
use crate::checks::wanted::Wanted;
use json_places::Path;
use npm_advisories::{AdvisoryId, AuditError, Fault, Found, audit_sound_lock, fault_steps};
use npm_lock::SoundLock;
use npm_lock_findings::ShownPlace;
use npm_lock_reports::{CountedHits, counted_hits};
use serde_json::Value;
use std::alloc::{AllocError, Global};

/// Returns what counts of the hits of a lock file, and what is excepted.
pub(crate) fn counted_of<'f, 'v>(
    alloc: Global,
    lock: &SoundLock<'v>,
    wanted: Wanted<'f, '_>,
) -> Result<CountedHits<'f, 'v>, RunError>
    ensures found { IfOk result (λ counted. AreCounted (view lock.now) (wanted_value wanted.entry) (counted_value counted)) }
    ensures refused { IfErr result (IsAuditRefused wanted.entry.today (view lock.now) (wanted_value wanted.entry).advisories) }
{
    let found = match hits_of(alloc, lock, wanted) {
        Ok(found) => found,
        Err(error) => return Err(error),
    };
    match counted_hits(
        alloc,
        found,
        lock.file(),
        wanted.omissions,
        wanted.exceptions,
    ) {
        Ok(counted) => Ok(counted),
        Err(_) => Err(RunError::Memory),
    }
}

/// The installed packages that an advisory hits which is not less severe than the level.
fn hits_of<'f, 'v>(
    alloc: Global,
    lock: &SoundLock<'v>,
    wanted: Wanted<'f, '_>,
) -> Result<Vec<Found<'f, 'v>>, RunError>
    ensures found { IfOk result (λ found. AreHit wanted.entry.today (view lock.now) (wanted_value wanted.entry).advisories
        wanted.entry.level (map found_value found.items)) }
    ensures refused { IfErr result (IsAuditRefused wanted.entry.today (view lock.now) (wanted_value wanted.entry).advisories) }
{
    let Some(file) = wanted.advisories else {
        return Ok(Vec::new(alloc));
    };
    match audit_sound_lock(file, wanted.today, wanted.level, lock) {
        Ok(found) => Ok(found),
        Err(AuditError::Refused(fault)) => Err(no_advisories(
            alloc,
            file,
            wanted.advisories_text,
            lock.file(),
            fault,
        )),
        Err(AuditError::Memory) => Err(RunError::Memory),
    }
}

/// The error of advisories with this value and this text, which have a fault beside a lock file.
fn no_advisories(
    alloc: Global,
    file: &Value,
    text: &str,
    lock: &Value,
    fault: Fault<'_>,
) -> RunError
    ensures { AreRefusedAs fault.entry.kind result }
{
    let Ok(name) = list_name(alloc, fault) else {
        return RunError::Memory;
    };
    match shown_fault(alloc, file, text, lock, fault) {
        Ok(shown) => RunError::NoAdvisories(fault.kind, name, fault.place, shown),
        Err(_) => RunError::Memory,
    }
}

/// Where in the text of the advisories the fault is.
fn shown_fault(
    alloc: Global,
    file: &Value,
    text: &str,
    lock: &Value,
    fault: Fault<'_>,
) -> Result<ShownPlace, AllocError> {
    let Ok(steps) = fault_steps(alloc, file, lock, fault) else {
        return Err(AllocError);
    };
    let path = Path {
        steps,
        subject: 0,
        rank: 0,
    };
    let shown = ShownPlace::of_path(alloc, text, path)?;
    Ok(shown)
}

/// The name and the id of the advisory with a fault.
fn list_name(alloc: Global, fault: Fault<'_>) -> Result<ListName, AllocError> {
    let text = String::from_str(alloc, fault.name)?;
    let id = match fault.id {
        Some(AdvisoryId::Number(number)) => Some(number.to_string(alloc)?),
        Some(AdvisoryId::Text(text)) => Some(String::from_str(alloc, text)?),
        None => None,
    };
    Ok(ListName { text, id })
}
