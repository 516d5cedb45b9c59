//! `audit`: the installed packages of a lock file that security advisories hit.

use crate::asked::Asked;
use crate::call_error::CallError;
use crate::day::{FIRST_DAY, day_of};
use crate::document::Document;
use crate::exceptions::exceptions_of;
use crate::fault::Fault;
use crate::lock_file::{converted, sound_lock};
use crate::omits::omissions_of;
use crate::report::{empty_report, report_text};
use npm_advisories::{
    AuditError, Fault as AdvisoryFault, Found, Severity, audit_sound_lock, fault_steps,
};
use npm_lock::{SoundLock, drop_overrides};
use npm_lock_reports::{
    CountedHits, Date, Exception, Exceptions, Omissions, Report, count_of, count_read, counted_hits,
};
use std::alloc::Global;

/// What counts.
#[derive(Drop)]
struct Marks {
    today: Date,
    level: Severity,
    omissions: Omissions,
    exceptions: Vec<Exception>,
}

/// Looks the packages of a lock file up in advisories.
pub(crate) fn audited(given: Asked<'_>) -> Result<String, CallError> {
    let mut asked = given;
    let alloc = asked.alloc;
    let lock = asked.document("lock")?;
    let file = asked.document("advisories")?;
    let marks = marks_of(&mut asked)?;
    asked.end()?;
    let mut lock = lock;
    drop_overrides(alloc, &mut lock.value)?;
    let lock = converted(alloc, lock, &None)?;
    let sound = sound_lock(alloc, &lock)?;
    let counted = counted_of(alloc, &sound, &file, &marks)?;
    let CountedHits { found, excepted } = counted;
    let report = Report {
        audited: true,
        advisories: count_read(&file.value),
        hits: found.len(),
        excepted,
        omitted: count_of(marks.omissions, sound.file()),
        ..empty_report(alloc)
    };
    report_text(alloc, &report, &found, "hits")
}

/// Takes what counts.
fn marks_of(asked: &mut Asked<'_>) -> Result<Marks, CallError> {
    let exceptions = exceptions_of(asked)?;
    let today = today_of(asked, !exceptions.is_empty())?;
    let level = level_of(asked)?;
    let omissions = omissions_of(asked)?;
    Ok(Marks {
        today,
        level,
        omissions,
        exceptions,
    })
}

/// Takes the day. Exceptions need one.
fn today_of(asked: &mut Asked<'_>, is_needed: bool) -> Result<Date, CallError> {
    let Some(text) = asked.text_if_any("today")? else {
        return if is_needed {
            Err(asked.refused(Fault::Missing, "today"))
        } else {
            Ok(FIRST_DAY)
        };
    };
    match day_of(text.as_str()) {
        Some(day) => Ok(day),
        None => Err(asked.refused(Fault::Day, "today")),
    }
}

/// Takes the least severity that counts.
fn level_of(asked: &mut Asked<'_>) -> Result<Severity, CallError> {
    let Some(text) = asked.text_if_any("severity")? else {
        return Ok(Severity::Info);
    };
    match Severity::of_text(text.as_str()) {
        Severity::Unknown => Err(asked.refused(Fault::Word, "severity")),
        level => Ok(level),
    }
}

/// The hits that count, and what is excepted.
fn counted_of<'f, 'v>(
    alloc: Global,
    lock: &SoundLock<'v>,
    file: &'f Document<'_>,
    marks: &Marks,
) -> Result<CountedHits<'f, 'v>, CallError> {
    let found = hits_of(alloc, lock, file, marks)?;
    let exceptions = if marks.exceptions.is_empty() {
        None
    } else {
        Some(Exceptions {
            list: marks.exceptions.as_slice(),
            today: marks.today,
        })
    };
    Ok(counted_hits(alloc, found, lock.file(), marks.omissions, exceptions)?)
}

/// The packages that an advisory hits which is severe enough.
fn hits_of<'f, 'v>(
    alloc: Global,
    lock: &SoundLock<'v>,
    file: &'f Document<'_>,
    marks: &Marks,
) -> Result<Vec<Found<'f, 'v>>, CallError> {
    match audit_sound_lock(&file.value, marks.today, marks.level, lock) {
        Ok(found) => Ok(found),
        Err(AuditError::Refused(fault)) => Err(refused_advisories(alloc, lock, file, fault)),
        Err(AuditError::Memory) => Err(CallError::Memory),
    }
}

/// The error of advisories with this fault.
fn refused_advisories(
    alloc: Global,
    lock: &SoundLock<'_>,
    file: &Document<'_>,
    fault: AdvisoryFault<'_>,
) -> CallError {
    match fault_steps(alloc, &file.value, lock.file(), fault) {
        Ok(steps) => file.refused(alloc, Fault::Advisories(fault.kind), steps),
        Err(_) => CallError::Memory,
    }
}
