//! `check`: the problems of a lock file, and where it and manifests do not ask for the same.

use crate::asked::Asked;
use crate::call_error::CallError;
use crate::document::Document;
use crate::fault::Fault;
use crate::folders::{Beside, compared, folders_of};
use crate::lock_file::{converted, sound_lock};
use crate::manifests::manifest_if_any;
use crate::member::{Words, is_among};
use crate::omits::omissions_of;
use crate::report::{empty_report, report_text};
use node_semver::Version;
use npm_lock::{
    Dependency, Kind, Problem, Problems, SoundLock, check_sound_lock, is_version_one,
    suspicious_sources,
};
use npm_lock_reports::{
    Omissions, Report, Unread, count_of, leave_out_omitted, leave_out_sources, left_out_but_needed,
};
use serde_json::Value;
use std::alloc::{AllocError, Global};

/// What counts, and what is left out.
#[derive(Drop)]
struct Marks {
    node: Option<Version>,
    ignored: Vec<String>,
    omissions: Omissions,
    registries: Vec<String>,
    sources: bool,
    exact: bool,
    strict: bool,
    unchecked: bool,
}

/// Checks a lock file.
pub(crate) fn checked(given: Asked<'_>) -> Result<String, CallError> {
    let mut asked = given;
    let alloc = asked.alloc;
    let lock = asked.document("lock")?;
    let manifest = manifest_if_any(&mut asked)?;
    let folders = folders_of(&mut asked)?;
    let marks = marks_of(&mut asked)?;
    asked.end()?;
    let report = report_of(alloc, lock, manifest, folders, &marks)?;
    report_text(alloc, &report, &[], "problems")
}

/// Takes what counts.
fn marks_of(asked: &mut Asked<'_>) -> Result<Marks, CallError> {
    let node = node_of(asked)?;
    let ignored = asked.words("ignore", Words::Kinds)?;
    let omissions = omissions_of(asked)?;
    let registries = asked.texts("registry")?;
    let strict = asked.mark("strict")?;
    let sources = asked.mark("sources")? || strict || !registries.is_empty();
    let exact = asked.mark("exact")?;
    let unchecked = asked.mark("unchecked")? || strict;
    Ok(Marks {
        node,
        ignored,
        omissions,
        registries,
        sources,
        exact,
        strict,
        unchecked,
    })
}

/// Takes the version of Node, if there is one.
fn node_of(asked: &mut Asked<'_>) -> Result<Option<Version>, CallError> {
    let Some(text) = asked.text_if_any("node")? else {
        return Ok(None);
    };
    match Version::parse(asked.alloc, text.as_str()) {
        Ok(version) => Ok(Some(version)),
        Err(error) if error.is_out_of_memory() => Err(CallError::Memory),
        Err(_) => Err(asked.refused(Fault::Version, "node")),
    }
}

/// The report of a lock file beside manifests.
fn report_of(
    alloc: Global,
    document: Document<'_>,
    manifest: Option<Document<'_>>,
    folders: Vec<Beside>,
    marks: &Marks,
) -> Result<Report, CallError> {
    let mut document = document;
    let is_ignored = is_among(&marks.ignored, "group");
    let mut sources = suspicious_sources(alloc, &document.value, &marks.registries)?;
    let told = told_omissions(&document.value, marks.omissions);
    let comparison = compared(alloc, &mut document.value, &manifest, folders, is_ignored)?;
    let unread = unread_of(alloc, &document.value)?;
    let document = converted(alloc, document, &manifest)?;
    let sound = sound_lock(alloc, &document)?;
    leave_out_sources(&mut sources, marks.omissions, sound.file(), marks.sources);
    let report = Report {
        compared: comparison.is_some(),
        mismatches: comparison.unwrap_or(Vec::new(alloc)),
        exact: marks.exact,
        strict: marks.strict,
        unread,
        problems: problems_of(&sound, marks)?,
        sources,
        needed: needed_of(alloc, &sound, told)?,
        omitted: count_of(marks.omissions, sound.file()),
        listed: marks.unchecked,
        ..empty_report(alloc)
    };
    Ok(report)
}

/// The problems but those of ignored kinds and of what is left out.
fn problems_of(lock: &SoundLock<'_>, marks: &Marks) -> Result<Problems, AllocError> {
    let mut problems = check_sound_lock(lock, marks.node.as_ref())?;
    let ignored = &marks.ignored;
    problems
        .list
        .retain(|problem| !is_ignored(ignored, problem));
    leave_out_omitted(&mut problems, lock.file(), marks.omissions);
    Ok(problems)
}

/// Returns `true` if the kind of a problem is left out.
fn is_ignored(ignored: &[String], problem: &Problem) -> bool {
    is_among(ignored, kind_word(problem.kind))
}

/// The word of a kind.
fn kind_word(kind: Kind) -> &'static str {
    match kind {
        Kind::Missing => "missing",
        Kind::Invalid => "invalid",
        Kind::PeerLocal => "peer-local",
        Kind::Engine => "engine",
    }
}

/// The groups by which a needed package may be left out. What is needed is not known of the optional dependencies of version 1.
fn told_omissions(lock: &Value, omissions: Omissions) -> Omissions {
    Omissions {
        dev: omissions.dev,
        optional: omissions.optional && !is_version_one(lock),
    }
}

/// What is needed, and left out.
fn needed_of(
    alloc: Global,
    lock: &SoundLock<'_>,
    omissions: Omissions,
) -> Result<Vec<Dependency>, AllocError> {
    if omissions.has_some() {
        left_out_but_needed(lock, omissions)
    } else {
        Ok(Vec::new(alloc))
    }
}

/// What is not looked at: what the root depends on, if the lock file has no root.
fn unread_of(alloc: Global, lock: &Value) -> Result<Vec<Unread>, AllocError> {
    let mut unread = Vec::new(alloc);
    if !has_root(lock) {
        unread.push(Unread::Root)?;
    }
    Ok(unread)
}

/// Returns `true` if a lock file says what the root depends on.
fn has_root(lock: &Value) -> bool {
    match lock.get("packages") {
        Some(packages) => packages.get("").is_some(),
        None => false,
    }
}
