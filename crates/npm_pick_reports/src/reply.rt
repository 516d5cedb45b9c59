//! The reply to a question, and how the program ends.
ghost use Rattle.std.specs.Prelude.{◌≡◌, ◌⊎◌, IfErr, IfOk, Some, count_by, map, option_map};
ghost use Rattle.std.specs.Fn.{FnReturnsAt};
ghost use Rattle.std.specs.List.{list_all, list_any};
ghost use Rattle.serde_json.specs.View.{view};
ghost use Rattle.npm_pick_reports.specs.Failures.{IsComparedFailure, IsFailure, IsKeptFailure};
ghost use Rattle.npm_pick_reports.specs.Loading.{IsLockFailure};
ghost use Rattle.npm_pick_reports.specs.Mirror as Mirrors;
ghost use Rattle.npm_pick_reports.specs.Mirror.{package_value};
ghost use Rattle.npm_pick_reports.specs.Outdated as Rows;
ghost use Rattle.npm_pick_reports.specs.Outdated.{outcome_value};
ghost use Rattle.npm_pick_reports.specs.Reply.{IsComparedReply, IsKeptReply, IsPickedReply, IsReply, ending_of, reply_value};

use crate::format::Format;
use crate::lines::{push_kept, push_lines, push_outcomes, push_picked};
use crate::load_error::LoadError;
use crate::mirror::asks::asked_of;
use crate::mirror::notes::notes_of;
use crate::mirror::requests::requests_of;
use crate::mirror::{KeptPackage, mirror_of};
use crate::outdated::{Outcome, outcomes_of};
use crate::run_error::RunError;
use npm_packages::{CheckError, edges_of};
use npm_pick::{Options, PickError, Picked, pick};
use serde_json::Value;
use std::alloc::{AllocError, Global};

/// A question about a package, a lock file or a mirror.
#[derive(Clone, Copy)]
pub enum Question<'a> {
    /// A version of this packument, for a version, a tag or a range.
    Pick(&'a Value, &'a str),
    /// The dependencies of this lock file that are outdated: of the root, or of all packages.
    Outdated(&'a Value, bool),
    /// The versions that a mirror keeps for these manifests and a lock file: those that are picked, or all that are admitted, and
    /// those that are installed.
    Keep(&'a [Value], Option<&'a Value>, bool),
}

/// The reply to a question.
#[derive(Drop)]
pub enum Reply<'a> {
    /// The version that is picked.
    Picked(Picked<'a>),
    /// No version is picked.
    Nothing(PickError),
    /// The outcome of each dependency.
    Compared(Vec<Outcome<'a>>),
    /// What a mirror keeps of each package, and notes about the rest.
    Kept(Vec<KeptPackage>, Vec<String>),
}

/// How the program ends.
#[derive(Clone, Copy, Debug, PartialEq, Eq, Drop)]
pub enum Ending {
    /// A version is picked.
    Picked,
    /// No version is picked.
    Nothing(PickError),
    /// A lock file was compared: whether something is outdated, and how many dependencies have no document.
    Compared(bool, usize),
    /// The versions that a mirror keeps were listed: whether each package has a document with all its installed versions.
    Kept(bool),
}

/// Returns the reply to a question. `load` returns the document of a package, if there is one.
///
/// # Errors
///
/// - `NoLock`: the value is no lock file that is read here.
/// - `Load`: what `load` returned for a package that a dependency asks for, or that is installed.
/// - `Memory`: an allocation failed.
///
/// # Memory
///
/// Allocates what `pick` or `keep` allocates. One document is in memory at a time.
///
/// # Examples
///
/// Of 1.2.0, 1.3.0 and 2.0.0, where `latest` is 1.2.0, it picks 1.2.0 for `^1`, and nothing for `^3`.
pub fn reply_to<'a, F: Fn(&str) -> Result<Option<Value>, LoadError>>(
    alloc: Global,
    question: Question<'a>,
    options: &Options<'_>,
    load: F,
) -> Result<Reply<'a>, RunError>
    requires { F.IsAlwaysCallable load }
    ensures reply { IfOk result (λ reply. IsReply (FnReturnsAt F.Fn load) question.entry options.now (reply_value reply)) }
    ensures failed { IfErr result (IsFailure (FnReturnsAt F.Fn load) question.entry) }
{
    match question {
        Question::Pick(packument, wanted) => picked_reply(alloc, packument, wanted, options),
        Question::Outdated(lock, all) => compared_reply(alloc, lock, all, options, load),
        Question::Keep(manifests, lock, all) => {
            kept_reply(alloc, manifests, lock, all, options, load)
        }
    }
}

/// The reply for a version, a tag or a range.
fn picked_reply<'a>(
    alloc: Global,
    packument: &'a Value,
    wanted: &str,
    options: &Options<'_>,
) -> Result<Reply<'a>, RunError>
    ensures reply { IfOk result (λ reply. IsPickedReply (view packument.now) options.now wanted.now (reply_value reply)) }
    ensures failed { IfErr result (λ error. error ≡ RunError.Memory) }
{
    match pick(alloc, packument, wanted, options) {
        Ok(picked) => Ok(Reply::Picked(picked)),
        Err(error) => match error {
            PickError::Memory => Err(RunError::Memory),
            _ => Ok(Reply::Nothing(error)),
        },
    }
}

/// The reply for a lock file.
fn compared_reply<'a, F: Fn(&str) -> Result<Option<Value>, LoadError>>(
    alloc: Global,
    lock: &'a Value,
    all: bool,
    options: &Options<'_>,
    load: F,
) -> Result<Reply<'a>, RunError>
    requires { F.IsAlwaysCallable load }
    ensures reply { IfOk result (λ reply. IsComparedReply (FnReturnsAt F.Fn load) (view lock.now) all options.now
        (reply_value reply)) }
    ensures failed { IfErr result (λ error. IsLockFailure (Some (view lock.now)) error
        ⊎ IsComparedFailure (FnReturnsAt F.Fn load) (view lock.now) all error) }
{
    let edges = match edges_of(alloc, lock) {
        Ok(edges) => edges,
        Err(CheckError::Refused(fault)) => return Err(RunError::NoLock(fault)),
        Err(CheckError::Memory) => return Err(RunError::Memory),
    };
    match outcomes_of(alloc, &edges, all, options, load) {
        Ok(outcomes) => Ok(Reply::Compared(outcomes)),
        Err(error) => Err(error),
    }
}

/// The reply for a mirror.
fn kept_reply<'a, F: Fn(&str) -> Result<Option<Value>, LoadError>>(
    alloc: Global,
    manifests: &'a [Value],
    lock: Option<&'a Value>,
    all: bool,
    options: &Options<'_>,
    load: F,
) -> Result<Reply<'a>, RunError>
    requires { F.IsAlwaysCallable load }
    ensures reply { IfOk result (λ reply. IsKeptReply (FnReturnsAt F.Fn load) (map view manifests.now)
        (option_map (λ lock. view lock.now) lock.entry) all options.now (reply_value reply)) }
    ensures failed { IfErr result (λ error. IsLockFailure (option_map (λ lock. view lock.now) lock.entry) error
        ⊎ IsKeptFailure (FnReturnsAt F.Fn load) (map view manifests.now) (option_map (λ lock. view lock.now) lock.entry)
        error) }
{
    let asked = asked_of(alloc, manifests, lock)?;
    let requests = requests_of(alloc, &asked.asks)?;
    let packages = mirror_of(alloc, &requests, &asked.installed, all, options, load)?;
    let notes = notes_of(alloc, &asked.asks, &packages)?;
    Ok(Reply::Kept(packages, notes))
}

impl<'a> Reply<'a> {
    /// Returns how the program ends.
    pub fn ending(&self) -> Ending
        ensures { result ≡ ending_of (reply_value self.now) }
    {
        match self {
            Reply::Picked(_) => Ending::Picked,
            Reply::Nothing(error) => Ending::Nothing(*error),
            Reply::Compared(outcomes) => {
                Ending::Compared(has_outdated(outcomes), absent_count(outcomes))
            }
            Reply::Kept(packages, _) => Ending::Kept(are_complete(packages)),
        }
    }

    /// Returns the lines for standard output.
    pub fn lines(&self, alloc: Global, format: Format) -> Result<Vec<u8>, AllocError> {
        let mut lines = Vec::new(alloc);
        match self {
            Reply::Picked(picked) => push_picked(alloc, &mut lines, *picked, format)?,
            Reply::Nothing(_) => {}
            Reply::Compared(outcomes) => push_outcomes(alloc, &mut lines, outcomes, format)?,
            Reply::Kept(packages, _) => push_kept(alloc, &mut lines, packages, format)?,
        }
        Ok(lines)
    }

    /// Returns the lines of the notes, for standard error.
    pub fn notes(&self, alloc: Global) -> Result<Vec<u8>, AllocError> {
        let mut lines = Vec::new(alloc);
        if let Reply::Kept(_, notes) = self {
            push_lines(&mut lines, "npm_pick: ", notes)?;
        }
        Ok(lines)
    }
}

/// Returns `true` if a dependency is outdated.
fn has_outdated(outcomes: &[Outcome<'_>]) -> bool
    ensures { result ≡ list_any (λ outcome. Rows.is_outdated (outcome_value outcome)) outcomes.now }
{
    outcomes.iter().any(Outcome::is_outdated)
}

/// Returns how many dependencies have no document.
fn absent_count(outcomes: &[Outcome<'_>]) -> usize
    ensures { result ≡ count_by (λ outcome. Rows.is_absent (outcome_value outcome)) outcomes.now }
{
    outcomes
        .iter()
        .filter(|outcome| outcome.is_absent())
        .count()
}

/// Returns `true` if each package has a document with all its installed versions.
fn are_complete(packages: &[KeptPackage]) -> bool
    ensures { result ≡ list_all (λ one. Mirrors.is_complete (package_value one)) packages.now }
{
    packages.iter().all(KeptPackage::is_complete)
}
