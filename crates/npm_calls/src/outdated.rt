//! `outdated` and `keep`: what a lock file depends on, and the packuments of these packages.
ghost use Rattle.serde_json.specs.View.{view};
ghost use Rattle.npm_calls.specs.Resolved.{Gives};

use crate::asked::Asked;
use crate::call_error::CallError;
use crate::document::Document;
use crate::lock_file::refused_lock;
use crate::manifests::manifest_list;
use crate::pick_options::PickOptions;
use crate::text::{joined, json_lines, json_list, json_strings, word_of};
use npm_pick::Options;
use npm_pick_reports::{
    Ending, Format, LoadError, Question, Reply, RunError, absent_names, lacking_texts, reply_to,
};
use serde_json::Value;
use std::alloc::{AllocError, Global};

/// The dependencies of a lock file that are outdated.
pub(crate) fn outdated(given: Asked<'_>) -> Result<String, CallError> {
    let mut asked = given;
    let alloc = asked.alloc;
    let packuments = asked.document("packuments")?;
    packuments.check_object(alloc)?;
    let lock = asked.document("lock")?;
    let all = asked.mark("all")?;
    let options = PickOptions::of(&mut asked)?;
    asked.end()?;
    let question = Question::Outdated(&lock.value, all);
    match answered(alloc, question, &options.options(), &packuments) {
        Ok(text) => Ok(text),
        Err(error) => Err(call_error(alloc, error, Some(&lock))),
    }
}

/// The versions that a mirror keeps.
pub(crate) fn kept(given: Asked<'_>) -> Result<String, CallError> {
    let mut asked = given;
    let alloc = asked.alloc;
    let packuments = asked.document("packuments")?;
    packuments.check_object(alloc)?;
    let lock = asked.document_if_any("lock")?;
    let manifests = manifest_list(&mut asked)?;
    let all = asked.mark("all")?;
    let options = PickOptions::of(&mut asked)?;
    asked.end()?;
    let question = Question::Keep(&manifests, value_of(&lock), all);
    match answered(alloc, question, &options.options(), &packuments) {
        Ok(text) => Ok(text),
        Err(error) => Err(call_error(alloc, error, lock.as_ref())),
    }
}

/// The value of a document, if there is one.
fn value_of<'d>(document: &'d Option<Document<'_>>) -> Option<&'d Value> {
    match document {
        Some(document) => Some(&document.value),
        None => None,
    }
}

/// The text of the reply to a question.
fn answered(
    alloc: Global,
    question: Question<'_>,
    options: &Options<'_>,
    packuments: &Document<'_>,
) -> Result<String, RunError> {
    let load = |name: &str| packument_of(&packuments.value, name);
    let reply = reply_to(alloc, question, options, load)?;
    let lines = reply.lines(alloc, Format::Json)?;
    Ok(reply_text(alloc, &reply, lines)?)
}

/// The packument of a package, if there is one.
pub(crate) fn packument_of(packuments: &Value, name: &str) -> Result<Option<Value>, LoadError>
    ensures { Gives (view packuments.now) name.now result }
{
    let Some(packument) = packuments.get(name) else {
        return Ok(None);
    };
    match packument.clone() {
        Ok(packument) => Ok(Some(packument)),
        Err(_) => Err(LoadError::Memory),
    }
}

/// The object of a reply with these lines.
fn reply_text(alloc: Global, reply: &Reply<'_>, lines: Vec<u8>) -> Result<String, AllocError> {
    match reply.ending() {
        Ending::Compared(_, absent) => compared_text(alloc, absent, lines),
        ending => kept_text(alloc, reply, ending == Ending::Kept(true), lines),
    }
}

/// The object of the dependencies that are outdated.
fn compared_text(alloc: Global, absent: usize, lines: Vec<u8>) -> Result<String, AllocError> {
    let absent = absent.to_string(alloc)?;
    let rows = json_lines(alloc, lines)?;
    let pieces = [
        "{\"absent\":",
        absent.as_str(),
        ",\"outdated\":[",
        rows.as_str(),
        "]}",
    ];
    joined(alloc, &pieces)
}

/// The object of what a mirror keeps.
fn kept_text(
    alloc: Global,
    reply: &Reply<'_>,
    is_complete: bool,
    lines: Vec<u8>,
) -> Result<String, AllocError> {
    let Reply::Kept(packages, notes) = reply else {
        return String::from_str(alloc, "{}");
    };
    let absent = json_list(alloc, &absent_names(alloc, packages)?)?;
    let kept = String::from_utf8_lossy(alloc, lines.as_slice())?;
    let lacking = json_strings(alloc, &lacking_texts(alloc, packages)?)?;
    let notes = json_strings(alloc, notes)?;
    let pieces = [
        "{\"absent\":",
        absent.as_str(),
        ",\"complete\":",
        word_of(is_complete),
        ",\"kept\":",
        kept.as_str().trim_end(),
        ",\"lacking\":",
        lacking.as_str(),
        ",\"notes\":",
        notes.as_str(),
        "}",
    ];
    joined(alloc, &pieces)
}

/// The error of a call.
fn call_error(alloc: Global, error: RunError, lock: Option<&Document<'_>>) -> CallError {
    match (error, lock) {
        (RunError::NoLock(fault), Some(lock)) => refused_lock(alloc, lock, fault),
        _ => CallError::Memory,
    }
}
