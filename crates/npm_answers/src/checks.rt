//! Checks of lock files: of the file, a manifest, and a version of Node if the text is one.
use crate::Call;
use crate::written::{end_list, found_of, put_item};
use named_calls::words::{text_at, value_at, value_if_any};
use named_calls::{CallError, Written, list_of};
use node_semver::Version;
use npm_lock::{CheckError, Dependency, Problems, check, check_any, suspicious_sources};
use serde_json::Value;
use std::alloc::AllocError;

type Checked = Result<Problems, CheckError>;

pub(crate) fn answer(call: &Call<'_>, out: &mut String) -> Written {
    let lock = value_at(call, 0)?;
    match call.name {
        "npm_lock::check" => all_found(call, out, checked(call, lock)),
        "npm_lock::check, its problems" => problems(out, checked(call, lock), false),
        "npm_lock::check, in few words" => problems(out, checked(call, lock), true),
        "npm_lock::check_any" => all_found(call, out, any_checked(call, lock)),
        "npm_lock::check_any, its problems" => problems(out, any_checked(call, lock), false),
        "npm_lock::suspicious_sources" => sources(call, out, lock, true),
        "npm_lock::suspicious_sources, in few words" => sources(call, out, lock, false),
        _ => Err(CallError::Words),
    }
}

fn checked(call: &Call<'_>, lock: &Value) -> Checked {
    check(call.alloc, lock, node_of(call).as_ref())
}

fn any_checked(call: &Call<'_>, lock: &Value) -> Checked {
    let (manifest, node) = (value_if_any(call, 1), node_of(call));
    check_any(call.alloc, lock, manifest, node.as_ref())
}

/// The version of Node, of which no text here needs memory.
fn node_of(call: &Call<'_>) -> Option<Version> {
    match text_at(call, 2) {
        "" => None,
        text => Version::parse(call.alloc, text).ok(),
    }
}

/// The problems, the dependencies that are not checked, and the counts.
pub(crate) fn all_found(call: &Call<'_>, out: &mut String, found: Checked) -> Written {
    let found = found_of!(out, found);
    for problem in &found.list {
        put_item(out, &problem.to_json(call.alloc)?)?;
    }
    for unchecked in &found.unchecked {
        put_item(out, &unchecked.to_json(call.alloc)?)?;
    }
    let (packages, dependencies) = (found.packages, found.dependencies);
    Ok(write!(out, "{packages} packages, {dependencies} dependencies")?)
}

/// The problems in few words, and what is not checked, if this is asked too.
fn problems(out: &mut String, found: Checked, has_unchecked: bool) -> Written {
    let found = found_of!(out, found);
    for problem in &found.list {
        push_finding(out, problem.kind.as_str(), &problem.dependency)?;
    }
    if has_unchecked {
        for unchecked in &found.unchecked {
            push_finding(out, "unchecked", &unchecked.dependency)?;
        }
    }
    end_list(out)
}

/// What is found of the root is `missing a`, of another package `missing a of node_modules/b`.
fn push_finding(out: &mut String, word: &str, found: &Dependency) -> Result<(), AllocError> {
    let (name, from) = (&found.name, &found.from);
    let before = if out.is_empty() { "" } else { ", " };
    let of = if from.is_empty() { "" } else { " of " };
    write!(out, "{before}{word} {name}{of}{from}")
}

/// What is suspicious in where packages come from. Each text is the URL of a registry.
fn sources(call: &Call<'_>, out: &mut String, lock: &Value, in_full: bool) -> Written {
    let (alloc, places) = (call.alloc, 1..call.words.len());
    let registries =
        list_of!(alloc, places, place => String::from_str(alloc, text_at(call, place))?);
    for source in &suspicious_sources(alloc, lock, &registries)? {
        if in_full {
            put_item(out, &source.to_json(alloc)?)?;
        } else {
            write!(out, "{} {}\t", source.kind.as_str(), source.folder)?;
        }
    }
    end_list(out)
}
