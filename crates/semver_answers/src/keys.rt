//! Calls of `semver_keys`.
use crate::word::{range_at, text_at, version_at, version_of};
use crate::written::{are_alike, end_list, put_bytes, put_if_any, separate};
use crate::{Call, parts};
use named_calls::{CallError, Written};
use node_semver::{Version, VersionRef};
use semver_cuts::Cut;
use semver_keys::{
    KeyInterval, add_version_key, cut_key, range_intervals, range_intervals_with_prereleases,
    version_key, version_of_key,
};
use std::alloc::{AllocError, Global};

pub(crate) fn answer(call: &Call<'_>, out: &mut String) -> Written {
    let (alloc, text) = (call.alloc, text_at(call, 0));
    match call.name {
        "semver_keys::version_key" => {
            let key = version_key(alloc, version_at(call, 0)?)?;
            if let Ok(borrowed) = &VersionRef::parse(text) {
                are_alike(version_key(alloc, borrowed)? == key)?;
            }
            put_bytes(out, &key)
        }
        // (the buffer has a byte, and of a text that is no version there is no key)
        "semver_keys::add_version_key" => {
            let mut key = Vec::new(alloc);
            key.push(7)?;
            if let Ok(version) = &VersionRef::parse(text) {
                add_version_key(&mut key, version)?;
            }
            put_bytes(out, &key)
        }
        "semver_keys::cut_key" => put_bytes(out, &cut_key(alloc, &cut_of(alloc, text)?)?),
        "semver_keys::range_intervals" => {
            put_intervals(out, &range_intervals(alloc, range_at(call, 0)?)?)
        }
        "semver_keys::range_intervals_with_prereleases" => {
            let range = range_at(call, 0)?;
            put_intervals(out, &range_intervals_with_prereleases(alloc, range)?)
        }
        "semver_keys::version_of_key" => put_if_any(out, version_in(call)),
        "semver_keys::version_of_key, its parts" => {
            if let Some(version) = &version_in(call)? {
                parts::push(out, version)?;
            }
            end_list(out)
        }
        _ => Err(CallError::Words),
    }
}

/// The version of the key of the first word.
fn version_in(call: &Call<'_>) -> Result<Option<Version>, AllocError> {
    match call.words.first().and_then(|word| word.bytes.as_ref()) {
        Some(key) => version_of_key(call.alloc, key),
        None => Ok(None),
    }
}

/// `start`, `end`, and a version after `before ` or `after `.
fn cut_of(alloc: Global, text: &str) -> Result<Cut<Version>, CallError> {
    let (word, text) = text.split_once(' ').unwrap_or((text, ""));
    match (word, version_of(alloc, text)) {
        ("start", _) => Ok(Cut::Start),
        ("before", Ok(version)) => Ok(Cut::Before(version)),
        ("after", Ok(version)) => Ok(Cut::After(version)),
        ("end", _) => Ok(Cut::End),
        _ => Err(CallError::Words),
    }
}

fn put_intervals(out: &mut String, intervals: &[KeyInterval]) -> Written {
    for interval in intervals {
        separate(out, "; ")?;
        out.push_str(if interval.prereleases {
            "prereleases"
        } else {
            "releases"
        })?;
        push_bytes(out, &interval.lower)?;
        out.push_str(" to")?;
        push_bytes(out, &interval.upper)?;
    }
    end_list(out)
}

/// Appends bytes as numbers, each with a blank before it.
fn push_bytes(out: &mut String, bytes: &[u8]) -> Written {
    for byte in bytes {
        write!(out, " {byte}")?;
    }
    Ok(())
}
