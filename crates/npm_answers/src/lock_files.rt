//! Lock files of version 1, manifests beside lock files, and workspaces.
use crate::Call;
use crate::checks::all_found;
use crate::written::{end_list, found_of, put, put_if_any, put_item, put_texts};
use named_calls::words::{text_at, value_at, value_if_any};
use named_calls::{CallError, Written};
use npm_lock::{
    SoundLock, check, convert, drop_overrides, key_read_as_another, mismatches_of, put_manifest,
    workspace_patterns, workspace_problem,
};
use serde_json::Value;

pub(crate) fn answer(call: &Call<'_>, out: &mut String) -> Written {
    let (alloc, lock) = (call.alloc, value_at(call, 0)?);
    match call.name {
        "npm_lock::convert" => {
            let made = convert(alloc, lock.clone()?, value_if_any(call, 1));
            put(out, &found_of!(out, made))
        }
        "npm_lock::drop_overrides" => {
            let mut changed = lock.clone()?;
            drop_overrides(alloc, &mut changed)?;
            put(out, &changed)
        }
        "npm_lock::key_read_as_another" => {
            let lock = found_of!(out, SoundLock::of(alloc, lock));
            put_if_any(out, key_read_as_another(&lock, text_at(call, 1)))
        }
        "npm_lock::workspace_patterns" => match &workspace_patterns(alloc, lock)? {
            Some(patterns) if patterns.is_empty() => Ok(out.push_str("no patterns")?),
            Some(patterns) => put_texts(out, patterns),
            None => end_list(out),
        },
        _ => of_both(call, out, lock, value_at(call, 1)?),
    }
}

/// Of a lock file and another value, the manifest in the folder at the third place.
fn of_both(call: &Call<'_>, out: &mut String, lock: &Value, value: &Value) -> Written {
    let (alloc, folder) = (call.alloc, text_at(call, 2));
    match call.name {
        "npm_lock::mismatches_of" => {
            for mismatch in &found_of!(out, mismatches_of(alloc, lock, folder, value)) {
                put_item(out, &mismatch.to_json(alloc)?)?;
            }
            end_list(out)
        }
        "npm_lock::put_manifest" => {
            let mut changed = lock.clone()?;
            put_manifest(alloc, &mut changed, folder, value.clone()?)?;
            put(out, &changed)
        }
        // (of an object that has the manifest of each folder)
        "npm_lock::put_manifest, and a check" => {
            let mut changed = lock.clone()?;
            for (folder, manifest) in value.as_object().ok_or(CallError::Words)?.iter() {
                put_manifest(alloc, &mut changed, folder.as_str(), manifest.clone()?)?;
            }
            all_found(call, out, check(alloc, &changed, None))
        }
        "npm_lock::workspace_problem" => {
            let name = value.as_str().ok_or(CallError::Words)?;
            match &workspace_problem(alloc, lock, name, folder)? {
                Some(problem) => put(out, &problem.to_json(alloc)?),
                None => end_list(out),
            }
        }
        _ => Err(CallError::Words),
    }
}
