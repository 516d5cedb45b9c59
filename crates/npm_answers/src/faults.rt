//! The faults of lock files and manifests, and where they are in the text.
use crate::Call;
use crate::written::{end_list, put};
use named_calls::words::{text_at, value_at};
use named_calls::{CallError, Written};
use npm_lock_findings::{FaultPlace, lock_fault_path, manifest_fault_path, root_fault_path};

pub(crate) fn answer(call: &Call<'_>, out: &mut String) -> Written {
    let (alloc, file) = (call.alloc, value_at(call, 0)?);
    let found = match call.name {
        "npm_lock_findings::lock_fault_path" => lock_fault_path(alloc, file)?,
        "npm_lock_findings::manifest_fault_path" => manifest_fault_path(alloc, file)?,
        "npm_lock_findings::root_fault_path" => root_fault_path(alloc, file)?,
        _ => return Err(CallError::Words),
    };
    match &found {
        Some(found) => put(out, &FaultPlace::in_text(alloc, text_at(call, 0), found)?),
        None => end_list(out),
    }
}
