//! `resolve`: versions of packages that fit together.

use crate::asked::Asked;
use crate::call_error::CallError;
use crate::document::Document;
use crate::fault::Fault;
use crate::lock_file::refused_lock;
use crate::manifests::manifest;
use crate::member::text_or;
use crate::omits::omits_of;
use crate::pick_options::{time_of, version_text};
use crate::resolved::{Marks, answer_text};
use npm_packages::{Lock, lock_of};
use npm_pick_reports::version_of;
use npm_resolve::{Omits, Options};
use std::alloc::Global;

/// How many steps of the search are done if nothing else is said.
const STEPS: u64 = 10_000_000;

/// Finds versions that fit together.
pub(crate) fn resolved(given: Asked<'_>) -> Result<String, CallError> {
    let mut asked = given;
    let alloc = asked.alloc;
    let manifest = manifest(&mut asked)?;
    let packuments = asked.document("packuments")?;
    packuments.check_object(alloc)?;
    let tag = asked.text_if_any("tag")?;
    let before = time_of(&mut asked)?;
    let node = version_text(&mut asked, "node")?;
    let file = asked.document_if_any("lock")?;
    let marks = marks_of(&mut asked)?;
    let steps = asked.count_if_any("steps")?.unwrap_or(STEPS);
    asked.end()?;
    let lock = lock_in(alloc, &file)?;
    let node = version_of(&node);
    let options = Options {
        default_tag: text_or(&tag, "latest"),
        before,
        node: node.as_ref(),
        is_lowest: marks.lowest,
        lock,
    };
    let said = answer_text(
        alloc,
        &manifest.value,
        &packuments.value,
        &options,
        marks,
        steps,
    )?;
    Ok(said.object(alloc)?)
}

/// Takes what a search is asked beside its texts. Fails if a lock file is asked for which the rest does not allow.
fn marks_of(asked: &mut Asked<'_>) -> Result<Marks, CallError> {
    let omits = omits_of(asked)?;
    let flat = asked.mark("flat")?;
    let lowest = asked.mark("lowest")?;
    let lockfile = asked.mark("lockfile")?;
    if lockfile && !flat {
        return Err(asked.refused(Fault::NotFlat, "lockfile"));
    }
    if lockfile && leaves_out(omits) {
        return Err(asked.refused(Fault::Omits, "lockfile"));
    }
    Ok(Marks {
        omits,
        flat,
        lowest,
        lockfile,
    })
}

/// Returns `true` if a group is left out.
fn leaves_out(omits: Omits) -> bool {
    omits.dev || omits.optional || omits.peer
}

/// The packages of a lock file, if there is one.
fn lock_in<'d>(
    alloc: Global,
    file: &'d Option<Document<'_>>,
) -> Result<Option<Lock<'d>>, CallError> {
    let Some(document) = file else {
        return Ok(None);
    };
    match lock_of(alloc, &document.value) {
        Ok(lock) => Ok(Some(lock)),
        Err(fault) => Err(refused_lock(alloc, document, fault)),
    }
}
