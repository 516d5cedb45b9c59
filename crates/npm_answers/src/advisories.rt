//! Security advisories and the packages that they hit. The advisories come first.
use crate::Call;
use crate::written::{end_list, put, put_if_any, put_item};
use json_places::{Path, Step};
use named_calls::members::{items_in, items_of, text_if_any, text_in, texts_of};
use named_calls::words::{text_at, value_at};
use named_calls::{CallError, Written, list_of};
use node_semver::Version;
use npm_advisories::{
    AdvisoryId, AuditError, Date, Fault, Found, Installed, LockError, Severity, audit, audit_lock,
    fault_steps,
};
use npm_lock_findings::ShownPlace;
use serde_json::Value;
use std::alloc::{AllocError, Global};

/// The day on which all advisories are asked.
const TODAY: Date = Date {
    year: 2024,
    month: 2,
    day: 29,
};

pub(crate) fn answer(call: &Call<'_>, out: &mut String) -> Written {
    let (alloc, file, name) = (call.alloc, value_at(call, 0)?, text_at(call, 1));
    match call.name {
        "npm_advisories::audit, of one package" => {
            let list = [package(alloc, name, text_at(call, 2))];
            audited(call, out, audit(alloc, file, TODAY, Severity::Info, &list))
        }
        "npm_advisories::audit, a title alone" => {
            put_if_any(out, title_of(alloc, file, name, text_at(call, 2)))
        }
        "npm_advisories::audit" | "npm_advisories::audit, its fault" => {
            let list = installed_of(alloc, value_at(call, 1)?)?;
            let level = Severity::of_text(text_at(call, 2));
            audited(call, out, audit(alloc, file, TODAY, level, &list))
        }
        // (of a list, and of the text that has the advisories)
        "npm_advisories::audit, a folder alone" => {
            put_if_any(out, folder_of(alloc, name, &installed_of(alloc, file)?))
        }
        "npm_advisories::audit_lock" | "npm_advisories::audit_lock, its offers" => {
            let level = Severity::of_text(text_at(call, 2));
            match audit_lock(alloc, file, TODAY, level, value_at(call, 1)?) {
                Ok(found) => found_packages(call, out, &found),
                Err(error) => refused_lock(out, error),
            }
        }
        "npm_advisories::fault_steps" | "npm_advisories::fault_steps, in the text" => {
            steps_to_fault(call, out, file, value_at(call, 1)?)
        }
        _ => Err(CallError::Words),
    }
}

/// The packages of a list: each has `folder`, `name`, `version` if it has one, and the range texts `asked`.
fn installed_of(alloc: Global, list: &Value) -> Result<Vec<Installed<'_>>, AllocError> {
    let items = items_of(list);
    Ok(list_of!(alloc, items, item => Installed {
        folder: text_in(item, "folder"),
        name: text_in(item, "name"),
        version: text_if_any(item, "version"),
        asked: texts_of(alloc, items_in(item, "asked"))?,
    }))
}

/// A package of a name and a version.
fn package<'v>(alloc: Global, name: &'v str, version: &'v str) -> Installed<'v> {
    Installed {
        folder: "",
        name,
        version: Some(version),
        asked: Vec::new(alloc),
    }
}

type Audited<'a> = Result<Vec<Found<'a, 'a>>, AuditError<'a>>;

/// The packages that are hit, whether there is one, or that there is no fault.
fn audited(call: &Call<'_>, out: &mut String, found: Audited<'_>) -> Written {
    match &found {
        Ok(found) => match call.name {
            "npm_advisories::audit" => found_packages(call, out, found),
            "npm_advisories::audit, its fault" => Ok(out.push_str("no fault")?),
            _ => put(out, &!found.is_empty()),
        },
        Err(AuditError::Refused(fault)) => refused(out, *fault),
        Err(AuditError::Memory) => Err(AllocError.into()),
    }
}

/// The packages that are hit, or the folder and the name of each, and the versions that are offered.
fn found_packages(call: &Call<'_>, out: &mut String, list: &[Found<'_, '_>]) -> Written {
    for found in list {
        if call.name.ends_with("its offers") {
            write!(out, "{} {} ", found.folder, found.name)?;
            push_version(out, found.least.as_ref(), " ")?;
            push_version(out, found.admitted.as_ref(), "\t")?;
        } else {
            put_item(out, &found.to_json(call.alloc)?)?;
        }
    }
    end_list(out)
}

fn push_version(out: &mut String, version: Option<&Version>, end: &str) -> Result<(), AllocError> {
    match version {
        Some(version) => write!(out, "{version}{end}"),
        None => write!(out, "none{end}"),
    }
}

/// A fault of advisories: its kind, the name and the place, and the id of the advisory if it has one.
fn refused(out: &mut String, fault: Fault<'_>) -> Written {
    let (kind, name, place) = (fault.kind, fault.name, fault.place);
    write!(out, "{kind:?} \"{name}\" {place}")?;
    match fault.id {
        Some(AdvisoryId::Number(id)) => Ok(write!(out, " {id}")?),
        Some(AdvisoryId::Text(id)) => Ok(write!(out, " {id}")?),
        None => Ok(()),
    }
}

/// The title of the first advisory that hits a package, which does not live as long as the title.
fn title_of<'f>(alloc: Global, file: &'f Value, name: &str, version: &str) -> Option<&'f str> {
    let list = [package(alloc, name, version)];
    let found = audit(alloc, file, TODAY, Severity::Info, &list).ok()?;
    found.first()?.hits.first()?.title
}

/// The folder of the first of these packages that is hit. The text has the advisories, which do not live as long as the folder.
fn folder_of<'v>(alloc: Global, text: &str, installed: &[Installed<'v>]) -> Option<&'v str> {
    let file = Value::from_str(alloc, text).ok()?;
    let found = audit(alloc, &file, TODAY, Severity::Info, installed).ok()?;
    Some(found.first()?.folder)
}

/// The steps to the fault of advisories beside a lock file, or its place in their text.
fn steps_to_fault(call: &Call<'_>, out: &mut String, file: &Value, lock: &Value) -> Written {
    let fault = match audit_lock(call.alloc, file, TODAY, Severity::Info, lock) {
        Err(LockError::Advisories(fault)) => fault,
        Err(error) => return refused_lock(out, error),
        Ok(_) => return end_list(out),
    };
    match fault_steps(call.alloc, file, lock, fault) {
        Ok(steps) if call.name.ends_with("in the text") => {
            let (subject, rank) = (0, 0);
            let path = Path {
                steps,
                subject,
                rank,
            };
            let place = ShownPlace::of_path(call.alloc, text_at(call, 0), path)?;
            put(out, &place)
        }
        Ok(steps) => push_steps(out, &steps),
        Err(error) => refused_lock(out, error),
    }
}

/// The names of members, and the positions of items.
fn push_steps(out: &mut String, steps: &[Step<'_>]) -> Written {
    for step in steps {
        match step {
            Step::Member(name) => put_item(out, name)?,
            Step::Item(position) => put_item(out, position)?,
        }
    }
    end_list(out)
}

/// Why there is no audit of a lock file.
fn refused_lock(out: &mut String, error: LockError<'_>) -> Written {
    match error {
        LockError::Memory => Err(AllocError.into()),
        LockError::Lock(fault) => put(out, &fault),
        LockError::Advisories(fault) => refused(out, fault),
    }
}
