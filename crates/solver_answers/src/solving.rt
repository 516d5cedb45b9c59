//! Instances of `version_solving`, by numbers.
//!
//! An instance is a JSON array: the demands of the root; for each name its candidates, each the list of its demands; for each range a list
//! that has 1 for a candidate that it allows, else 0; and, if they are there, the steps that each search may take, as a number or as a list
//! of those for the selection, the culprits and the reasons. A demand is an array of a name, a range and whether it needs the name. The
//! answer is `selected` and the choices `name=candidate` in their order; `none`, the culprits `name:range` and the reasons; or `undecided`.
//!
//! The answer to an instance that has lines after the steps is `reasons` or `no reasons`.
use crate::Call;
use crate::reasons::{lines_of, push_lines};
use named_calls::members::{is_true_at, items_at, items_of, number_at};
use named_calls::words::value_at;
use named_calls::{CallError, Written, list_of};
use serde_json::Value;
use std::alloc::{AllocError, Global};
use version_solving::{
    Candidate, Demand, Documents, Outcome, Package, Range, culprits, is_proof, reasons, solve,
};

/// The steps where an instance has no number of them: more than any of the instances takes.
const STEPS: u64 = 10_000_000;

pub(crate) fn answer(call: &Call<'_>, out: &mut String) -> Written {
    match call.name {
        "version_solving::solve" => Ok(push(call.alloc, value_at(call, 0)?, out)?),
        _ => Err(CallError::Words),
    }
}

/// Appends the answer to an instance.
fn push(alloc: Global, instance: &Value, out: &mut String) -> Result<(), AllocError> {
    let root = demands_of(alloc, items_at(instance, 0))?;
    let (packages, ranges) = (items_at(instance, 1), items_at(instance, 2));
    let packages = list_of!(alloc, packages, package => package_of(alloc, package)?);
    let ranges = list_of!(alloc, ranges, range => range_of(alloc, range)?);
    let documents = Documents { packages, ranges };
    if let Some(lines) = instance.get(4) {
        let is = is_proof(&root, &documents, &lines_of(alloc, lines)?);
        return out.push_str(if is { "reasons" } else { "no reasons" });
    }
    let blamed = match solve(alloc, &root, &documents, steps_at(instance, 0))? {
        Outcome::Selected(choices) => {
            out.push_str("selected")?;
            for choice in &choices {
                write!(out, " {}={}", choice.name, choice.candidate)?;
            }
            return Ok(());
        }
        Outcome::NoSelection => culprits(alloc, &root, &documents, steps_at(instance, 1))?,
        Outcome::Undecided => None,
    };
    let Some(demands) = &blamed else {
        return out.push_str("undecided");
    };
    out.push_str("none")?;
    for demand in demands {
        write!(out, " {}:{}", demand.name, demand.range)?;
    }
    match &reasons(alloc, demands, &documents, steps_at(instance, 2))? {
        Some(lines) => push_lines(out, lines),
        None => out.push_str(" | undecided"),
    }
}

fn package_of(alloc: Global, package: &Value) -> Result<Package, AllocError> {
    let lists = items_of(package);
    let candidates = list_of!(alloc, lists, list => Candidate {
        demands: demands_of(alloc, items_of(list))?
    });
    Ok(Package { candidates })
}

fn range_of(alloc: Global, range: &Value) -> Result<Range, AllocError> {
    let items = items_of(range);
    let allowed = list_of!(alloc, items, item => item.as_u64() == Some(1));
    Ok(Range { allowed })
}

fn demands_of(alloc: Global, list: &[Value]) -> Result<Vec<Demand>, AllocError> {
    Ok(list_of!(alloc, list, demand => demand_of(demand)))
}

pub(crate) fn demand_of(demand: &Value) -> Demand {
    Demand {
        name: number_at(demand, 0),
        range: number_at(demand, 1),
        needed: is_true_at(demand, 2),
    }
}

/// The steps that a search may take: the number, or the one at this place of a list.
fn steps_at(instance: &Value, place: usize) -> u64 {
    let Some(steps) = instance.get(3) else {
        return STEPS;
    };
    steps.get(place).unwrap_or(steps).as_u64().unwrap_or(STEPS)
}
