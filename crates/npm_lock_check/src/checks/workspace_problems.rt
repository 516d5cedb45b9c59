//! The problems of workspaces that were found on disk.
ghost use Rattle.std.specs.Prelude.{◌≡◌, ◌++◌, List, IfOk, OnOk, map};
ghost use Rattle.serde_json.specs.View.{view};
ghost use Rattle.npm_lock.specs.Outcomes.{problem_value};
ghost use Rattle.npm_lock.specs.declared.problem.Problem.{Problem};
ghost use Rattle.npm_lock_check.specs.Report.{workspace_problems};
ghost use Rattle.npm_manifest_files.specs.Linked.{workspace_value};

use npm_lock::{Problem, workspace_problem};
use npm_manifest_files::Workspace;
use serde_json::Value;
use std::alloc::{AllocError, Global};

/// Adds the problems of workspaces that were found on disk, before the others.
pub(crate) fn add_workspaces(
    alloc: Global,
    list: &mut Vec<Problem>,
    lock: &Value,
    workspaces: &[Workspace],
) -> Result<(), AllocError>
    ensures { OnOk result ((first : List Problem) × (map problem_value first
        ≡ workspace_problems (view lock.now) (map workspace_value workspaces.now))
        × (list.new.items ≡ first ++ list.old.items)) }
{
    let mut all = problems_of(alloc, lock, workspaces)?;
    all.append(list)?;
    *list = all;
    Ok(())
}

/// The problems of workspaces that were found on disk.
fn problems_of(
    alloc: Global,
    lock: &Value,
    workspaces: &[Workspace],
) -> Result<Vec<Problem>, AllocError>
    ensures { IfOk result (λ list. map problem_value list.items
        ≡ workspace_problems (view lock.now) (map workspace_value workspaces.now)) }
{
    let mut list = Vec::new(alloc);
    for one in workspaces {
        match workspace_problem(alloc, lock, one.name.as_str(), one.folder.as_str()) {
            Ok(Some(problem)) => list.push(problem)?,
            Ok(None) => {}
            Err(error) => return Err(error),
        }
    }
    Ok(list)
}
