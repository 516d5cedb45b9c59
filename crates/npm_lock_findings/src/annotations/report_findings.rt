//! The report of a lock file as findings.
ghost use Rattle.std.specs.Prelude.{◌≡◌, ◌++◌, IfOk, OnOk, false, is_some, length, map, replicate, true};
ghost use Rattle.npm_advisories.specs.Audit.{found_value};
ghost use Rattle.npm_lock_findings.specs.Findings.{AreFindings};

use crate::annotations::paths::{package_paths, paths_of};
use crate::annotations::rules::{ADVISORY, place_of, rule_of, rules};
use crate::draft::{Draft, findings_in};
use crate::finding::{Finding, Level, Rule};
use npm_advisories::Found;
use npm_lock_reports::{
    Excepted, Reading, Report, Thing, Vague, push_excepted_sentence, things_of,
};
use std::alloc::{AllocError, Global};

/// Returns the findings of a lock file at this path, with this text, in the order of the report's lines, and then of the packages that an
/// advisory hits which is excepted for them. A mismatch is an error if it counts for the status, and else a warning. What is not checked
/// is a note if it does not count, and so is what is excepted, which is suppressed by the reason of its exception.
///
/// The line and the column are those of the dependency in the group of its dependent, of `engines.node` of a package, or of a package.
/// In a lock file of version 1 they are those of the dependency in `requires` of its dependent, or of a package. If none of these is in
/// the text, they are those of the beginning.
///
/// # Errors
///
/// An allocation failed.
///
/// # Memory
///
/// Allocates the findings, and while places are looked up the paths of seven members for each.
pub fn findings_of<'f, 'a>(
    alloc: Global,
    text: &str,
    file: &'f str,
    report: &'a Report,
    found: &'a [Found<'a, 'a>],
) -> Result<Vec<Finding<'f>>, AllocError>
    ensures { IfOk result (λ findings. AreFindings report.now (map found_value found.now) findings.items) }
{
    let rules = rules();
    let things = things_of(alloc, report, found)?;
    let vague = Vague::of(alloc, report)?;
    let mut drafts = Vec::new(alloc);
    for thing in &things {
        drafts.push(draft_of(alloc, &rules, *thing, report, &vague)?)?;
    }
    push_excepted(alloc, &mut drafts, &rules, &report.excepted)?;
    findings_in(alloc, text, file, &drafts)
}

/// Returns the draft of a thing.
fn draft_of<'a>(
    alloc: Global,
    rules: &[Rule<'static>],
    thing: Thing<'a>,
    report: &Report,
    vague: &Vague<'_>,
) -> Result<Draft<'static, 'a>, AllocError>
    ensures { IfOk result (λ draft. is_some draft.suppression ≡ false) }
{
    let mut message = Vec::new(alloc);
    thing.push_sentence(alloc, &mut message, Reading::Browser, vague)?;
    let (rule, id, level) = rule_of(thing, report);
    Ok(Draft {
        rule,
        rule_index: place_of(rules, id),
        level,
        message,
        paths: paths_of(alloc, thing)?,
        suppression: None,
    })
}

/// Adds the drafts of packages that an advisory hits which is excepted for them.
fn push_excepted<'a>(
    alloc: Global,
    drafts: &mut Vec<Draft<'static, 'a>>,
    rules: &[Rule<'static>],
    all: &'a [Excepted],
) -> Result<(), AllocError>
    ensures { OnOk result (map (λ draft. is_some draft.suppression) drafts.new.items
        ≡ map (λ draft. is_some draft.suppression) drafts.old.items ++ replicate (length all.now) true) }
{
    for one in all {
        drafts.push(excepted_draft(alloc, rules, one)?)?;
    }
    Ok(())
}

/// Returns the draft of a package that an advisory hits which is excepted for it.
fn excepted_draft<'a>(
    alloc: Global,
    rules: &[Rule<'static>],
    excepted: &'a Excepted,
) -> Result<Draft<'static, 'a>, AllocError>
    ensures { IfOk result (λ draft. is_some draft.suppression ≡ true) }
{
    let mut message = Vec::new(alloc);
    push_excepted_sentence(alloc, &mut message, Reading::Browser, excepted)?;
    let reason = Vec::from_slice(alloc, excepted.reason.as_bytes())?;
    Ok(Draft {
        rule: ADVISORY,
        rule_index: place_of(rules, ADVISORY),
        level: Level::Note,
        message,
        paths: package_paths(alloc, excepted.folder.as_str())?,
        suppression: Some(reason),
    })
}
