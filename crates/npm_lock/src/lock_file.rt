//! The problems of all packages.
ghost use Rattle.std.specs.Prelude.{◌≡◌, ◌↔◌, List, IfOk, IsErrOf, OnOk, Some, option_map};
ghost use Rattle.std.specs.Cmp.Lexicographic.{slice_cmp};
ghost use Rattle.std.specs.List.Sorted.{IsStrictlySortedBy};
ghost use Rattle.std.specs.Ordering.{nat_cmp};
ghost use Rattle.serde_json.specs.View.{members_view, view};
ghost use Rattle.npm_packages.specs.Faults as Faults;
ghost use Rattle.npm_lock.specs.Findings.{AreFindings, AreMemberFindings, Finding, IsChecked, IsReport};
ghost use Rattle.npm_texts.specs.ObjectKeys.{keys_of};
ghost use Rattle.npm_packages.specs.declared.fault.Fault.{Fault};
ghost use Rattle.npm_lock.specs.Private.Adding.{Adds};
ghost use Rattle.npm_packages.specs.Index.{IsIndexOf};
ghost use Rattle.npm_packages.specs.PackageValue.{packages_data};
ghost use Rattle.npm_packages.specs.Rules.{AreRules};

use crate::Result;
use crate::outcome::{Asker, add_judgement, engine_problem, judgement_of};
use crate::problem::Problems;
use crate::workspace::asker_patterns;
use node_semver::Version;
use npm_packages::{
    CheckError, Index, Lock, Package, Rules, SoundLock, asked_of, is_installed, is_link,
    outermost_of, overridden,
};
use serde_json::Value;
use std::alloc::Global;

/// Returns the problems of a lock file: dependencies that are missing, or whose version does not satisfy the spec. With
/// a version of Node, also each package whose `engines.node` does not admit it.
///
/// # Errors
///
/// - `Refused`: the value is no lock file of version 2 or 3, or a member that counts has the wrong type. `check_any` reads
///   version 1 too.
/// - `Memory`: an allocation failed.
pub fn check(alloc: Global, lock: &Value, node: Option<&Version>) -> Result<Problems, CheckError>
    ensures found { IfOk result (IsChecked (view lock.now) (option_map (λ version. version.now) node.entry)) }
    ensures refused { (fault : Fault) → IsErrOf result (CheckError.Refused fault)
        ↔ (Faults.lock_fault (view lock.now) ≡ Some fault) }
{
    match SoundLock::of(alloc, lock) {
        Ok(lock) => check_sound_lock(&lock, node).map_err(|_| CheckError::Memory),
        Err(error) => Err(error),
    }
}

/// Returns the problems of a lock file without a fault, as [`check`] does.
///
/// # Errors
///
/// An allocation failed.
///
/// # Examples
///
/// Who checks a lock file and has it audited makes the [`SoundLock`] once, and hands it to this and to `audit_sound_lock` of
/// npm_advisories.
pub fn check_sound_lock(lock: &SoundLock<'_>, node: Option<&Version>) -> Result<Problems>
    ensures { IfOk result (IsChecked (view lock.now) (option_map (λ version. version.now) node.entry)) }
{
    problems_of(lock.packages(), lock.index(), lock.rules(), node)
}

/// The problems of the members of `packages`.
fn problems_of<'v>(
    lock: Lock<'v>,
    index: &Index<'v>,
    rules: &Rules<'v>,
    node: Option<&Version>,
) -> Result<Problems>
    requires index { IsIndexOf (packages_data lock) index.now }
    requires rules { AreRules (packages_data lock) rules.now }
    ensures ascending { IfOk result (λ problems.
        IsStrictlySortedBy (slice_cmp nat_cmp) (keys_of (members_view lock.entry.members.now.entries))) }
    ensures found { IfOk result (λ problems. (found : List Finding)
        × AreFindings (packages_data lock.entry) (option_map (λ version. version.now) node.entry)
        (members_view lock.entry.members.now.entries) found
        × IsReport found problems) }
{
    let mut problems = Problems::new(lock.alloc);
    for (folder, member) in lock.members.iter() {
        let folder = folder.as_str();
        let asker = Package { folder, member };
        add_problems(lock, node, index, rules, asker, &mut problems)?;
    }
    Ok(problems)
}

/// Adds the problems of one member of `packages`: that with the version of Node, and then those of its dependencies.
fn add_problems<'v>(
    lock: Lock<'v>,
    node: Option<&Version>,
    index: &Index<'v>,
    rules: &Rules<'v>,
    asker: Package<'v>,
    problems: &mut Problems,
) -> Result<()>
    requires index { IsIndexOf (packages_data lock) index.now }
    requires rules { AreRules (packages_data lock) rules.now }
    ensures { OnOk result ((found : List Finding)
        × AreMemberFindings (packages_data lock.entry) (option_map (λ version. version.now) node.entry) asker.entry.folder.now
        (view asker.entry.member.now) found
        × Adds problems.old problems.new found) }
{
    if is_link(asker.member) {
        return Ok(());
    }
    problems.add_package(engine_problem(lock.alloc, node, asker)?)?;
    let is_installed = is_installed(asker.folder);
    let outermost = outermost_of(asker.folder);
    let patterns = asker_patterns(lock.alloc, asker)?;
    let all = asked_of(lock.alloc, asker.member, is_installed)?;
    let asking = Asker {
        package: asker,
        patterns: &patterns,
        outermost,
        is_installed,
    };
    for (name, asked) in all.iter() {
        let changed = overridden(rules, asker.folder, *name, *asked);
        let judgement = judgement_of(lock, index, &asking, *name, changed)?;
        add_judgement(problems, lock.alloc, asker, *name, changed, judgement)?;
    }
    Ok(())
}
