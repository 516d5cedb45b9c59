//! Which folders are workspaces of the root.
ghost use Rattle.std.specs.Prelude.{◌≡◌, ◌⊎◌, ◌↔◌, ℕ, IfOk, IsTrue, List, OnOk, map, option_map, true};
ghost use Rattle.serde_json.specs.View.{items_view, view};
ghost use Rattle.npm_lock.specs.Private.PatternSteps as PatternSteps;
ghost use Rattle.npm_lock.specs.Workspaces as Workspaces;
ghost use Rattle.npm_lock.specs.Workspaces.{IsWorkspace, IsWorkspaceAs};
ghost use Rattle.npm_packages.specs.PackageValue.{package_value};
ghost use Rattle.npm_lock.specs.Private.Patterns.{ArePatternsOf, HasMatched, IsSaid};

use crate::Result;
use crate::pattern::{is_literal_text, is_read_text, pattern_of};
use crate::patterns::Patterns;
use npm_packages::{Package, is_installed, is_named};
use serde_json::Value;
use std::alloc::Global;

/// Whether a folder is a workspace.
#[derive(Clone, Copy, Debug, PartialEq, Eq, Drop)]
pub(crate) enum Workspace {
    Is,
    IsNot,
    /// A pattern is not read here.
    Unread,
}

/// Returns the patterns of `workspaces` of a root's manifest, in their order, each without `./` or `/` at its start:
/// a folder, `folder/*` and `folder/**`. No patterns are an empty list. Returns `None` if one of them is not read here, as
/// `!w` and `w-*`: then it is not known which folders are workspaces.
///
/// # Errors
///
/// An allocation failed.
pub fn workspace_patterns(alloc: Global, root: &Value) -> Result<Option<Vec<&str>>>
    ensures { IfOk result (λ list. Workspaces.ArePatternsOfRoot (view root.now)
        (option_map (λ list. map (λ text. text.now) list.items) list)) }
{
    read_patterns(alloc, root)
}

/// The patterns of a root's manifest, if each of them is read here.
fn read_patterns(alloc: Global, root: &Value) -> Result<Option<Vec<&str>>>
    ensures { IfOk result (λ list. option_map (λ list. map (λ text. text.now) list.items) list
        ≡ PatternSteps.read_patterns (view root.now)) }
{
    let Some(patterns) = patterns_of(root) else {
        return Ok(Some(Vec::new(alloc)));
    };
    if has_unread(patterns) {
        return Ok(None);
    }
    match texts_of(alloc, patterns) {
        Ok(texts) => Ok(Some(texts)),
        Err(error) => Err(error),
    }
}

/// The patterns of a list of texts.
fn texts_of<'v>(alloc: Global, patterns: &'v [Value]) -> Result<Vec<&'v str>>
    ensures { IfOk result (λ list. map (λ text. text.now) list.items ≡ Workspaces.texts_of (items_view patterns.now)) }
{
    let mut list = Vec::new(alloc);
    for pattern in patterns {
        if let Some(text) = pattern.as_str() {
            list.push(pattern_of(text))?;
        }
    }
    Ok(list)
}

/// The patterns of a package. Only the root has workspaces.
pub(crate) fn asker_patterns<'v>(alloc: Global, asker: Package<'v>) -> Result<Patterns<'v>>
    ensures { IfOk result (ArePatternsOf asker.entry.folder.now (view asker.entry.member.now)) }
{
    if !asker.folder.is_empty() {
        return Ok(Patterns::none(alloc));
    }
    match patterns_of(asker.member) {
        Some(patterns) => in_sets(alloc, patterns),
        None => Ok(Patterns::none(alloc)),
    }
}

/// The patterns of a list.
fn in_sets<'v>(alloc: Global, patterns: &'v [Value]) -> Result<Patterns<'v>>
    ensures { IfOk result (λ made. (folder : List ℕ) (found : Workspace) → IsSaid made folder found
        → found ≡ PatternSteps.by_patterns folder (items_view patterns.now)) }
{
    let mut made = Patterns::none(alloc);
    made.has_unread = has_unknown(patterns);
    if made.has_unread {
        return Ok(made);
    }
    for pattern in patterns {
        add_pattern(&mut made, pattern)?;
    }
    Ok(made)
}

/// Adds a pattern that is read.
fn add_pattern<'v>(patterns: &mut Patterns<'v>, pattern: &'v Value) -> Result<()>
    ensures unread { patterns.new.has_unread ≡ patterns.old.has_unread }
    ensures matched { OnOk result (PatternSteps.is_such PatternSteps.is_read (view pattern.now) ≡ true
        → (folder : List ℕ) → HasMatched patterns.new folder
        ↔ (HasMatched patterns.old folder
        ⊎ IsTrue (PatternSteps.is_such (PatternSteps.is_matched folder) (view pattern.now)))) }
{
    match pattern.as_str() {
        Some(text) => patterns.add(pattern_of(text)),
        None => Ok(()),
    }
}

/// Returns whether the package that was found for another under this name is a workspace of it, which has these patterns.
pub(crate) fn workspace_as<'v>(
    asker: Package<'_>,
    patterns: &Patterns<'v>,
    name: &str,
    found: Package<'v>,
) -> Workspace
    requires { ArePatternsOf asker.folder.now (view asker.member.now) patterns.now }
    ensures { IsWorkspaceAs asker.entry.folder.now (view asker.entry.member.now) name.now (package_value found.entry) result }
{
    // Most packages are in a `node_modules`, which takes less time to see than their names.
    let said = workspace_of(asker, patterns, found.folder);
    if let Workspace::IsNot = said {
        return Workspace::IsNot;
    }
    if is_named(found, name) {
        said
    } else {
        Workspace::IsNot
    }
}

/// Returns whether the folder of a package that was found for another is a workspace of it, which has these patterns.
fn workspace_of<'v>(asker: Package<'_>, patterns: &Patterns<'v>, folder: &'v str) -> Workspace
    requires { ArePatternsOf asker.folder.now (view asker.member.now) patterns.now }
    ensures { IsWorkspace asker.entry.folder.now (view asker.entry.member.now) folder.now result }
{
    if is_installed(folder) {
        Workspace::IsNot
    } else if patterns.has_unread {
        Workspace::Unread
    } else if patterns.has_matched(folder) {
        Workspace::Is
    } else {
        Workspace::IsNot
    }
}

/// Returns the patterns of `workspaces` of a root: a list, or the list `packages` of an object.
pub fn patterns_of(root: &Value) -> Option<&Vec<Value>>
    ensures { option_map (λ list. items_view list.now.items) result ≡ Workspaces.patterns_of (view root.now) }
{
    let said = root.get("workspaces")?;
    match said.get("packages").and_then(Value::as_array) {
        Some(patterns) => Some(patterns),
        None => said.as_array(),
    }
}

/// Returns `true` if a pattern is not read here.
pub(crate) fn has_unread(patterns: &[Value]) -> bool
    ensures { result ≡ PatternSteps.has_unread (items_view patterns.now) }
{
    for pattern in patterns {
        if !is_read(pattern) {
            return true;
        }
    }
    false
}

/// Returns `true` if a pattern is not read here, or matches other paths than it says.
fn has_unknown(patterns: &[Value]) -> bool
    ensures { result ≡ PatternSteps.has_unknown (items_view patterns.now) }
{
    for pattern in patterns {
        if !is_literal(pattern) {
            return true;
        }
    }
    false
}

/// Returns `true` for a pattern that is read here, and matches the paths that it says.
fn is_literal(pattern: &Value) -> bool
    ensures { result ≡ PatternSteps.is_such PatternSteps.is_literal (view pattern.now) }
{
    pattern
        .as_str()
        .is_some_and(|text| is_literal_text(pattern_of(text)))
}

/// Returns `true` for a pattern that is read here.
fn is_read(pattern: &Value) -> bool
    ensures { result ≡ PatternSteps.is_such PatternSteps.is_read (view pattern.now) }
{
    pattern
        .as_str()
        .is_some_and(|text| is_read_text(pattern_of(text)))
}
