//! Which packages npm installs for the project itself: those of the root and of its workspaces.
ghost use Rattle.std.specs.Prelude.{◌≡◌, option_map};
ghost use Rattle.serde_json.specs.View.{items_view, view};
ghost use Rattle.npm_lock_reports.specs.Projects as Projects;

use npm_lock::{member_at, patterns_of};
use npm_texts::{ends_with, rest_after, without_end};
use serde_json::Value;

/// Returns `true` if the package in this folder is installed for the root or for a workspace of it, and not for another folder that a
/// link names.
pub(crate) fn is_in_project(lock: &Value, folder: &str) -> bool
    ensures { result ≡ Projects.is_in_project (view lock.now) folder.now }
{
    begins(folder, "node_modules/") || is_in_workspace(lock, folder)
}

/// Returns `true` if the text begins so.
fn begins(text: &str, start: &str) -> bool
    ensures { result ≡ Projects.begins text.now start.now }
{
    rest_after(text, start).is_some()
}

/// Returns `true` if the folder is a workspace of the root, or below one.
fn is_in_workspace(lock: &Value, folder: &str) -> bool
    ensures { result ≡ Projects.is_in_workspace (view lock.now) folder.now }
{
    match member_at(lock, "") {
        Some(root) => is_below_workspace(root, folder),
        None => false,
    }
}

/// The same, of this root.
fn is_below_workspace(root: &Value, folder: &str) -> bool
    ensures { result ≡ Projects.is_below_workspace (view root.now) folder.now }
{
    match patterns_of(root) {
        Some(patterns) => !has_negated(patterns) && matches_one(patterns, folder),
        None => false,
    }
}

/// Returns `true` if a pattern begins with `!`: it takes folders away that others match.
fn has_negated(patterns: &[Value]) -> bool
    ensures { result ≡ Projects.has_negated (items_view patterns.now) }
{
    for pattern in patterns {
        if is_negated(pattern) {
            return true;
        }
    }
    false
}

/// Returns `true` if the pattern begins with `!`.
fn is_negated(pattern: &Value) -> bool
    ensures { result ≡ Projects.is_negated (view pattern.now) }
{
    match pattern.as_str() {
        Some(text) => begins(text, "!"),
        None => false,
    }
}

/// Returns `true` if the folder is one that a pattern matches, or below it.
fn matches_one(patterns: &[Value], folder: &str) -> bool
    ensures { result ≡ Projects.matches_one folder.now (items_view patterns.now) }
{
    for pattern in patterns {
        if is_matched(pattern, folder) {
            return true;
        }
    }
    false
}

/// Returns `true` if the pattern is a text that matches the folder, or one that it is below.
fn is_matched(pattern: &Value, folder: &str) -> bool
    ensures { result ≡ Projects.is_matched folder.now (view pattern.now) }
{
    match pattern.as_str() {
        Some(text) => matches(without_start(text), folder),
        None => false,
    }
}

/// The text without `./` at its start.
fn without_start(text: &str) -> &str
    ensures { result.now ≡ Projects.without_start text.now }
{
    match rest_after(text, "./") {
        Some(rest) => rest,
        None => text,
    }
}

/// Returns `true` if the pattern matches the folder, or one that it is below. A pattern matches the folder that it names, with `*` at its end
/// each folder that goes on with a name there, and with `**` each that goes on with a path.
fn matches(pattern: &str, folder: &str) -> bool
    ensures { result ≡ Projects.matches pattern.now folder.now }
{
    if ends_with(pattern, "**") {
        is_path_after(without_end(pattern, "**"), folder)
    } else if ends_with(pattern, "*") {
        is_name_after(without_end(pattern, "*"), folder)
    } else {
        is_at_or_below(pattern, folder)
    }
}

/// Returns `true` if the folder is this one, or what is installed below it.
fn is_at_or_below(top: &str, folder: &str) -> bool
    ensures { result ≡ Projects.is_at_or_below top.now folder.now }
{
    match rest_after(folder, top) {
        Some(rest) => rest.is_empty() || begins(rest, "/node_modules/"),
        None => false,
    }
}

/// Returns `true` if a path follows this start, which is in no `node_modules` of the folder there.
fn is_path_after(start: &str, folder: &str) -> bool
    ensures { result ≡ Projects.is_path_after start.now folder.now }
{
    match rest_after(folder, start) {
        Some(rest) => is_name(rest) && !begins(rest, "node_modules/"),
        None => false,
    }
}

/// Returns `true` if a name follows this start, and then nothing or what is installed below.
fn is_name_after(start: &str, folder: &str) -> bool
    ensures { result ≡ Projects.is_name_after start.now folder.now }
{
    match rest_after(folder, start) {
        Some(rest) => is_name_first(rest),
        None => false,
    }
}

/// Returns `true` if the text is a name, or begins with a name and what is installed below it.
fn is_name_first(text: &str) -> bool
    ensures { result ≡ Projects.is_name_first text.now }
{
    match parts_of(text) {
        Some((name, below)) => is_name(name) && begins(below, "node_modules/"),
        None => is_name(text),
    }
}

/// The text before its first `/`, and after it.
fn parts_of(text: &str) -> Option<(&str, &str)>
    ensures { option_map (λ parts. Projects.part_values parts) result ≡ Projects.parts_of text.now }
{
    text.split_once('/')
}

/// Returns `true` for a name of a folder that is not hidden.
fn is_name(name: &str) -> bool
    ensures { result ≡ Projects.is_name name.now }
{
    !name.is_empty() && !begins(name, ".")
}
