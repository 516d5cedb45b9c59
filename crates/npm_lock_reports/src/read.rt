//! How many advisories a file has.
ghost use Rattle.std.specs.Prelude.{◌≡◌};
ghost use Rattle.serde_json.specs.View.{members_view, view};
ghost use Rattle.npm_lock_reports.specs.Read as Reads;

use serde_json::{Map, Value};

/// Returns `true` if the value is a file of advisories, in either form, with no advisory in it: an empty list, or an object of which each
/// member is an empty list.
///
/// # Memory
///
/// Does not allocate.
pub fn has_no_advisory(file: &Value) -> bool
    ensures { result ≡ Reads.has_no_advisory (view file.now) }
{
    match file {
        Value::Array(_) => is_empty_list(file),
        Value::Object(members) => are_empty_lists(members),
        _ => false,
    }
}

/// Returns `true` if each member is an empty list.
fn are_empty_lists(members: &Map<String, Value>) -> bool
    ensures { result ≡ Reads.are_empty_lists (members_view members.now.entries) }
{
    for (_, member) in members.iter() {
        if !is_empty_list(member) {
            return false;
        }
    }
    true
}

/// Returns `true` for a list of nothing.
fn is_empty_list(value: &Value) -> bool
    ensures { result ≡ Reads.is_empty_list (view value.now) }
{
    match value.as_array() {
        Some(items) => items.as_slice().is_empty(),
        None => false,
    }
}

/// Returns how many advisories the file has: in OSV's form a list of them or one, and in npm's a list for each package.
///
/// # Memory
///
/// Does not allocate.
pub fn count_read(file: &Value) -> usize {
    match file {
        Value::Array(entries) => entries.len(),
        Value::Object(members) => count_in(members),
        _ => 0,
    }
}

/// The number of advisories in an object: OSV's form has one, whose `id` is a text.
fn count_in(members: &Map<String, Value>) -> usize {
    let mut count: usize = 0;
    for (name, member) in members.iter() {
        match member {
            Value::Array(entries) => count = count.saturating_add(entries.len()),
            Value::String(_) if name.as_str() == "id" => return 1,
            _ => {}
        }
    }
    count
}
