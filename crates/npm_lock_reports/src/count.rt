//! How many packages are left out.
ghost use Rattle.std.specs.Prelude.{◌≡◌};
ghost use Rattle.serde_json.specs.View.{members_view, view};
ghost use Rattle.npm_lock.specs.Findings.{counted};
ghost use Rattle.npm_lock_reports.specs.Count as Counts;

use crate::omissions::Omissions;
use npm_packages::{is_link, members_of};
use serde_json::{Map, Value};

/// Returns how many packages of a lock file are left out, or `None` if no group is. A link is no package.
///
/// # Memory
///
/// Does not allocate.
pub fn count_of(omissions: Omissions, lock: &Value) -> Option<usize>
    ensures { result ≡ Counts.count_of omissions (view lock.now) }
{
    if !omissions.has_some() {
        return None;
    }
    match members_of(lock) {
        Some(members) => Some(count_in(omissions, lock, members)),
        None => Some(0),
    }
}

/// The number of these members that are left out.
fn count_in(omissions: Omissions, lock: &Value, members: &Map<String, Value>) -> usize
    ensures { result ≡ counted (Counts.omitted_in omissions (view lock.now) (members_view members.now.entries)) }
{
    let mut count: usize = 0;
    for (folder, member) in members.iter() {
        if !is_link(member) && omissions.has(lock, folder.as_str(), member) {
            count = count.saturating_add(1);
        }
    }
    count
}
