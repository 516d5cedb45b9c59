//! What is found of packages that are left out.
ghost use Rattle.std.specs.Prelude.{◌≡◌, ◌||◌, map};
ghost use Rattle.serde_json.specs.View.{view};
ghost use Rattle.npm_advisories.specs.Audit.{found_value};
ghost use Rattle.npm_lock.specs.Sources.{source_value};
ghost use Rattle.npm_lock_reports.specs.LeftOut.{hits_kept, is_certain, problems_kept, sources_kept, unchecked_kept};

use crate::omissions::Omissions;
use npm_advisories::Found;
use npm_lock::{Problem, Source, SourceKind, Unchecked};
use serde_json::Value;

/// Removes the problems of packages and of dependencies that are left out.
///
/// # Memory
///
/// Does not allocate.
pub fn leave_out_problems(list: &mut Vec<Problem>, omissions: Omissions, lock: &Value)
    ensures { list.new.items ≡ problems_kept omissions (view lock.now) list.old.items }
{
    list.retain(|problem| !omissions.has_dependency(lock, &problem.dependency));
}

/// Removes the dependencies that are not checked, of packages that are left out or in groups that are.
///
/// # Memory
///
/// Does not allocate.
pub fn leave_out_unchecked(list: &mut Vec<Unchecked>, omissions: Omissions, lock: &Value)
    ensures { list.new.items ≡ unchecked_kept omissions (view lock.now) list.old.items }
{
    list.retain(|unchecked| !omissions.has_dependency(lock, &unchecked.dependency));
}

/// Removes the packages that are left out from those that advisories hit.
///
/// # Memory
///
/// Does not allocate.
pub fn leave_out_hits(list: &mut Vec<Found<'_, '_>>, omissions: Omissions, lock: &Value)
    ensures { map found_value list.new.items ≡ hits_kept omissions (view lock.now) (map found_value list.old.items) }
{
    list.retain(|found| !omissions.has_at(lock, found.folder));
}

/// Removes the suspicious sources of packages that are left out. If they are not asked for, only that of another version stays: npm
/// installs that one, so that the file was checked for a version that is not there.
///
/// # Memory
///
/// Does not allocate.
pub fn leave_out_sources(list: &mut Vec<Source>, omissions: Omissions, lock: &Value, is_asked: bool)
    ensures { map source_value list.new.items
        ≡ sources_kept omissions (view lock.now) is_asked (map source_value list.old.items) }
{
    list.retain(|source| {
        counts(source.kind, is_asked) && !omissions.has_at(lock, source.folder.as_str())
    });
}

/// Returns `true` if this kind counts.
fn counts(kind: SourceKind, is_asked: bool) -> bool
    ensures { result ≡ (is_asked || is_certain kind) }
{
    is_asked || matches!(kind, SourceKind::OtherVersion)
}
