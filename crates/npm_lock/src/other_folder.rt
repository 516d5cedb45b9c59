//! Keys that npm reads as another folder of the project.
ghost use Rattle.std.specs.Prelude.{◌≡◌, ◌↔◌, ◌&&◌, IsTrue, bytes_eq, codes, is_none, option_map};
ghost use Rattle.std.specs.Path.{rsplit_once, slash};
ghost use Rattle.serde_json.specs.View.{members_view, view};
ghost use Rattle.npm_lock.specs.OtherFolders as OtherFolders;
ghost use Rattle.npm_lock.specs.OtherFolders.{IsFirstAnother, IsFirstAnotherOf, IsReadAsAnother};

use crate::tarball::parted;
use npm_packages::{Lock, SoundLock};
use npm_texts::{rest_after, without_end};

/// Returns the first key of `packages` that npm reads as another folder, in a project with this path: it leads up, and back into the
/// folder that it has just left, or above the topmost one. The path is absolute, with `/` between its parts. If it is empty, it is not
/// known, and no key is found. Does not allocate.
///
/// `resolved` of a link is a key of the file too, so that it need not be looked at.
///
/// # Examples
///
/// In the project `/p/F` the keys `../F`, `../F/node_modules/a` and `../../p/w`, which npm reads as the root, `node_modules/a` and
/// `../w`. `../w` and `../../F` are read as they are.
pub fn key_read_as_another<'v>(lock: &SoundLock<'v>, project: &str) -> Option<&'v str>
    ensures { IsFirstAnotherOf (view lock.now) project.now (option_map (λ key. key.now) result) }
{
    let packages = lock.packages();
    if project.is_empty() {
        return None;
    }
    first_among(packages, without_end(project, "/"))
}

/// The first key that npm reads as another in this folder.
fn first_among<'v>(lock: Lock<'v>, folder: &str) -> Option<&'v str>
    ensures { IsFirstAnother folder.now (members_view lock.entry.members.now.entries)
        (option_map (λ key. key.now) result) }
{
    for (key, _) in lock.members.iter() {
        let key = key.as_str();
        if is_read_as_another(folder, key) {
            return Some(key);
        }
    }
    None
}

/// Returns `true` if npm reads the path as another in this folder.
fn is_read_as_another(folder: &str, path: &str) -> bool
    ensures { IsTrue result ↔ IsReadAsAnother folder.now path.now }
{
    let mut at = folder;
    let mut left = path;
    'up: while let Some(rest) = rest_after(left, "../") {
        let Some((above, name)) = parted(at, '/') else {
            return true;
        };
        if is_at_or_below(name, rest) {
            return true;
        }
        at = above;
        left = rest;
    }
    is_over_top(at, left)
}

/// Returns `true` for the path `..` from the topmost folder.
fn is_over_top(folder: &str, path: &str) -> bool
    ensures { result ≡ (bytes_eq path.now (codes "..") && is_none (rsplit_once slash folder.now)) }
{
    path == ".." && parted(folder, '/').is_none()
}

/// Returns `true` if the path is this name, or goes on below it.
fn is_at_or_below(name: &str, path: &str) -> bool
    ensures { result ≡ OtherFolders.is_at_or_below name.now path.now }
{
    match rest_after(path, name) {
        Some(rest) => rest.is_empty() || rest_after(rest, "/").is_some(),
        None => false,
    }
}
