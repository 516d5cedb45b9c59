//! Folders of packages, as the keys of a lock file write them: `node_modules/a`, and `""` for the root.
ghost use Rattle.std.specs.Prelude.{◌≡◌, ◌≤◌, ◌↔◌, ◌&&◌, ◌||◌, ◌==◌, ℕ, IsTrue, List, bytes_eq, codes, false, length, nat_le, not, true};
ghost use Rattle.std.specs.List.{list_any};
ghost use Rattle.std.specs.Option.{MatchOption};
ghost use Rattle.npm_packages.specs.Folders.{IsInstalled, parts_of, place_in};
ghost use Rattle.npm_packages.specs.Folders as Folders;
ghost use Rattle.npm_packages.specs.Private.Folders.{are_steps, before_name};

use npm_texts::ends_with;

/// Returns `true` for `..`, `../..` and so on.
#[inline(always)]
pub(crate) fn is_up(folder: &str) -> bool
    ensures { result ≡ Folders.is_up folder.now }
{
    folder == ".." || ends_with(folder, "/..")
}

/// Returns `true` if the folder is a `node_modules` itself, which holds packages and is none.
pub(crate) fn is_modules(folder: &str) -> bool
    ensures { result ≡ Folders.is_modules folder.now }
{
    folder == "node_modules" || ends_with(folder, "/node_modules")
}

/// Returns `true` if the folder lies inside some `node_modules`: `node_modules/a` and `w/node_modules/a`, but not `w`. Does not
/// allocate.
pub fn is_installed(folder: &str) -> bool
    ensures { IsTrue result ↔ IsInstalled folder.now }
{
    folder.starts_with("node_modules/") || folder.contains("/node_modules/")
}

/// The most bytes that the folder of a package may have: those of a path of Linux.
const MAX_FOLDER: usize = 4096;

/// Returns `true` for the folder of a package as npm writes it, the shortest path from the root: no part is empty or `.`, `..` has no
/// other part before it, no part has a `\`, the last one is no `node_modules`, and there are at most 4,096 bytes. The root's folder is
/// empty. Does not allocate.
///
/// # Examples
///
/// `node_modules/a`, `w/node_modules/@s/a` and `../x`, but not `node_modules/a/`, `./w` and `w/../a`: npm finds the packages
/// `a`, `w` and `a` there. Nor `node_modules` itself: npm then finds none of the packages in it.
pub fn is_folder(path: &str) -> bool
    ensures { result ≡ Folders.is_folder path.now }
{
    path.is_empty() || (path.len() <= MAX_FOLDER && are_steps(path, true))
}

/// Returns `true` if each part of the path leads one folder down, or if `may_lead_up` also up before all others, and the last one
/// to a package.
fn are_steps(path: &str, may_lead_up: bool) -> bool
    ensures { result ≡ are_steps may_lead_up (parts_of path.now) }
{
    let mut left = path;
    let mut is_up = may_lead_up;
    'parts: while let Some((part, rest)) = left.split_once('/') {
        if !is_right(is_up, part) {
            return false;
        }
        is_up = leads_up(is_up, part);
        left = rest;
    }
    is_last(is_up, left)
}

/// Returns `true` for a last part that is right, and no `node_modules`.
fn is_last(is_up: bool, part: &str) -> bool
    ensures { result ≡ (((is_up && bytes_eq part.now (codes "..")) || Folders.is_step part.now)
        && not (bytes_eq part.now (codes "node_modules"))) }
{
    is_right(is_up, part) && part != "node_modules"
}

/// Returns `true` for a part that leads one folder up or down. Up is right only if all parts so far lead up.
fn is_right(is_up: bool, part: &str) -> bool
    ensures { result ≡ ((is_up && bytes_eq part.now (codes "..")) || Folders.is_step part.now) }
{
    leads_up(is_up, part) || is_step(part)
}

/// Returns `true` if this part leads up as all so far.
fn leads_up(is_up: bool, part: &str) -> bool
    ensures { result ≡ (is_up && bytes_eq part.now (codes "..")) }
{
    is_up && part == ".."
}

/// Returns `true` for a part that leads one folder down.
fn is_step(part: &str) -> bool
    ensures { result ≡ Folders.is_step part.now }
{
    !part.is_empty() && part != "." && part != ".." && !has_backslash(part)
}

fn has_backslash(part: &str) -> bool
    ensures { result ≡ list_any (λ b. b == 92) part.now }
{
    part.bytes().any(|byte| byte == b'\\')
}

/// Returns how long the folder of a package of this name is, in the `node_modules` of a folder of this length. Returns
/// `None` if that is no folder as npm writes it. Does not allocate.
pub fn place_size(size: usize, name: &str) -> Option<usize>
    ensures { (folder : List ℕ) → Folders.is_folder folder ≡ true → length folder ≡ size
        → MatchOption result (Folders.is_folder (place_in folder name.now) ≡ false)
        (λ found. (Folders.is_folder (place_in folder name.now) ≡ true) × (found ≡ length (place_in folder name.now))) }
{
    if size > MAX_FOLDER {
        return None;
    }
    let found = size_before_name(size) + name.len();
    if is_place(found, name) {
        Some(found)
    } else {
        None
    }
}

/// Returns `true` if a name may end a folder of this length.
fn is_place(size: usize, name: &str) -> bool
    ensures { result ≡ (nat_le size 4096 && are_steps false (parts_of name.now)) }
{
    size <= MAX_FOLDER && are_steps(name, false)
}

/// The length of what comes before a name in the `node_modules` of a folder of this length.
fn size_before_name(size: usize) -> usize
    requires { size ≤ 4096 }
    ensures { result ≡ before_name size }
{
    if size == 0 { 13 } else { size + 14 }
}
