//! Where the names of a package are looked up.
ghost use Rattle.std.specs.Prelude.{◌≡◌, ◌≢◌, ◌<◌, ◌↔◌, ◌++◌, ◌∷◌, ℕ, List, IsTrue, length};
ghost use Rattle.std.specs.Option.{MatchOption};
ghost use Rattle.npm_packages.specs.Folders.{IsAbove, IsOutermost, place_in};
ghost use Rattle.npm_packages.specs.Index.{IsFront};
ghost use Rattle.npm_packages.specs.LastParts.{HasNoSlash};
ghost use Rattle.npm_packages.specs.Lookups.{IsOutermostFrom};
ghost use Rattle.npm_packages.specs.Private.Search.{BeginsWith};

use crate::folder::is_up;

/// Returns the last folder in which names are looked up from this one: `""`, or `..` for a folder inside `..`. Does not
/// allocate.
pub fn outermost_of(folder: &str) -> &str
    ensures { IsOutermostFrom folder.now result.now }
{
    let mut at = folder;
    'folders: while let Some(above) = above_of(at) {
        at = above;
    }
    at
}

/// The folder above, if names are looked up there.
pub(crate) fn above_of(folder: &str) -> Option<&str>
    ensures { MatchOption result (IsOutermost folder.now) (λ above. IsAbove folder.now above.now) }
{
    if folder.is_empty() || is_up(folder) {
        return None;
    }
    match split_last(folder) {
        Some((above, _)) => Some(above),
        None => Some(""),
    }
}

/// What comes before the last `/` of a path, and the part after it.
pub(crate) fn split_last(path: &str) -> Option<(&str, &str)>
    ensures { MatchOption result (HasNoSlash path.now)
        (λ parts. (path.now ≡ parts.0.now ++ (47 ∷ parts.1.now)) × HasNoSlash parts.1.now) }
{
    path.rsplit_once('/')
}

/// What two texts both begin with, but the whole of neither.
pub(crate) fn shared<'t>(left: &'t [u8], folder: &[u8]) -> &'t [u8]
    ensures kept { (start : List ℕ) → BeginsWith left.now start → BeginsWith folder.now start
        → length start < length folder.now → length start < length left.now → BeginsWith result.now start }
    ensures common { BeginsWith left.now result.now × BeginsWith folder.now result.now }
{
    let end = left.len().min(folder.len()).saturating_sub(1);
    let mut same = 0;
    'bytes: while same < end && left[same] == folder[same] {
        same += 1;
    }
    &left[..same]
}

/// Returns `true` if a path is this one, or begins so before a `/`. Each path begins with the empty one.
pub(crate) fn is_front(path: &str, front: &str) -> bool
    ensures { IsTrue result ↔ IsFront path.now front.now }
{
    match path.strip_prefix(front) {
        Some(rest) => front.is_empty() || rest.is_empty() || rest.starts_with('/'),
        None => false,
    }
}

/// The folder in whose `node_modules` a name has this place, if that is its place in one.
pub(crate) fn inside<'v>(place: &'v str, name: &str) -> Option<&'v str>
    ensures { MatchOption result ((folder : List ℕ) → place.now ≢ place_in folder name.now)
        (λ folder. place.now ≡ place_in folder.now name.now) }
{
    let modules = front_of(front_of(place, name)?, "node_modules/")?;
    if modules.is_empty() {
        return Some(modules);
    }
    let folder = modules.strip_suffix('/')?;
    if folder.is_empty() {
        return None;
    }
    Some(folder)
}

/// The text before this end, if it ends so.
pub(crate) fn front_of<'v>(text: &'v str, end: &str) -> Option<&'v str>
    ensures { MatchOption result ((front : List ℕ) → text.now ≢ front ++ end.now)
        (λ front. text.now ≡ front.now ++ end.now) }
{
    text.strip_suffix(end)
}

/// The text after this start, if it begins so.
pub(crate) fn rest_of<'v>(text: &'v str, start: &str) -> Option<&'v str>
    ensures { MatchOption result ((rest : List ℕ) → text.now ≢ start.now ++ rest)
        (λ rest. text.now ≡ start.now ++ rest.now) }
{
    text.strip_prefix(start)
}
