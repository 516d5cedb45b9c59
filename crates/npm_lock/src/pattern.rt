//! One pattern of `workspaces`: which texts are read, and what its stars match.
ghost use Rattle.std.specs.Prelude.{◌≡◌, ◌↔◌, ◌&&◌, ◌∷◌, [], IsTrue, bytes_eq, codes, not, true};
ghost use Rattle.npm_lock.specs.PatternGrammar as PatternGrammar;
ghost use Rattle.npm_lock.specs.PatternGrammar.{Matches, parts_of, turns};
ghost use Rattle.npm_lock.specs.Private.PatternSteps as PatternSteps;
ghost use Rattle.npm_lock.specs.Workspaces as Workspaces;
ghost use Rattle.npm_lock.specs.Private.Patterns as Patterns;

use crate::tarball::after_slashes;
use npm_packages::linked_folder;
use npm_texts::{ends_with, rest_after, without_end};

/// The pattern of a text, which may begin with `./` or `/`.
pub(crate) fn pattern_of(text: &str) -> &str
    ensures { result.now ≡ Workspaces.pattern_of text.now }
{
    after_slashes(linked_folder(text))
}

/// Returns `true` for a pattern that is read here.
pub(crate) fn is_read_text(pattern: &str) -> bool
    ensures { result ≡ PatternSteps.is_read pattern.now }
{
    let stem = stem_of(pattern);
    if has_glob_byte(stem) {
        false
    } else if ends_with(pattern, "*") {
        is_whole(stem)
    } else {
        !is_whole(stem)
    }
}

/// Returns `true` for a pattern that is read here, and matches the paths that it says.
pub(crate) fn is_literal_text(pattern: &str) -> bool
    ensures { result ≡ PatternSteps.is_literal pattern.now }
{
    is_read_text(pattern) && !turns(pattern)
}

/// Returns `true` for a pattern with an empty part, or with `..` after another part. npm leaves both out.
fn turns(pattern: &str) -> bool
    ensures { result ≡ turns (parts_of pattern.now) }
{
    let mut left = pattern;
    let mut is_up = true;
    'parts: while let Some((part, rest)) = left.split_once('/') {
        if is_turn(is_up, part) {
            return true;
        }
        is_up = leads_up(is_up, part);
        left = rest;
    }
    is_turn(is_up, left)
}

/// Returns `true` for a part that is empty, or `..` unless all parts so far lead up.
fn is_turn(is_up: bool, part: &str) -> bool
    ensures { result ≡ (not (is_up && bytes_eq part.now (codes "..")) && PatternGrammar.is_left_out part.now) }
{
    !leads_up(is_up, part) && is_left_out(part)
}

/// Returns `true` if this part leads up as all so far.
fn leads_up(is_up: bool, part: &str) -> bool
    ensures { result ≡ (is_up && bytes_eq part.now (codes "..")) }
{
    is_up && part == ".."
}

fn is_left_out(part: &str) -> bool
    ensures { result ≡ PatternGrammar.is_left_out part.now }
{
    part.is_empty() || part == ".."
}

fn is_whole(stem: &str) -> bool
    ensures { result ≡ PatternSteps.is_whole stem.now }
{
    stem.is_empty() || ends_with(stem, "/")
}

/// The pattern without `*` or `**` at its end.
pub(crate) fn stem_of(pattern: &str) -> &str
    ensures { result.now ≡ PatternSteps.stem_of pattern.now }
{
    without_end(without_end(pattern, "*"), "*")
}

fn has_glob_byte(stem: &str) -> bool
    ensures { result ≡ PatternSteps.has_glob_byte stem.now }
{
    stem.bytes().any(|byte| b"!#*?[]{}()\\".contains(&byte))
}

/// Returns `true` for the name of a folder that `*` in a pattern of `workspaces` matches: `a`, but not `.a`. Does not
/// allocate.
pub fn is_part(rest: &str) -> bool
    ensures { IsTrue result ↔ Matches (codes "*" ∷ []) (parts_of rest.now) }
{
    is_rest(rest.as_bytes(), false)
}

/// Returns `true` if `**` matches the rest of a folder, or `*` does, with `is_tree` false.
pub(crate) fn is_rest(rest: &[u8], is_tree: bool) -> bool
    ensures { result ≡ Patterns.is_rest is_tree rest.now }
{
    are_parts(rest) && (is_tree || !has_slash(rest))
}

/// Returns `true` if there is a `/`.
pub(crate) fn has_slash(rest: &[u8]) -> bool
    ensures { result ≡ PatternSteps.has_slash rest.now }
{
    rest.iter().any(|byte| *byte == b'/')
}

fn are_parts(rest: &[u8]) -> bool
    ensures { result ≡ PatternSteps.are_parts rest.now }
{
    !rest.is_empty() && !has_dot_part(rest)
}

/// Returns `true` if a part of the path begins with a dot.
fn has_dot_part(path: &[u8]) -> bool
    ensures { result ≡ PatternSteps.has_dot_part true path.now }
{
    let mut is_start = true;
    for byte in path {
        if is_start && *byte == b'.' {
            return true;
        }
        is_start = *byte == b'/';
    }
    false
}
