//! The patterns of `workspaces` in sets, so that a folder is not compared with each of them.
ghost use Rattle.std.specs.Prelude.{◌≡◌, ◌↔◌, ◌⊎◌, ℕ, List, IsTrue, OnOk, false, true};
ghost use Rattle.npm_lock.specs.Private.PatternSteps as PatternSteps;
ghost use Rattle.npm_lock.specs.Private.Patterns.{HasMatched, HasStart, HasText, is_rest};

use crate::Result;
use crate::pattern::{has_slash, is_rest, stem_of};
use npm_texts::{ends_with, without_end};
use std::alloc::Global;
use std::collections::BTreeMap;

/// Texts, each once.
type Texts<'v> = BTreeMap<&'v [u8], ()>;

/// The patterns of a package, in sets.
#[derive(Drop)]
pub(crate) struct Patterns<'v> {
    pub(crate) has_unread: bool,
    /// Folders that are patterns themselves, or `packages` of the pattern `packages/**`.
    folders: Texts<'v>,
    /// The texts before `*`: `packages/`, or the empty text.
    stars: Texts<'v>,
    /// The texts before `**`.
    trees: Texts<'v>,
}

impl<'v> Patterns<'v> {
    /// No patterns.
    pub(crate) fn none(alloc: Global) -> Patterns<'v>
        ensures unread { result.has_unread ≡ false }
        ensures matched { (folder : List ℕ) → ¬ HasMatched result folder }
    {
        Patterns {
            has_unread: false,
            folders: BTreeMap::new(alloc),
            stars: BTreeMap::new(alloc),
            trees: BTreeMap::new(alloc),
        }
    }

    /// Adds a pattern that is read.
    pub(crate) fn add(&mut self, pattern: &'v str) -> Result<()>
        ensures unread { self.new.has_unread ≡ self.old.has_unread }
        ensures matched { OnOk result (PatternSteps.is_read pattern.now ≡ true → (folder : List ℕ)
            → HasMatched self.new folder
            ↔ (HasMatched self.old folder ⊎ IsTrue (PatternSteps.is_matched folder pattern.now))) }
    {
        let stem = stem_of(pattern);
        if ends_with(pattern, "**") {
            add_base(&mut self.folders, stem)?;
            add_text(&mut self.trees, stem)
        } else if ends_with(pattern, "*") {
            add_text(&mut self.stars, stem)
        } else {
            add_text(&mut self.folders, pattern)
        }
    }

    /// Returns `true` if a pattern is that of the folder.
    pub(crate) fn has_matched(&self, folder: &'v str) -> bool
        ensures { IsTrue result ↔ HasMatched self.now folder.now }
    {
        let folder = folder.as_bytes();
        if self.folders.contains_key(&folder) {
            return true;
        }
        has_start(&self.stars, folder, false) || has_start(&self.trees, folder, true)
    }
}

/// Adds the folder in which `**` after this stem matches: `packages` of `packages/`.
fn add_base<'v>(folders: &mut Texts<'v>, stem: &'v str) -> Result<()>
    ensures { OnOk result ((folder : List ℕ) → HasText folders.new folder
        ↔ (HasText folders.old folder ⊎ IsTrue (PatternSteps.is_base folder stem.now))) }
{
    if stem.is_empty() {
        return Ok(());
    }
    add_text(folders, without_end(stem, "/"))
}

fn add_text<'v>(texts: &mut Texts<'v>, text: &'v str) -> Result<()>
    ensures { OnOk result ((other : List ℕ) → HasText texts.new other
        ↔ (HasText texts.old other ⊎ (text.now ≡ other))) }
{
    texts.insert(text.as_bytes(), ())?;
    Ok(())
}

/// Returns `true` if the folder begins with one of the texts, before one of its parts, and the stars match the rest.
fn has_start<'v>(texts: &Texts<'v>, folder: &'v [u8], is_tree: bool) -> bool
    ensures { IsTrue result ↔ HasStart texts.now is_tree folder.now }
{
    let mut is_part = true;
    for at in 0..folder.len() {
        if is_part && is_start(texts, &folder[..at], &folder[at..], is_tree) {
            return true;
        }
        is_part = folder[at] == b'/';
    }
    false
}

/// Returns `true` if this is one of the texts, and the stars match the rest.
fn is_start<'v>(texts: &Texts<'v>, start: &'v [u8], rest: &[u8], is_tree: bool) -> bool
    ensures there { IsTrue result → HasText texts.now start.now }
    ensures matched { IsTrue result → is_rest is_tree rest.now ≡ true }
    ensures only { HasText texts.now start.now → is_rest is_tree rest.now ≡ true → IsTrue result }
{
    // A star asks for one text alone, so the others are not looked up.
    (is_tree || !has_slash(rest)) && texts.contains_key(&start) && is_rest(rest, is_tree)
}
