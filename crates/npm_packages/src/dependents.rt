//! The range texts by which packages depend on installed packages.
ghost use Rattle.std.specs.Prelude.{◌≡◌, ◌↔◌, ◌∷◌, ◌++◌, [], ℕ, IfOk, IsErrOf, List, OnOk, Some, cond, bytes_eq, map};
ghost use Rattle.std.specs.Option.{option_map_or};
ghost use Rattle.serde_json.specs.View.{view};
ghost use Rattle.npm_packages.specs.Dependents.{AreDependents, AreTextsFor, IsEdgeText, texts_at};
ghost use Rattle.npm_packages.specs.Edges.{EdgeValue, edge_value};
ghost use Rattle.npm_packages.specs.Faults as Faults;
ghost use Rattle.npm_packages.specs.declared.fault.Fault.{Fault};

use crate::Result;
use crate::edges::{Edge, edges_in};
use crate::fault::CheckError;
use crate::sound_lock::SoundLock;
use npm_texts::{Spec, spec_of};
use serde_json::Value;
use std::alloc::Global;
use std::collections::BTreeMap;

/// The range texts by which other packages of a lock file depend on each installed package, as `overrides` change them. A
/// spec that is no range and no tag counts as the text `no range`, which is no range, and so does one that `overrides` change
/// in a way that is not read here.
#[derive(Drop)]
pub struct Dependents<'v> {
    by_folder: BTreeMap<&'v str, Vec<&'v str>>,
}

impl<'v> Dependents<'v> {
    /// Returns the texts of all dependencies for which a package of the lock file is found, by the folders of these
    /// packages.
    ///
    /// # Errors
    ///
    /// - `Refused`: the value is no lock file of version 2 or 3, or a member that counts has the wrong type.
    /// - `Memory`: an allocation failed.
    ///
    /// # Memory
    ///
    /// While it runs, it holds the dependencies that `edges_of` returns.
    pub fn of_lock(alloc: Global, lock: &'v Value) -> Result<Dependents<'v>, CheckError>
        ensures found { IfOk result (λ dependents. AreDependents (view lock.now) (texts_at dependents)) }
        ensures refused { (fault : Fault) → IsErrOf result (CheckError.Refused fault)
            ↔ (Faults.lock_fault (view lock.now) ≡ Some fault) }
    {
        match SoundLock::of(alloc, lock) {
            Ok(lock) => Dependents::of_sound_lock(&lock).map_err(|_| CheckError::Memory),
            Err(error) => Err(error),
        }
    }

    /// Returns the texts as [`of_lock`](Dependents::of_lock) does, for a lock file without a fault.
    ///
    /// # Errors
    ///
    /// An allocation failed.
    ///
    /// # Memory
    ///
    /// While it runs, it holds the dependencies that `edges_of` returns.
    pub fn of_sound_lock(lock: &SoundLock<'v>) -> Result<Dependents<'v>>
        ensures { IfOk result (λ dependents. AreDependents (view lock.now) (texts_at dependents)) }
    {
        let edges = edges_in(lock)?;
        Dependents::of_edges(lock.packages().alloc, &edges)
    }

    /// Returns the texts of these dependencies, by the folders of the packages that are found for them.
    ///
    /// # Errors
    ///
    /// An allocation failed.
    ///
    /// # Memory
    ///
    /// Allocates a list of texts for each folder. The texts are borrowed.
    pub fn of_edges(alloc: Global, edges: &[Edge<'v>]) -> Result<Dependents<'v>>
        ensures { IfOk result (λ dependents. (folder : List ℕ)
            → AreTextsFor folder (map edge_value edges.now) (texts_at dependents folder)) }
    {
        let mut dependents = Dependents::new(alloc);
        for edge in edges {
            dependents.add_edge(alloc, *edge)?;
        }
        Ok(dependents)
    }

    /// The texts by which other packages depend on the package in a folder: in the order of their folders' bytes, for each of
    /// them in the order of the names. `None` if no package depends on it.
    pub fn texts(&self, folder: &'v str) -> Option<&[&'v str]>
        ensures { option_map_or (λ list. map (λ text. text.now) list.now) result [] ≡ texts_at self.now folder.now }
    {
        Some(self.by_folder.get(&folder)?.as_slice())
    }

    fn new(alloc: Global) -> Dependents<'v>
        ensures { (folder : List ℕ) → texts_at result folder ≡ [] }
    {
        Dependents {
            by_folder: BTreeMap::new(alloc),
        }
    }

    /// Adds the text of a dependency, if a package is found for it.
    fn add_edge(&mut self, alloc: Global, edge: Edge<'v>) -> Result<()>
        ensures { OnOk result ((folder : List ℕ) (edges : List EdgeValue)
            → AreTextsFor folder edges (texts_at self.old folder)
            → AreTextsFor folder (edges ++ (edge_value edge.entry ∷ [])) (texts_at self.new folder)) }
    {
        match edge.to {
            Some(to) => self.add(alloc, to, edge_text(edge)),
            None => Ok(()),
        }
    }

    /// Adds a text by which a package depends on the one in this folder.
    fn add(&mut self, alloc: Global, to: &'v str, text: &'v str) -> Result<()>
        ensures { OnOk result ((folder : List ℕ) → texts_at self.new folder
            ≡ cond (bytes_eq to.now folder) (texts_at self.old folder ++ (text.now ∷ [])) (texts_at self.old folder)) }
    {
        let list = self.by_folder.entry(to)?.or_insert(Vec::new(alloc));
        list.push(text)?;
        Ok(())
    }
}

/// The range or the tag of a dependency, or a text that is no range.
fn edge_text<'v>(edge: Edge<'v>) -> &'v str
    ensures { IsEdgeText (edge_value edge.entry) result.now }
{
    if edge.is_overridden {
        return NO_RANGE;
    }
    match spec_of(edge.spec) {
        Spec::Text(text) => text,
        Spec::Location | Spec::Refused => NO_RANGE,
    }
}

/// npm refuses this text as a range.
const NO_RANGE: &str = "no range";
