//! The packages that dependencies ask for by another name than that of the folder.
ghost use Rattle.std.specs.Prelude.{◌≡◌, ◌∷◌, ◌++◌, [], ℕ, IfOk, List, OnOk, Some, bytes_eq, cond, map, option_map};
ghost use Rattle.std.specs.Option.{option_or};
ghost use Rattle.npm_packages.specs.Aliases.{first_alias, name_at};
ghost use Rattle.npm_packages.specs.Edges.{EdgeValue, edge_value};

use crate::Result;
use crate::edges::Edge;
use npm_texts::aliased_name;
use std::alloc::Global;
use std::collections::BTreeMap;

/// The name by which the first alias asks for each installed package.
#[derive(Drop)]
pub struct Aliases<'v> {
    by_folder: BTreeMap<&'v str, &'v str>,
}

impl<'v> Aliases<'v> {
    /// Returns the names by which these dependencies ask for installed packages, where a spec is an alias: of several the first.
    ///
    /// # Errors
    ///
    /// An allocation failed.
    ///
    /// # Memory
    ///
    /// Allocates an entry for each package that an alias asks for. The names are borrowed.
    ///
    /// # Examples
    ///
    /// `lodash` in `node_modules/l`, for the dependency on `l` by `npm:lodash@^4`.
    pub fn of_edges(alloc: Global, edges: &[Edge<'v>]) -> Result<Aliases<'v>>
        ensures { IfOk result (λ aliases. (folder : List ℕ)
            → name_at aliases folder ≡ first_alias folder (map edge_value edges.now)) }
    {
        let mut aliases = Aliases::new(alloc);
        for edge in edges {
            aliases.add_edge(*edge)?;
        }
        Ok(aliases)
    }

    /// Returns the name by which an alias asks for the package in a folder, if one does. Does not allocate.
    pub fn name(&self, folder: &'v str) -> Option<&'v str>
        ensures { option_map (λ name. name.now) result ≡ name_at self.now folder.now }
    {
        match self.by_folder.get(&folder) {
            Some(name) => Some(*name),
            None => None,
        }
    }

    fn new(alloc: Global) -> Aliases<'v>
        ensures { (folder : List ℕ) → name_at result folder ≡ first_alias folder [] }
    {
        Aliases {
            by_folder: BTreeMap::new(alloc),
        }
    }

    /// Adds the name of an alias, if a package is found for it.
    fn add_edge(&mut self, edge: Edge<'v>) -> Result<()>
        ensures { OnOk result ((folder : List ℕ) (edges : List EdgeValue)
            → name_at self.old folder ≡ first_alias folder edges
            → name_at self.new folder ≡ first_alias folder (edges ++ (edge_value edge.entry ∷ []))) }
    {
        match edge.to {
            Some(to) => match aliased_name(edge.spec) {
                Some(name) => self.add(to, name),
                None => Ok(()),
            },
            None => Ok(()),
        }
    }

    /// Adds a name for the package in this folder, if it has none.
    fn add(&mut self, to: &'v str, name: &'v str) -> Result<()>
        ensures { OnOk result ((folder : List ℕ) → name_at self.new folder
            ≡ cond (bytes_eq to.now folder) (option_or (name_at self.old folder) (Some name.now)) (name_at self.old folder)) }
    {
        self.by_folder.entry(to)?.or_insert(name);
        Ok(())
    }
}
