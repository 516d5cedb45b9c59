//! Requests to a registry, and their texts by the names of packages.
ghost use Rattle.std.specs.Prelude.{◌≡◌, ◌↔◌, ◌++◌, [], IfOk, List, OnOk, map, option_map, string_bytes, ℕ};
ghost use Rattle.std.specs.Cmp.Lexicographic.{slice_cmp};
ghost use Rattle.std.specs.List.{Contains};
ghost use Rattle.std.specs.List.Sorted.{IsStrictlySortedBy};
ghost use Rattle.std.specs.Option.{option_map_or};
ghost use Rattle.std.specs.Ordering.{nat_cmp};
ghost use Rattle.npm_texts.specs.RegistrySpec.{registry_spec_value};
ghost use Rattle.npm_pick_reports.specs.Asks.{ask_value};
ghost use Rattle.npm_pick_reports.specs.Mirror as Mirrors;
ghost use Rattle.npm_pick_reports.specs.Private.Requests.{at_name, named};

use crate::mirror::asks::Ask;
use crate::mirror::in_order::put_in_order;
use npm_texts::{RegistrySpec, registry_spec};
use std::alloc::{AllocError, Global};
use std::collections::BTreeMap;

/// Returns the requests of these dependencies.
pub fn requests_of<'v>(alloc: Global, asks: &[Ask<'v>]) -> Result<Vec<RegistrySpec<'v>>, AllocError>
    ensures { IfOk result (λ requests. map registry_spec_value requests.items
        ≡ Mirrors.requests_of (map ask_value asks.now)) }
{
    let mut requests = Vec::new(alloc);
    for ask in asks {
        push_request(&mut requests, ask)?;
    }
    Ok(requests)
}

/// Adds the request of a dependency, if it has one.
fn push_request<'v>(requests: &mut Vec<RegistrySpec<'v>>, ask: &Ask<'v>) -> Result<(), AllocError>
    ensures { OnOk result (map registry_spec_value requests.new.items
        ≡ map registry_spec_value requests.old.items ++ Mirrors.requests_by (ask_value ask.now)) }
{
    if let Some(request) = request_of(*ask) {
        requests.push(request)?;
    }
    Ok(())
}

/// The request of a dependency.
fn request_of(ask: Ask<'_>) -> Option<RegistrySpec<'_>>
    ensures { option_map registry_spec_value result ≡ Mirrors.request_of (ask_value ask.entry) }
{
    if ask.is_overridden {
        None
    } else {
        registry_spec(ask.name, ask.spec)
    }
}

/// Returns the names of the packages in the requests and of those that are installed, in the order of their bytes, each once.
pub fn names_of(
    alloc: Global,
    requests: &[RegistrySpec<'_>],
    installed: &[RegistrySpec<'_>],
) -> Result<Vec<String>, AllocError>
    ensures ordered { IfOk result (λ names. IsStrictlySortedBy (slice_cmp nat_cmp) (map string_bytes names.items)) }
    ensures exact { IfOk result (λ names. (name : List ℕ) → Contains (map string_bytes names.items) name
        ↔ Mirrors.IsNeededFor (map registry_spec_value requests.now) (map registry_spec_value installed.now) name) }
{
    let mut names = Vec::new(alloc);
    add_names(alloc, &mut names, requests)?;
    add_names(alloc, &mut names, installed)?;
    put_in_order(&mut names);
    Ok(names)
}

/// Adds the names as they come.
fn add_names(
    alloc: Global,
    names: &mut Vec<String>,
    requests: &[RegistrySpec<'_>],
) -> Result<(), AllocError>
    ensures { OnOk result (map string_bytes names.new.items
        ≡ map string_bytes names.old.items ++ Mirrors.names_of (map registry_spec_value requests.now)) }
{
    for request in requests {
        names.push(String::from_str(alloc, request.name)?)?;
    }
    Ok(())
}

/// The texts of requests, by the names of packages.
#[derive(Drop)]
pub struct Groups<'v> {
    by_name: BTreeMap<&'v str, Vec<&'v str>>,
}

impl<'v> Groups<'v> {
    /// Returns the texts of these requests.
    pub fn of_requests(
        alloc: Global,
        requests: &[RegistrySpec<'v>],
    ) -> Result<Groups<'v>, AllocError>
        ensures { IfOk result (λ groups. (name : List ℕ) → map (λ text. text.now) (at_name groups name)
            ≡ Mirrors.texts_for name (map registry_spec_value requests.now)) }
    {
        let mut groups = Groups::new(alloc);
        for request in requests {
            groups.add(alloc, request)?;
        }
        Ok(groups)
    }

    fn new(alloc: Global) -> Groups<'v>
        ensures { (name : List ℕ) → at_name result name ≡ [] }
    {
        Groups {
            by_name: BTreeMap::new(alloc),
        }
    }

    /// Adds a text behind those of the same name.
    fn add(&mut self, alloc: Global, request: &RegistrySpec<'v>) -> Result<(), AllocError>
        ensures { OnOk result ((name : List ℕ) → at_name self.new name ≡ at_name self.old name ++ named name request.now) }
    {
        let list = self.by_name.entry(request.name)?.or_insert(Vec::new(alloc));
        list.push(request.text)?;
        Ok(())
    }

    /// Returns the texts of a name, each once.
    pub fn texts_of(&self, alloc: Global, name: &str) -> Result<Vec<String>, AllocError>
        ensures { IfOk result (λ texts. (text : List ℕ) → Contains (map string_bytes texts.items) text
            ↔ Contains (map (λ text. text.now) (at_name self.now name.now)) text) }
    {
        let mut texts = self.all_texts(alloc, name)?;
        put_in_order(&mut texts);
        Ok(texts)
    }

    /// The texts of a name, as they came.
    fn all_texts(&self, alloc: Global, name: &str) -> Result<Vec<String>, AllocError>
        ensures { IfOk result (λ texts. map string_bytes texts.items
            ≡ map (λ text. text.now) (at_name self.now name.now)) }
    {
        match self.at(name) {
            Some(texts) => copies_of(alloc, texts),
            None => Ok(Vec::new(alloc)),
        }
    }

    /// The texts of a name.
    fn at(&self, name: &str) -> Option<&[&'v str]>
        ensures { option_map_or (λ list. list.now) result [] ≡ at_name self.now name.now }
    {
        Some(self.by_name.get(name)?.as_slice())
    }
}

/// Returns copies of texts.
pub fn copies_of(alloc: Global, texts: &[&str]) -> Result<Vec<String>, AllocError>
    ensures { IfOk result (λ copies. map string_bytes copies.items ≡ map (λ text. text.now) texts.now) }
{
    let mut copies = Vec::new(alloc);
    for text in texts {
        copies.push(String::from_str(alloc, text)?)?;
    }
    Ok(copies)
}
