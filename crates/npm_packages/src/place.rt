//! Where a name is found.
ghost use Rattle.std.specs.Prelude.{◌≡◌, ◌≢◌, ◌⊎◌, ◌↔◌, [], IfOk, IfSome, IsTrue, Some, option_map, string_bytes};
ghost use Rattle.serde_json.specs.Find.{get};
ghost use Rattle.serde_json.specs.View.{view};
ghost use Rattle.npm_packages.specs.Folders as Folders;
ghost use Rattle.npm_packages.specs.Packages.{IsFound, IsFoundIn, IsNamed};
ghost use Rattle.npm_packages.specs.Packages as Packages;
ghost use Rattle.npm_packages.specs.Index.{IsIndexOf};
ghost use Rattle.npm_packages.specs.LastParts.{IsEnd, IsPlain};
ghost use Rattle.npm_packages.specs.PackageValue.{package_value, packages_data};
ghost use Rattle.npm_packages.specs.Lookups.{IsOutermostFrom};
ghost use Rattle.npm_packages.specs.Private.Search.{IsNearest};

use crate::Result;
use crate::index::{Hit, Index, end_of, is_plain};
use crate::places::nearest;
use npm_texts::has_true;
use serde_json::{Map, Value};
use std::alloc::Global;

/// The packages of a lock file. `lock_of` makes it of a lock file without faults.
#[derive(Clone, Copy)]
pub struct Lock<'v> {
    pub alloc: Global,
    /// The members of `packages`, by their folders.
    pub members: &'v Map<String, Value>,
}

/// A package, and the folder that it is in.
#[derive(Clone, Copy)]
pub struct Package<'v> {
    /// The folder, as the key of `packages` writes it: `""` for the root.
    pub folder: &'v str,
    /// The member of `packages`.
    pub member: &'v Value,
}

impl<'v> Lock<'v> {
    /// Finds a name in the `node_modules` of the package's folder, or else of the next folder above. Also returns `true`
    /// if that is the `node_modules` of the folder itself. Returns `None` if the name is found nowhere, as each that is not one
    /// part, or a scope and a part. `index` is that of this lock file, and `outermost` what `outermost_of` returns for the
    /// folder. Does not allocate.
    ///
    /// # Examples
    ///
    /// With packages in `node_modules/a`, `node_modules/b` and `node_modules/a/node_modules/b`, the name `b` from the folder
    /// `node_modules/a` is the last one, and `true`; `a` from there is `node_modules/a`, and `false`.
    ///
    /// # Source
    ///
    /// npm's "folders", "Cycles, Conflicts, and Folder Parsimony".
    pub fn find(
        self,
        index: &Index<'v>,
        from: &'v str,
        outermost: &str,
        name: &'v str,
    ) -> Option<(Package<'v>, bool)>
        requires index { IsIndexOf (packages_data self) index.now }
        requires outermost { IsOutermostFrom from.now outermost.now }
        ensures found { IsFound (packages_data self.entry) name.now from.now
            (option_map (λ f. package_value f.0) result) }
        ensures own { IfSome result (λ f. IsTrue f.1
            ↔ IsFoundIn (packages_data self.entry) name.now from.now (package_value f.0)) }
    {
        if !is_plain(name) {
            return None;
        }
        match self.nearest(index, from, outermost, name) {
            Some(hit) => Some((hit.found, hit.folder.len() == from.len())),
            None => None,
        }
    }

    /// The nearest package of a plain name, in no folder above the outermost one.
    fn nearest(
        self,
        index: &Index<'v>,
        from: &'v str,
        outermost: &str,
        name: &'v str,
    ) -> Option<Hit<'v>>
        requires index { IsIndexOf (packages_data self) index.now }
        requires outermost { IsOutermostFrom from.now outermost.now }
        requires plain { IsPlain name.now }
        ensures { IsNearest (packages_data self.entry) from.now name.now result }
    {
        let hit = nearest(&index.by_name, &index.above, name, from)?;
        if outermost.len() <= hit.folder.len() {
            Some(hit)
        } else {
            None
        }
    }

    /// Returns the package at a place, which is the target if a link is there. Does not allocate.
    pub fn package_at(self, place: &str) -> Option<Package<'v>>
        ensures { option_map package_value result ≡ Packages.package_at (packages_data self.entry) place.now }
    {
        self.found_at(self.package_in(place)?)
    }

    /// The package at a place, of which this is the member: the member, or the target of a link.
    pub(crate) fn found_at(self, placed: Package<'v>) -> Option<Package<'v>>
        requires { get placed.folder.now (packages_data self) ≡ Some (view placed.member.now) }
        ensures { option_map package_value result
            ≡ Packages.package_at (packages_data self.entry) placed.entry.folder.now }
    {
        if is_link(placed.member) {
            self.target_of(placed.member)
        } else {
            Some(placed)
        }
    }

    /// The package that `resolved` of a link names.
    pub(crate) fn target_of(self, link: &Value) -> Option<Package<'v>>
        ensures { option_map package_value result ≡ Packages.target_of (packages_data self.entry) (view link.now) }
    {
        self.package_in(linked_folder(link.get("resolved")?.as_str()?))
    }

    /// Returns the member of `packages` for a folder, be it a link or not. Does not allocate.
    pub fn package_in(self, folder: &str) -> Option<Package<'v>>
        ensures { option_map package_value result ≡ option_map
            (λ member. record { folder = folder.now; member = member }) (get folder.now (packages_data self.entry)) }
    {
        let (folder, member) = self.members.get_key_value(folder)?;
        let folder = folder.as_str();
        Some(Package { folder, member })
    }
}

/// Returns the folder that `resolved` of a link names: `w` for `w` and for `./w`. Does not allocate.
pub fn linked_folder(resolved: &str) -> &str
    ensures { result.now ≡ Packages.linked_folder resolved.now }
{
    resolved.strip_prefix("./").unwrap_or(resolved)
}

/// The folder of a name in the `node_modules` of a folder.
pub fn place_text(alloc: Global, folder: &str, name: &str) -> Result<String>
    ensures { IfOk result (λ text. string_bytes text ≡ Folders.place_in folder.now name.now) }
{
    // One allocation. A text that grows from nothing takes three or four.
    let size = folder.len().saturating_add(name.len()).saturating_add(14);
    let mut text = String::with_capacity(alloc, size)?;
    if !folder.is_empty() {
        text.push_str(folder)?;
        text.push_str("/")?;
    }
    text.push_str("node_modules/")?;
    text.push_str(name)?;
    Ok(text)
}

/// Returns the version of a package, as the lock file writes it. Does not allocate.
pub fn version_of(member: &Value) -> Option<&str>
    ensures { option_map (λ version. version.now) result ≡ Packages.version_of (view member.now) }
{
    member.get("version")?.as_str()
}

/// Returns `true` if this is the name of a package. Does not allocate.
///
/// # Examples
///
/// The package in `packages/a` is `a`, or `b` with `"name": "b"`.
pub fn is_named(found: Package<'_>, name: &str) -> bool
    ensures { IsTrue result ↔ IsNamed (package_value found.entry) name.now }
{
    name_of(found) == name
}

/// Returns the name of a package: the one that the lock file writes for it, or else that of its folder. Does not allocate.
pub fn name_of<'v>(found: Package<'v>) -> &'v str
    ensures { IsNamed (package_value found.entry) result.now }
{
    match said_name(found.member) {
        Some(said) => said_or_placed(found.folder, said),
        None => end_of(found.folder),
    }
}

/// The name that is said, or that of the folder if it is empty.
fn said_or_placed<'v>(folder: &'v str, said: &'v str) -> &'v str
    ensures { ((result.now ≡ said.now) × (said.now ≢ [])) ⊎ ((said.now ≡ []) × IsEnd folder.now result.now) }
{
    if said.is_empty() {
        end_of(folder)
    } else {
        said
    }
}

/// The name that the lock file writes for a package.
fn said_name(member: &Value) -> Option<&str>
    ensures { option_map (λ name. name.now) result ≡ Packages.said_name (view member.now) }
{
    member.get("name")?.as_str()
}

/// Returns `true` if a member of `packages` is a link, and no package of its own: npm asks whether `link` counts as true.
pub fn is_link(member: &Value) -> bool
    ensures { result ≡ Packages.is_link (view member.now) }
{
    has_true(member, "link")
}
