//! The versions that a mirror keeps.
ghost use Rattle.std.specs.Prelude.{◌≡◌, ◌++◌, [], ◌∷◌, IfErr, IfOk, OnOk, filter, map, not, string_bytes};
ghost use Rattle.std.specs.Fn.{FnReturnsAt};
ghost use Rattle.serde_json.specs.View.{view};
ghost use Rattle.npm_texts.specs.RegistrySpec.{registry_spec_value};
ghost use Rattle.npm_pick_reports.specs.Loading.{IsLoadFailure};
ghost use Rattle.npm_pick_reports.specs.Mirror as Mirrors;
ghost use Rattle.npm_pick_reports.specs.Mirror.{AreWithInstalled, IsMirror, IsNeededFor, IsPackageFor, package_value};

pub mod asks;
mod in_order;
pub mod installed;
pub mod notes;
pub mod requests;
pub mod texts;

use crate::load_error::LoadError;
use crate::mirror::requests::{Groups, copies_of, names_of};
use crate::run_error::RunError;
use npm_pick::{Options, keep, keys_in_order};
use npm_texts::RegistrySpec;
use serde_json::Value;
use std::alloc::{AllocError, Global};

/// What a mirror keeps of a package.
#[derive(Drop)]
pub struct KeptPackage {
    pub name: String,
    /// The versions that are kept, in order.
    pub versions: Vec<String>,
    /// Installed versions that are not in its document.
    pub lacking: Vec<String>,
    /// The package has no document.
    pub is_absent: bool,
}

impl KeptPackage {
    /// Returns `true` if the package has a document with all its installed versions.
    pub fn is_complete(&self) -> bool
        ensures { result ≡ Mirrors.is_complete (package_value self.now) }
    {
        !self.is_absent && self.lacking.is_empty()
    }
}

/// Returns what a mirror keeps for these requests and these installed versions: of each package what `npm_pick::keep` keeps for all of
/// its requests together, and what is installed, in the order of the names and then of the versions. `load` returns the document of a
/// package, if there is one. It fails if a document that is needed is not read.
pub fn mirror_of<F: Fn(&str) -> Result<Option<Value>, LoadError>>(
    alloc: Global,
    requests: &[RegistrySpec<'_>],
    installed: &[RegistrySpec<'_>],
    all: bool,
    options: &Options<'_>,
    load: F,
) -> Result<Vec<KeptPackage>, RunError>
    requires { F.IsAlwaysCallable load }
    ensures mirror { IfOk result (λ packages. IsMirror (FnReturnsAt F.Fn load) options.now all
        (map registry_spec_value requests.now) (map registry_spec_value installed.now) (map package_value packages.items)) }
    ensures failed { IfErr result (IsLoadFailure
        (IsNeededFor (map registry_spec_value requests.now) (map registry_spec_value installed.now))
        (FnReturnsAt F.Fn load)) }
{
    let names = names_of(alloc, requests, installed)?;
    let asked = Groups::of_requests(alloc, requests)?;
    let found = Groups::of_requests(alloc, installed)?;
    let mut packages = Vec::new(alloc);
    for name in &names {
        let name = name.as_str();
        let texts = asked.texts_of(alloc, name)?;
        let versions = found.texts_of(alloc, name)?;
        let one = package_of(alloc, name, &texts, &versions, all, options, &load)?;
        add_package(&mut packages, one)?;
    }
    Ok(packages)
}

/// Adds a package.
fn add_package(packages: &mut Vec<KeptPackage>, one: KeptPackage) -> Result<(), AllocError>
    ensures { OnOk result (packages.new.items ≡ packages.old.items ++ (one ∷ [])) }
{
    packages.push(one)?;
    Ok(())
}

/// What is kept of a package for these texts and these installed versions.
fn package_of<F: Fn(&str) -> Result<Option<Value>, LoadError>>(
    alloc: Global,
    name: &str,
    texts: &[String],
    versions: &[String],
    all: bool,
    options: &Options<'_>,
    load: &F,
) -> Result<KeptPackage, RunError>
    requires { F.IsAlwaysCallable load.now }
    ensures name { IfOk result (λ one. string_bytes one.name ≡ name.now) }
    ensures found { IfOk result (λ one. IsPackageFor (FnReturnsAt F.Fn load.now) options.now all name.now
        (map string_bytes texts.now) (map string_bytes versions.now) (package_value one)) }
    ensures failed { IfErr result (IsLoadFailure (λ needed. needed ≡ name.now) (FnReturnsAt F.Fn load.now)) }
{
    match load(name) {
        Ok(Some(packument)) => {
            let picked = keep(alloc, &packument, texts, options, all)?;
            Ok(KeptPackage {
                name: String::from_str(alloc, name)?,
                versions: with_installed(alloc, &picked, versions)?,
                lacking: lacking_of(alloc, &packument, versions)?,
                is_absent: false,
            })
        }
        Ok(None) => Ok(KeptPackage {
            name: String::from_str(alloc, name)?,
            versions: with_installed(alloc, &[], versions)?,
            lacking: Vec::new(alloc),
            is_absent: true,
        }),
        Err(error) => Err(RunError::Load(error)),
    }
}

/// These versions of a package and those that are installed, in order, each once.
fn with_installed(
    alloc: Global,
    picked: &[&str],
    installed: &[String],
) -> Result<Vec<String>, AllocError>
    ensures { IfOk result (λ keys. AreWithInstalled (map (λ key. key.now) picked.now) (map string_bytes installed.now)
        (map string_bytes keys.items)) }
{
    both_in_order(alloc, picked, installed)
}

/// The same of texts that are lent for the same time.
fn both_in_order<'k>(
    alloc: Global,
    picked: &[&'k str],
    installed: &'k [String],
) -> Result<Vec<String>, AllocError>
    ensures { IfOk result (λ keys. AreWithInstalled (map (λ key. key.now) picked.now) (map string_bytes installed.now)
        (map string_bytes keys.items)) }
{
    let mut keys = Vec::from_slice(alloc, picked)?;
    for version in installed {
        keys.push(version.as_str())?;
    }
    let ordered = keys_in_order(alloc, &keys)?;
    copies_of(alloc, &ordered)
}

/// The installed versions that are not in the document.
fn lacking_of(
    alloc: Global,
    packument: &Value,
    versions: &[String],
) -> Result<Vec<String>, AllocError>
    ensures { IfOk result (λ lacking. map string_bytes lacking.items
        ≡ filter (λ key. not (Mirrors.has_version (view packument.now) key)) (map string_bytes versions.now)) }
{
    let mut lacking = Vec::new(alloc);
    for version in versions {
        if !has_version(packument, version.as_str()) {
            lacking.push(String::from_str(alloc, version.as_str())?)?;
        }
    }
    Ok(lacking)
}

/// Returns `true` if the document has this version.
fn has_version(packument: &Value, key: &str) -> bool
    ensures { result ≡ Mirrors.has_version (view packument.now) key.now }
{
    match packument.get("versions") {
        Some(versions) => versions.get(key).is_some(),
        None => false,
    }
}
