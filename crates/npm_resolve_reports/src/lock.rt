//! A lock file.
ghost use Rattle.std.specs.Prelude.{◌≡◌, ◌++◌, IfOk, OnOk, map, option_map};
ghost use Rattle.serde_json.specs.View.{view};
ghost use Rattle.npm_resolve.specs.Installed.{installed_value};
ghost use Rattle.npm_resolve.specs.Answers.{chosen_value};
ghost use Rattle.npm_resolve_reports.specs.Locks as Locks;
ghost use Rattle.npm_resolve_reports.specs.Locks.{AreLockLines, AreLockLinesFor};

use crate::Result;
use npm_resolve::{Chosen, Document, Installed, lock_of, lock_text};
use serde_json::Value;
use std::alloc::Global;

/// Returns the text of the lock file of version 3 for the first manifest and the versions that are selected. If there is no manifest, it
/// is empty.
///
/// # Errors
///
/// An allocation failed.
///
/// # Memory
///
/// Allocates the lock file, and its text.
///
/// # Examples
///
/// For a manifest that asks for `a` by `^1`, and `a` in version 1.0.0, `packages` has `""` and `node_modules/a`.
pub fn lock_lines<'v>(
    alloc: Global,
    manifests: &'v [Value],
    documents: &'v [Document],
    chosen: &[Chosen<'v>],
) -> Result<Vec<u8>>
    ensures { IfOk result (λ lines. AreLockLines manifests.now documents.now (map chosen_value chosen.now) lines.items) }
{
    match manifests.first() {
        Some(root) => lock_lines_for(alloc, root, documents, chosen),
        None => Ok(Vec::new(alloc)),
    }
}

/// The lock file for a manifest.
fn lock_lines_for<'v>(
    alloc: Global,
    root: &'v Value,
    documents: &'v [Document],
    chosen: &[Chosen<'v>],
) -> Result<Vec<u8>>
    ensures { IfOk result (λ lines. AreLockLinesFor root.now documents.now (map chosen_value chosen.now) lines.items) }
{
    let installed = all_installed(alloc, documents, chosen)?;
    let lock = lock_of(alloc, root, &installed)?;
    lock_text(alloc, &lock)
}

/// The packages that are selected, with what their documents say of them.
fn all_installed<'v>(
    alloc: Global,
    documents: &'v [Document],
    chosen: &[Chosen<'v>],
) -> Result<Vec<Installed<'v>>>
    ensures { IfOk result (λ installed. map installed_value installed.items
        ≡ Locks.all_installed documents.now (map chosen_value chosen.now)) }
{
    let mut installed = Vec::with_capacity(alloc, chosen.len())?;
    for one in chosen {
        add_installed(&mut installed, documents, *one)?;
    }
    Ok(installed)
}

/// Adds a package, if its document has the version.
fn add_installed<'v>(
    installed: &mut Vec<Installed<'v>>,
    documents: &'v [Document],
    chosen: Chosen<'v>,
) -> Result<()>
    ensures { OnOk result (map installed_value installed.new.items
        ≡ map installed_value installed.old.items ++ Locks.installed_by documents.now (chosen_value chosen.entry)) }
{
    if let Some(manifest) = manifest_of(documents, chosen.name, chosen.key) {
        installed.push(Installed {
            name: chosen.name,
            package: chosen.package,
            version: chosen.key,
            manifest,
        })?;
    }
    Ok(())
}

/// What the document of a name says of a version.
pub(crate) fn manifest_of<'v>(documents: &'v [Document], name: &str, key: &str) -> Option<&'v Value>
    ensures { option_map (λ manifest. view manifest.now) result ≡ Locks.manifest_of documents.now name.now key.now }
{
    packument_of(documents, name)?.get("versions")?.get(key)
}

/// The first document of a name.
fn packument_of<'v>(documents: &'v [Document], name: &str) -> Option<&'v Value>
    ensures { option_map (λ packument. view packument.now) result ≡ Locks.packument_of documents.now name.now }
{
    for document in documents {
        if document.name.as_str() == name {
            return Some(&document.packument);
        }
    }
    None
}
