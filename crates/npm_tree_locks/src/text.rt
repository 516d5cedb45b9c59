//! The text of a lock file.

use crate::Result;
use crate::collation::sort_key;
use crate::entries::{Entry, entries_of, folder_at, folders_of};
use crate::marks::Marks;
use crate::members::{put_link, put_members};
use crate::writer::Writer;
use npm_texts::is_true;
use npm_trees::{Document, Stands, Tree};
use serde_json::Value;
use std::alloc::Global;

/// Returns the text of the lock file of version 3 for a tree of packages from these documents: a line for each member and item, with two
/// spaces for each level, and a newline at the end. As npm writes it, packages are in the order of their folders in English, the members of
/// each in that of their names, but its version and where it comes from before, and objects last.
///
/// A package is `dev`, `optional`, `devOptional` or `peer` if each way to it from the root has such a dependency. What counts as false or
/// is empty in a manifest is left out.
///
/// # Errors
///
/// An allocation failed.
///
/// # Memory
///
/// Allocates the text, and while it runs a folder and four marks for each place.
///
/// # Examples
///
/// For a root that asks for `a` by `^1`, and `a` 1.0.0 in its folder: `""` with `{"dependencies": {"a": "^1"}}`, and `"node_modules/a"`
/// with `{"version": "1.0.0"}`.
///
/// # Source
///
/// npm's "package-lock.json".
pub fn tree_lock<'d>(
    alloc: Global,
    tree: &Tree<'d>,
    documents: &[Document<'d>],
) -> Result<Vec<u8>> {
    let mut writer = Writer::new(alloc);
    writer.open()?;
    if let Some(root) = tree.places.first() {
        if let Stands::Top { manifest, .. } = root.stands {
            put_named(&mut writer, "name", manifest)?;
            put_named(&mut writer, "version", manifest)?;
        }
    }
    writer.put_word("lockfileVersion", "3")?;
    writer.put_word("requires", "true")?;
    writer.key("packages")?;
    writer.open()?;
    let marks = Marks::of(alloc, tree)?;
    let folders = folders_of(alloc, tree)?;
    for ordered in &ordered(alloc, entries_of(alloc, tree, &folders)?)? {
        let entry = &ordered.entry;
        writer.key(entry.folder.as_str())?;
        writer.open()?;
        put_entry(&mut writer, alloc, tree, documents, &folders, &marks, entry)?;
        writer.close()?;
    }
    writer.close()?;
    writer.close()?;
    writer.into_text()
}

/// An entry, and bytes that sort as folders do.
#[derive(PartialEq, Eq, PartialOrd, Ord, Drop)]
struct InOrder {
    order: Vec<u8>,
    entry: Entry,
}

/// The entries in the order of their folders in English.
fn ordered(alloc: Global, entries: Vec<Entry>) -> Result<Vec<InOrder>> {
    let mut all = Vec::with_capacity(alloc, entries.len())?;
    for entry in entries {
        let order = sort_key(alloc, entry.folder.as_str())?;
        all.push(InOrder { order, entry })?;
    }
    all.sort()?;
    Ok(all)
}

/// Adds a member of a manifest, if it counts as true.
fn put_named(writer: &mut Writer, key: &str, manifest: &Value) -> Result<()> {
    match manifest.get(key) {
        Some(value) if is_true(value) => writer.put_value(key, value),
        _ => Ok(()),
    }
}

/// Adds the members of a package.
fn put_entry<'d>(
    writer: &mut Writer,
    alloc: Global,
    tree: &Tree<'d>,
    documents: &[Document<'d>],
    folders: &[String],
    marks: &Marks,
    entry: &Entry,
) -> Result<()> {
    let Some(place) = tree.places.get(entry.place) else {
        return Ok(());
    };
    match place.stands {
        Stands::Link { to } => put_link(writer, folder_at(folders, Some(to)), entry.place, marks),
        Stands::Top { at, .. } if entry.is_link => put_link(writer, at, entry.place, marks),
        _ => put_members(writer, alloc, documents, place, entry.place, marks),
    }
}
