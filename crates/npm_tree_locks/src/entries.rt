//! The packages of a lock file, in the order of their folders.

use crate::Result;
use npm_packages::place_text;
use npm_trees::{Stands, Tree};
use std::alloc::Global;

/// A member of `packages`: its folder, and its place, or the link in `node_modules` to a workspace.
#[derive(PartialEq, Eq, PartialOrd, Ord, Drop)]
pub struct Entry {
    pub folder: String,
    pub place: usize,
    pub is_link: bool,
}

/// Returns the folders of the places of a tree.
pub fn folders_of(alloc: Global, tree: &Tree<'_>) -> Result<Vec<String>> {
    let mut folders: Vec<String> = Vec::with_capacity(alloc, tree.places.len())?;
    for place in &tree.places {
        let folder = match place.stands {
            Stands::Top { at, .. } => String::from_str(alloc, at)?,
            _ => place_text(alloc, folder_at(&folders, place.up), place.name)?,
        };
        folders.push(folder)?;
    }
    Ok(folders)
}

/// Returns the folder of a place.
pub fn folder_at(folders: &[String], number: Option<usize>) -> &str {
    match number {
        Some(number) => match folders.get(number) {
            Some(folder) => folder.as_str(),
            None => "",
        },
        None => "",
    }
}

/// Returns the members of `packages`, in the order of their folders' bytes.
pub fn entries_of(alloc: Global, tree: &Tree<'_>, folders: &[String]) -> Result<Vec<Entry>> {
    let mut entries = Vec::new(alloc);
    for (number, place) in tree.places.iter().enumerate() {
        entries.push(Entry {
            folder: String::from_str(alloc, folder_at(folders, Some(number)))?,
            place: number,
            is_link: false,
        })?;
        if let Stands::Top { .. } = place.stands {
            if place.up.is_some() {
                entries.push(Entry {
                    folder: place_text(alloc, "", place.name)?,
                    place: number,
                    is_link: true,
                })?;
            }
        }
    }
    entries.sort()?;
    Ok(entries)
}
