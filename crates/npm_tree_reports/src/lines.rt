//! Lines for a person: a line for each package of a tree.

use crate::Result;
use command_lines::push_shown_first;
use npm_resolve_reports::{Piece, push_pieces};
use npm_tree_locks::{Entry, entries_of, folder_at, folders_of};
use npm_trees::{Document, Place, Stands, Tree};
use std::alloc::Global;

/// Returns a line for each package, in the order of the bytes of its folder.
pub(crate) fn tree_lines(
    alloc: Global,
    tree: &Tree<'_>,
    documents: &[Document<'_>],
) -> Result<Vec<u8>> {
    let folders = folders_of(alloc, tree)?;
    let mut lines = Vec::new(alloc);
    for entry in &entries_of(alloc, tree, &folders)? {
        if let Some(place) = tree.places.get(entry.place) {
            push_line(alloc, &mut lines, documents, &folders, entry, *place)?;
        }
    }
    Ok(lines)
}

/// Adds the line of a package or of a link. The folders of the root and of workspaces have none.
fn push_line(
    alloc: Global,
    lines: &mut Vec<u8>,
    documents: &[Document<'_>],
    folders: &[String],
    entry: &Entry,
    place: Place<'_>,
) -> Result<()> {
    match place.stands {
        Stands::Top { at, .. } if entry.is_link => push_link(alloc, lines, entry, at),
        Stands::Top { .. } => Ok(()),
        Stands::Link { to } => push_link(alloc, lines, entry, folder_at(folders, Some(to))),
        Stands::Package { document, version } => {
            let package = name_at(documents, document);
            push_package(alloc, lines, entry, place.name, package, version)
        }
    }
}

/// Returns the name of a document.
pub(crate) fn name_at<'d>(documents: &[Document<'d>], document: usize) -> &'d str {
    match documents.get(document) {
        Some(found) => found.name,
        None => "",
    }
}

/// Adds the line of a link: `node_modules/w -> packages/w`.
fn push_link<'n>(alloc: Global, lines: &mut Vec<u8>, entry: &Entry, to: &'n str) -> Result<()> {
    push_shown_first(lines, entry.folder.as_str())?;
    let pieces = [Piece::Fixed(" -> "), Piece::Shown(to), Piece::Fixed("\n")];
    push_pieces(alloc, lines, &pieces)
}

/// Adds the line of a package: `node_modules/react react@18.2.0`, and `node_modules/old old@npm:react@17.0.2` of an alias.
fn push_package<'n>(
    alloc: Global,
    lines: &mut Vec<u8>,
    entry: &Entry,
    name: &'n str,
    package: &'n str,
    version: &'n str,
) -> Result<()> {
    let (front, package, end) = if name == package {
        ("@", "", "")
    } else {
        ("@npm:", package, "@")
    };
    push_shown_first(lines, entry.folder.as_str())?;
    let pieces = [
        Piece::Fixed(" "),
        Piece::Shown(name),
        Piece::Fixed(front),
        Piece::Shown(package),
        Piece::Fixed(end),
        Piece::Shown(version),
        Piece::Fixed("\n"),
    ];
    push_pieces(alloc, lines, &pieces)
}
