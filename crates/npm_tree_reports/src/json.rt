//! The reply as a JSON object, without spaces. The members of objects are in the order of their names.

use crate::Result;
use crate::blame::Blame;
use crate::lines::name_at;
use npm_resolve_reports::{Piece, push_pieces};
use npm_texts::filled;
use npm_tree_building::Unmet;
use npm_tree_locks::{Entry, entries_of, folder_at, folders_of};
use npm_trees::{Ask, Document, Place, Stands, Tree};
use std::alloc::Global;

/// Returns the object of a tree, and a newline.
pub(crate) fn tree_json(
    alloc: Global,
    tree: &Tree<'_>,
    documents: &[Document<'_>],
) -> Result<Vec<u8>> {
    let folders = folders_of(alloc, tree)?;
    let mut text = Vec::new(alloc);
    push_asks(alloc, &mut text, tree, &folders)?;
    text.extend_from_slice(b"],\"outcome\":\"selected\",\"packages\":[")?;
    let mut front = "";
    for entry in &entries_of(alloc, tree, &folders)? {
        if let Some(place) = tree.places.get(entry.place) {
            if push_entry(alloc, &mut text, documents, &folders, entry, *place, front)? {
                front = ",";
            }
        }
    }
    text.extend_from_slice(b"]}\n")?;
    Ok(text)
}

/// Adds the dependencies that are in archives, and those that are left out.
fn push_asks(alloc: Global, text: &mut Vec<u8>, tree: &Tree<'_>, folders: &[String]) -> Result<()> {
    let mut front = "{\"bundled\":[";
    for ask in &tree.asks {
        if ask.bundled {
            push_ask(alloc, text, folders, ask, front)?;
            front = ",";
        }
    }
    text.extend_from_slice(if front == "," { b"" } else { front.as_bytes() })?;
    front = "],\"left_out\":[";
    for number in &tree.left_out {
        if let Some(ask) = tree.asks.get(*number) {
            push_ask(alloc, text, folders, ask, front)?;
            front = ",";
        }
    }
    text.extend_from_slice(if front == "," { b"" } else { front.as_bytes() })
}

/// Adds the object of a dependency, with what stands before it.
fn push_ask<'n>(
    alloc: Global,
    text: &mut Vec<u8>,
    folders: &'n [String],
    ask: &'n Ask<'n>,
    front: &'n str,
) -> Result<()> {
    let pieces = [
        Piece::Fixed(front),
        Piece::Fixed("{\"from\":"),
        Piece::Json(folder_at(folders, Some(ask.from))),
        Piece::Fixed(",\"name\":"),
        Piece::Json(ask.name),
        Piece::Fixed(",\"spec\":"),
        Piece::Json(filled(ask.spec)),
        Piece::Fixed("}"),
    ];
    push_pieces(alloc, text, &pieces)
}

/// Adds the object of a package or of a link, with what stands before it. The folders of the root and of workspaces have none. Returns
/// `true` if there is one.
fn push_entry(
    alloc: Global,
    text: &mut Vec<u8>,
    documents: &[Document<'_>],
    folders: &[String],
    entry: &Entry,
    place: Place<'_>,
    front: &str,
) -> Result<bool> {
    match place.stands {
        Stands::Top { .. } if !entry.is_link => return Ok(false),
        Stands::Top { at, .. } => push_link(alloc, text, entry, place.name, at, front)?,
        Stands::Link { to } => {
            let to = folder_at(folders, Some(to));
            push_link(alloc, text, entry, place.name, to, front)?;
        }
        Stands::Package { document, version } => {
            let package = name_at(documents, document);
            push_package(alloc, text, entry, place.name, package, version, front)?;
        }
    }
    Ok(true)
}

/// Adds the object of a link.
fn push_link<'n>(
    alloc: Global,
    text: &mut Vec<u8>,
    entry: &'n Entry,
    name: &'n str,
    to: &'n str,
    front: &'n str,
) -> Result<()> {
    let pieces = [
        Piece::Fixed(front),
        Piece::Fixed("{\"link\":"),
        Piece::Json(to),
        Piece::Fixed(",\"location\":"),
        Piece::Json(entry.folder.as_str()),
        Piece::Fixed(",\"name\":"),
        Piece::Json(name),
        Piece::Fixed("}"),
    ];
    push_pieces(alloc, text, &pieces)
}

/// Adds the object of a package.
fn push_package<'n>(
    alloc: Global,
    text: &mut Vec<u8>,
    entry: &'n Entry,
    name: &'n str,
    package: &'n str,
    version: &'n str,
    front: &'n str,
) -> Result<()> {
    let pieces = [
        Piece::Fixed(front),
        Piece::Fixed("{\"location\":"),
        Piece::Json(entry.folder.as_str()),
        Piece::Fixed(",\"name\":"),
        Piece::Json(name),
        Piece::Fixed(",\"package\":"),
        Piece::Json(package),
        Piece::Fixed(",\"version\":"),
        Piece::Json(version),
        Piece::Fixed("}"),
    ];
    push_pieces(alloc, text, &pieces)
}

/// Returns the object of what cannot be met, and a newline.
pub(crate) fn conflict_json(alloc: Global, blame: &Blame<'_>) -> Result<Vec<u8>> {
    let mut text = Vec::new(alloc);
    let mut front = "{\"culprits\":[";
    for ask in &blame.asks {
        push_unmet(alloc, &mut text, *ask, front)?;
        front = ",";
    }
    let pieces = [
        Piece::Fixed(if front == "," { "" } else { front }),
        Piece::Fixed("],\"from\":"),
        Piece::Json(blame.at.as_str()),
        Piece::Fixed(",\"outcome\":\"none\"}\n"),
    ];
    push_pieces(alloc, &mut text, &pieces)?;
    Ok(text)
}

/// Adds the object of a dependency that cannot be met, with what stands before it.
fn push_unmet<'n>(alloc: Global, text: &mut Vec<u8>, ask: Unmet<'n>, front: &'n str) -> Result<()> {
    let pieces = [
        Piece::Fixed(front),
        Piece::Fixed("{\"name\":"),
        Piece::Json(ask.name),
        Piece::Fixed(",\"pick\":"),
        Piece::json_or_null(ask.pick),
        Piece::Fixed(",\"spec\":"),
        Piece::Json(filled(ask.spec)),
        Piece::Fixed("}"),
    ];
    push_pieces(alloc, text, &pieces)
}

/// Returns the object without a tree, and a newline.
pub(crate) fn undecided_json(alloc: Global) -> Result<Vec<u8>> {
    let mut text = Vec::new(alloc);
    text.extend_from_slice(b"{\"outcome\":\"undecided\"}\n")?;
    Ok(text)
}
