//! Lines for standard error.

use crate::Result;
use crate::conflict::owner_piece;
use npm_resolve_reports::{Piece, push_pieces};
use npm_texts::filled;
use npm_tree_locks::{folder_at, folders_of};
use npm_trees::{Ask, Tree};
use std::alloc::Global;

/// There is no tree, since the steps are used up.
pub(crate) const SPENT: &str = "npm_resolve: the steps are used up; --steps allows more\n";

/// There is no tree, since the check refuses those that were built.
pub(crate) const REFUSED: &str = "npm_resolve: no tree was found that the check accepts\n";

/// Returns a line for each optional dependency that is left out, and for each dependency that is in the archive of its package.
pub(crate) fn tree_notes(alloc: Global, tree: &Tree<'_>) -> Result<Vec<u8>> {
    let folders = folders_of(alloc, tree)?;
    let mut notes = Vec::new(alloc);
    for number in &tree.left_out {
        if let Some(ask) = tree.asks.get(*number) {
            push_note(alloc, &mut notes, "optional, and left out", &folders, ask)?;
        }
    }
    for ask in &tree.asks {
        if ask.bundled {
            push_note(
                alloc,
                &mut notes,
                "bundled, and not in the tree",
                &folders,
                ask,
            )?;
        }
    }
    Ok(notes)
}

/// Adds the line of a dependency.
fn push_note<'n>(
    alloc: Global,
    notes: &mut Vec<u8>,
    words: &'n str,
    folders: &'n [String],
    ask: &'n Ask<'n>,
) -> Result<()> {
    let pieces = [
        Piece::Fixed("npm_resolve: "),
        Piece::Fixed(words),
        Piece::Fixed(": "),
        Piece::Shown(ask.name),
        Piece::Fixed(" ("),
        Piece::Shown(filled(ask.spec)),
        Piece::Fixed(") of "),
        owner_piece(folder_at(folders, Some(ask.from))),
        Piece::Fixed("\n"),
    ];
    push_pieces(alloc, notes, &pieces)
}
