//! Lines for a person: what cannot be met, and why.

use crate::Result;
use crate::blame::Blame;
use crate::exclusion::reasons_in;
use npm_resolve_reports::{Piece, push_pieces};
use npm_texts::{filled, registry_spec};
use npm_tree_building::Unmet;
use std::alloc::Global;

/// Returns what cannot be met, why, and what would fit.
pub(crate) fn conflict_lines(alloc: Global, blame: &Blame<'_>) -> Result<Vec<u8>> {
    let words = match blame.asks.as_slice() {
        [_] => "This cannot be met in ",
        [first, ..] if first.pick.is_none() => "These cannot be met in ",
        _ => "These cannot be met together in ",
    };
    let mut lines = Vec::new(alloc);
    let pieces = [
        Piece::Fixed(words),
        owner_piece(blame.at.as_str()),
        Piece::Fixed(":\n"),
    ];
    push_pieces(alloc, &mut lines, &pieces)?;
    for ask in &blame.asks {
        push_unmet(alloc, &mut lines, *ask)?;
    }
    if let Some(said) = &blame.said {
        lines.extend_from_slice(reasons_in(said.as_str()).as_bytes())?;
    }
    Ok(lines)
}

/// The root, or a folder.
pub(crate) fn owner_piece(at: &str) -> Piece<'_> {
    if at.is_empty() {
        Piece::Fixed("the root")
    } else {
        Piece::Shown(at)
    }
}

/// Adds the line of a dependency.
fn push_unmet(alloc: Global, lines: &mut Vec<u8>, ask: Unmet<'_>) -> Result<()> {
    let (words, pick) = match ask.pick {
        Some(pick) => (", of which npm picks ", pick),
        None if registry_spec(ask.name, ask.spec).is_none() => (
            ", which is not from a registry",
            "",
        ),
        None => (", which no version meets", ""),
    };
    let pieces = [
        Piece::Fixed("  "),
        Piece::Shown(ask.name),
        Piece::Fixed(" "),
        Piece::Shown(filled(ask.spec)),
        Piece::Fixed(words),
        Piece::Shown(pick),
        Piece::Fixed("\n"),
    ];
    push_pieces(alloc, lines, &pieces)
}
