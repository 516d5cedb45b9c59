//! Notes for standard error.
use crate::Result;
use crate::lock::manifest_of;
use crate::pieces::{Piece, push_pieces};
use crate::platform::{Platform, Unfit};
use npm_resolve::{Ask, Chosen, Document, Resolution};
use std::alloc::Global;

/// Returns a line for each ask that is left out, for each name whose rule in `overrides` is not read, and for each optional dependency that
/// no version meets; if versions are selected, also for each name without a document that a version needs, and for each selected version
/// that is not for the platform.
pub(crate) fn all_notes(
    alloc: Global,
    platform: Platform<'_>,
    documents: &[Document],
    left_out: &[Ask<'_>],
    unread: &[&str],
    unmet: &[&str],
    missing: &[&str],
    resolution: &Resolution<'_>,
) -> Result<Vec<u8>> {
    let mut lines = Vec::new(alloc);
    push_left_out(alloc, &mut lines, left_out)?;
    push_names(alloc, &mut lines, "overrides are not read", unread)?;
    push_names(alloc, &mut lines, "optional, and no version fits", unmet)?;
    if let Resolution::Selected(chosen) = resolution {
        let words = "no document, so versions that need it are left out";
        push_names(alloc, &mut lines, words, missing)?;
        push_all_unfit(alloc, &mut lines, platform, documents, chosen)?;
    }
    Ok(lines)
}

/// Adds a line for each ask that is left out.
fn push_left_out(alloc: Global, lines: &mut Vec<u8>, left_out: &[Ask<'_>]) -> Result<()> {
    for ask in left_out {
        let pieces = [
            Piece::Fixed("npm_resolve: not from a registry: "),
            Piece::Shown(ask.name),
            Piece::Fixed(" ("),
            Piece::Shown(ask.spec),
            Piece::Fixed(")\n"),
        ];
        push_pieces(alloc, lines, &pieces)?;
    }
    Ok(())
}

/// Adds a line for each of these names.
fn push_names<'n>(
    alloc: Global,
    lines: &mut Vec<u8>,
    words: &'n str,
    names: &'n [&'n str],
) -> Result<()> {
    for name in names {
        let pieces = [
            Piece::Fixed("npm_resolve: "),
            Piece::Fixed(words),
            Piece::Fixed(": "),
            Piece::Shown(name),
            Piece::Fixed("\n"),
        ];
        push_pieces(alloc, lines, &pieces)?;
    }
    Ok(())
}

/// Adds a line for each of these versions that is not for the platform.
fn push_all_unfit(
    alloc: Global,
    lines: &mut Vec<u8>,
    platform: Platform<'_>,
    documents: &[Document],
    chosen: &[Chosen<'_>],
) -> Result<()> {
    for one in chosen {
        if let Some(unfit) = unfit_of(platform, documents, *one) {
            push_unfit(alloc, lines, unfit, *one)?;
        }
    }
    Ok(())
}

/// What a version does not fit, if it is not for the platform.
fn unfit_of<'p>(
    platform: Platform<'p>,
    documents: &[Document],
    one: Chosen<'_>,
) -> Option<Unfit<'p>> {
    let manifest = manifest_of(documents, one.name, one.key)?;
    platform.unfit(manifest)
}

/// Adds the line of a version and of what it does not fit.
fn push_unfit<'n>(
    alloc: Global,
    lines: &mut Vec<u8>,
    unfit: Unfit<'n>,
    one: Chosen<'n>,
) -> Result<()> {
    let pieces = [
        Piece::Fixed("npm_resolve: not for --"),
        Piece::Fixed(unfit.member),
        Piece::Fixed(" "),
        Piece::Shown(unfit.system),
        Piece::Fixed(": "),
        Piece::Shown(one.name),
        Piece::Fixed(" "),
        Piece::Shown(one.key),
        Piece::Fixed("\n"),
    ];
    push_pieces(alloc, lines, &pieces)
}
