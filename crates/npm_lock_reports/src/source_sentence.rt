//! What is suspicious in where a package comes from, as a sentence for a person.

use crate::piece::{Piece, Reading, before, push_pieces, text_or_empty};
use crate::sentence::last_name;
use npm_lock::{Source, SourceKind};
use std::alloc::AllocError;

/// Adds the sentence of a suspicious source: `the address of a 1.0.0 is not encrypted: http://r/a/-/a-1.0.0.tgz (node_modules/a)`.
pub fn push_source_sentence(
    line: &mut Vec<u8>,
    reading: Reading,
    source: &Source,
) -> Result<(), AllocError> {
    let folder = source.folder.as_str();
    let version = source.version.as_ref();
    let address = address_of(source);
    let pieces = [
        Piece::Fixed(subject(source.kind)),
        Piece::First(last_name(folder).unwrap_or(folder)),
        Piece::Fixed(before(version, " ")),
        Piece::Text(text_or_empty(version)),
        Piece::Fixed(verdict(source.kind)),
        Piece::Fixed(before(address, ": ")),
        Piece::Text(text_or_empty(address)),
        Piece::Fixed(" ("),
        Piece::Text(folder),
        Piece::Fixed(")"),
    ];
    push_pieces(line, reading, &pieces)
}

/// The address, if the sentence is about it.
fn address_of(source: &Source) -> Option<&String> {
    match source.kind {
        SourceKind::NoIntegrity => None,
        _ => source.resolved.as_ref(),
    }
}

/// What stands before the package.
fn subject(kind: SourceKind) -> &'static str {
    match kind {
        SourceKind::NoIntegrity => "",
        _ => "the address of ",
    }
}

/// What is suspicious.
fn verdict(kind: SourceKind) -> &'static str {
    match kind {
        SourceKind::OtherVersion => " is that of another version",
        SourceKind::OtherPackage => " is that of another package",
        SourceKind::Insecure => " is not encrypted",
        SourceKind::OtherHost => " is below no registry that was given",
        SourceKind::NoIntegrity => " has no integrity",
    }
}
