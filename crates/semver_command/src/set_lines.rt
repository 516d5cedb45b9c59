//! The sets of a range, a line each.

use crate::opened::{Opened, opened_in};
use crate::stopped::Stopped;
use crate::writing::write_text;
use node_semver::{Range, Version};
use npm_semver::range_from_sets;
use semver_cuts::Span;
use std::alloc::{AllocError, Global};
use std::io::Write;
use std::slice;

/// Which prereleases satisfy a set.
#[derive(Drop)]
pub enum Note {
    /// No version satisfies it.
    NoVersions,
    /// Those that lie inside it, since prereleases are included.
    AllInside,
    /// Those of these releases.
    Of(Opened),
}

/// Writes the sets of the range, a line each: its comparators, two blanks, and which prereleases satisfy it.
pub fn write_sets<W: Write>(
    alloc: Global,
    writer: &mut W,
    range: &Range,
    include_prerelease: bool,
) -> Result<(), Stopped> {
    let sets = range.sets(alloc)?;
    for set in &sets {
        if let Some(alone) = range_from_sets(alloc, slice::from_ref(set))? {
            let note = note_of(alloc, &alone, set, include_prerelease)?;
            let line = line_of(alloc, &alone, &note)?;
            write_text(writer, line.as_bytes())?;
        }
    }
    Ok(())
}

/// The line of a set. `alone` is the range with this set alone.
fn line_of(alloc: Global, alone: &Range, note: &Note) -> Result<String, AllocError> {
    match note {
        Note::NoVersions => format!(in alloc; "{alone}  no versions\n"),
        Note::AllInside => format!(in alloc; "{alone}  all prereleases inside\n"),
        Note::Of(Opened::Nothing) => format!(in alloc; "{alone}  no prereleases\n"),
        Note::Of(Opened::One(one)) => format!(in alloc; "{alone}  prereleases of {one}\n"),
        Note::Of(Opened::Two(one, other)) => {
            format!(in alloc; "{alone}  prereleases of {one} and {other}\n")
        }
    }
}

/// Which prereleases satisfy the set. `alone` is the range with this set alone.
fn note_of(
    alloc: Global,
    alone: &Range,
    set: &Span<Version>,
    include_prerelease: bool,
) -> Result<Note, AllocError> {
    let least = if include_prerelease {
        alone.with_prereleases().min_version(alloc)?
    } else {
        alone.min_version(alloc)?
    };
    if least.is_none() {
        return Ok(Note::NoVersions);
    }
    if include_prerelease {
        return Ok(Note::AllInside);
    }
    Ok(Note::Of(opened_in(alloc, alone, set)?))
}
