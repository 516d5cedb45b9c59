//! What `--explain` writes.

use crate::answer::{is_nothing, npm_options};
use crate::asked::Asked;
use crate::ending::Ending;
use crate::refused_text::lines_of_refused;
use crate::set_lines::write_sets;
use crate::stopped::Stopped;
use crate::writing::write_text;
use node_semver::SemverError;
use npm_semver::{NpmOptions, parse_range};
use std::alloc::Global;
use std::io::Write;

/// Writes the sets of the ranges, a line each. A text that is refused is written on standard error, with a mark at its
/// fault. The first one that is refused or missing decides how the program ends.
pub fn explain<W: Write, E: Write>(
    alloc: Global,
    asked: &Asked<'_>,
    writer: &mut W,
    errors: &mut E,
) -> Result<Ending, Stopped> {
    if !is_nothing(&asked.versions) || asked.increment.is_some() || is_nothing(&asked.ranges) {
        return Ok(Ending::Unexplained);
    }
    let options = npm_options(asked.options);
    let mut ending = Ending::Written;
    for text in &asked.ranges {
        let later = explain_text(alloc, *text, options, writer, errors)?;
        if ending == Ending::Written {
            ending = later;
        }
    }
    Ok(ending)
}

/// Writes the sets of the range of one text, or why the text is refused.
fn explain_text<W: Write, E: Write>(
    alloc: Global,
    text: Option<&str>,
    options: NpmOptions,
    writer: &mut W,
    errors: &mut E,
) -> Result<Ending, Stopped> {
    let Some(text) = text else {
        return Ok(Ending::Unexplained);
    };
    match parse_range(alloc, text, options) {
        Ok(range) => {
            write_sets(alloc, writer, &range, options.include_prerelease)?;
            Ok(Ending::Written)
        }
        Err(error) => write_refused(alloc, text, &error, errors),
    }
}

/// Writes a text that is refused, with a mark at its fault.
fn write_refused<E: Write>(
    alloc: Global,
    text: &str,
    error: &SemverError,
    errors: &mut E,
) -> Result<Ending, Stopped> {
    if error.is_out_of_memory() {
        return Err(Stopped::Memory);
    }
    let lines = lines_of_refused(alloc, text, error.offset())?;
    write_text(errors, &lines)?;
    Ok(Ending::Refused)
}
