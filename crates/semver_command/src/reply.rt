//! What the words of the command line and standard input are replied with.
use crate::answer::{answer, is_nothing};
use crate::asked::read_arguments;
use crate::command_error::CommandError;
use crate::ending::Ending;
use crate::explained::explain;
use crate::help::HELP;
use crate::writing::{flush, write_text};
use std::alloc::Global;
use std::io::{BufReader, Read, Write};

/// Replies to the words after the program's name: writes the versions, or with `--explain` the sets of the ranges.
///
/// Standard input is read to its end if no word is a version, and if one is `-`; with `--explain` it is not read. What was
/// written before an error stays written. `errors` is for ranges that are to be explained and are refused.
///
/// # Errors
///
/// - `Identifier`: there is an increment of one version, and the text after `--preid` is no identifier.
/// - `Stopped`: reading from standard input, a write or an allocation failed. A beginning of the text may have been written.
///
/// # Memory
///
/// Allocates for the ranges, for one line of standard input, and for one version. Only if the versions are sorted, or if
/// there is an increment, it allocates for all versions.
///
/// # Examples
///
/// - `-r ^1.2 1.10.0 v1.2.3 2.0.0 x`: the lines `1.2.3` and `1.10.0`.
/// - `-r ^1.2`, and the lines `1.10.0`, `v1.2.3` and `2.0.0` on standard input: the same.
/// - `--unsorted -r ^1.2 1.10.0 -`, and these lines: `1.10.0`, `1.10.0` and `1.2.3`.
/// - `-i minor 1.2.3`: the line `1.3.0`.
/// - `-r ^1 2.0.0`: no line, and `Nothing`.
/// - `--explain -r ^1.2.3-rc.4`: the line `>=1.2.3-rc.4 <2.0.0-0  prereleases of 1.2.3`.
///
/// # Source
///
/// npm's `semver` 7.6.2, `bin/semver.js`.
pub fn run<R: Read, W: Write, E: Write>(
    alloc: Global,
    words: &[String],
    reader: &mut BufReader<R>,
    writer: &mut W,
    errors: &mut E,
) -> Result<Ending, CommandError> {
    let ending = reply(alloc, words, reader, writer, errors)?;
    flush(writer)?;
    Ok(ending)
}

/// Replies, with what may still be in the writer's buffer.
fn reply<R: Read, W: Write, E: Write>(
    alloc: Global,
    words: &[String],
    reader: &mut BufReader<R>,
    writer: &mut W,
    errors: &mut E,
) -> Result<Ending, CommandError> {
    let asked = read_arguments(alloc, words)?;
    if is_nothing(words) || asked.options.help {
        write_text(writer, HELP.as_bytes())?;
        return Ok(Ending::Written);
    }
    if asked.options.explain {
        return Ok(explain(alloc, &asked, writer, errors)?);
    }
    answer(alloc, &asked, reader, writer)
}
