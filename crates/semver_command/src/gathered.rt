//! The versions of the words of the command line, and of the lines of standard input.
ghost use Rattle.std.specs.Prelude.{◌∷◌, [], IfOk, List, OnOk, map, ℕ};
ghost use Rattle.semver_command.specs.Input.{AreTexts};
ghost use Rattle.semver_command.specs.Private.Gathering.{Grows, IsGathered, StandsFor};
ghost use Rattle.semver_command.specs.Ranges.{IsInAll};

use crate::answer::is_nothing;
use crate::asked::Options;
use crate::chosen::add_chosen;
use crate::input_line::{InputLine, read_line};
use crate::kept::Kept;
use crate::stopped::Stopped;
use crate::writing::flush;
use memchr::memchr;
use node_semver::Range;
use std::alloc::Global;
use std::io::{BufReader, Read, Write};

/// Reads the versions of all texts that lie in all ranges, and returns what is kept of them.
pub fn gather<R: Read, W: Write>(
    alloc: Global,
    words: &[&str],
    options: Options,
    ranges: &[Option<Range>],
    reader: &mut BufReader<R>,
    writer: &mut W,
) -> Result<Kept, Stopped>
    ensures { IfOk result (IsGathered options (IsInAll options.include_prerelease ranges.now)
        (map (λ word. word.now) words.now)) }
{
    let mut kept = Kept::new(alloc, options.listing);
    if is_nothing(words) {
        add_lines(alloc, options, ranges, &mut kept, reader, writer, false)?;
        return Ok(kept);
    }
    add_words(alloc, words, options, ranges, &mut kept, reader, writer)?;
    Ok(kept)
}

/// Adds the versions of the words. The first `-` stands for the lines of standard input, and each other one for none.
fn add_words<R: Read, W: Write>(
    alloc: Global,
    words: &[&str],
    options: Options,
    ranges: &[Option<Range>],
    kept: &mut Kept,
    reader: &mut BufReader<R>,
    writer: &mut W,
) -> Result<(), Stopped>
    ensures { OnOk result ((texts : List (List ℕ)) × AreTexts (map (λ word. word.now) words.now) texts
        × Grows options (IsInAll options.include_prerelease ranges.now) texts kept.old kept.new) }
{
    let mut is_read = false;
    for word in words {
        add_word(alloc, word, options, ranges, kept, reader, writer, is_read)?;
        is_read = is_read || *word == "-";
    }
    Ok(())
}

/// Adds the version of a word, or those of the lines of standard input.
fn add_word<R: Read, W: Write>(
    alloc: Global,
    word: &str,
    options: Options,
    ranges: &[Option<Range>],
    kept: &mut Kept,
    reader: &mut BufReader<R>,
    writer: &mut W,
    is_read: bool,
) -> Result<(), Stopped>
    ensures { OnOk result ((texts : List (List ℕ)) × StandsFor word.now texts
        × Grows options (IsInAll options.include_prerelease ranges.now) texts kept.old kept.new) }
{
    if word == "-" {
        return add_lines(alloc, options, ranges, kept, reader, writer, is_read);
    }
    add_chosen(alloc, word.as_bytes(), options, ranges, kept, writer)
}

/// Adds the versions of the lines of standard input, unless it was read before. Before a line that is not wholly in the buffer, and so may have to
/// be waited for, everything is written.
fn add_lines<R: Read, W: Write>(
    alloc: Global,
    options: Options,
    ranges: &[Option<Range>],
    kept: &mut Kept,
    reader: &mut BufReader<R>,
    writer: &mut W,
    is_read: bool,
) -> Result<(), Stopped>
    ensures { OnOk result ((lines : List (List ℕ))
        × Grows options (IsInAll options.include_prerelease ranges.now) lines kept.old kept.new) }
{
    if is_read {
        return Ok(());
    }
    let mut line = Vec::new(alloc);
    'lines: for _ in 0..u64::MAX {
        if memchr(b'\n', reader.buffer()).is_none() {
            flush(writer)?;
        }
        match read_line(reader, &mut line)? {
            InputLine::Ended => add_chosen(alloc, &line, options, ranges, kept, writer)?,
            InputLine::Last => return add_chosen(alloc, &line, options, ranges, kept, writer),
            InputLine::End => return Ok(()),
        }
    }
    Err(Stopped::Read)
}
