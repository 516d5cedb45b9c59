//! The reply to a question, and how the program ends.
ghost use Rattle.std.specs.Prelude.{◌≡◌, ◌≢◌, List, ℕ, IfErr, IfOk, map};
ghost use Rattle.std.specs.Fn.{FnReturnsAt};
ghost use Rattle.std.specs.Io.KnownBytes.{Appends};
ghost use Rattle.npm_resolve.specs.Texts.{text};
ghost use Rattle.npm_resolve_reports.specs.Reply as Replies;
ghost use Rattle.npm_resolve_reports.specs.Reply.{AreFileLines, AreLines, IsFailure, IsReply, done_value, reply_value};

use crate::format::Format;
use crate::json::json_line;
use crate::lock::lock_lines;
use crate::notes::all_notes;
use crate::platform::Platform;
use crate::text::text_lines;
use npm_pick_reports::{LoadError, RunError};
use npm_resolve::{Document, Omits, Options, Reach, Resolution, documents_for, resolved};
use serde_json::Value;
use std::alloc::{AllocError, Global};
use std::io::Write;

/// Which versions fit together for manifests.
#[derive(Clone, Copy)]
pub struct Question<'q> {
    pub manifests: &'q [Value],
    pub options: Options<'q>,
    pub reach: Reach,
    pub omits: Omits,
    pub platform: Platform<'q>,
    /// So many steps are done at most, and so many again to find what cannot be installed together.
    pub steps: u64,
}

/// How the program ends.
#[derive(Clone, Copy, Debug, PartialEq, Eq, Drop)]
pub enum Ending {
    /// Versions fit together.
    Selected,
    /// No versions do.
    NoSelection,
    /// The steps were used up before either was known.
    Undecided,
    /// Versions fit together, and no lock file is written of them, since rules in `overrides` are not read.
    Unread,
}

/// How the program ends, and the lines for standard error.
#[derive(Drop)]
pub struct Done {
    pub ending: Ending,
    pub notes: Vec<u8>,
}

/// The lines for standard output, and the rest of the reply.
#[derive(Drop)]
struct Reply {
    lines: Vec<u8>,
    done: Done,
}

/// Writes the lines of the reply to a question. `load` returns the document of a package, if there is one. Returns how the program
/// ends, and the lines for standard error.
///
/// # Errors
///
/// - `Write`: a write failed. A beginning of the lines may have been written.
/// - `Load`: what `load` returned for a package. Nothing was written, and so for the last one.
/// - `Memory`: an allocation failed.
///
/// # Memory
///
/// Allocates all documents, what `resolved` allocates, and all lines.
///
/// # Examples
///
/// Where `a` has the version 1.0.0 alone, it writes `a@1.0.0` for a manifest that asks for `a` by `^1`.
pub fn run<W: Write, F: Fn(&str) -> Result<Option<Value>, LoadError>>(
    alloc: Global,
    question: Question<'_>,
    format: Format,
    load: F,
    writer: &mut W,
) -> Result<Done, RunError>
    requires { F.IsAlwaysCallable load }
    ensures written { IfOk result (λ done. (text : List ℕ)
        × IsReply (FnReturnsAt F.Fn load) question.entry format (done_value text done)
        × Appends (W.contents writer.old) (W.contents writer.new) text) }
    ensures failed { IfErr result (λ error. error ≢ RunError.Write
        → IsFailure (FnReturnsAt F.Fn load) error × (writer.new ≡ writer.old)) }
{
    let reply = match reply_of(alloc, question, format, load) {
        Ok(reply) => reply,
        Err(error) => return Err(error),
    };
    match writer.write_all(reply.lines.as_slice()) {
        Ok(()) => Ok(reply.done),
        Err(_) => Err(RunError::Write),
    }
}

/// The reply to a question.
fn reply_of<F: Fn(&str) -> Result<Option<Value>, LoadError>>(
    alloc: Global,
    question: Question<'_>,
    format: Format,
    load: F,
) -> Result<Reply, RunError>
    requires { F.IsAlwaysCallable load }
    ensures reply { IfOk result (λ reply. IsReply (FnReturnsAt F.Fn load) question.entry format (reply_value reply)) }
    ensures failed { IfErr result (IsFailure (FnReturnsAt F.Fn load)) }
{
    let Question {
        manifests,
        options,
        reach,
        omits,
        platform,
        steps,
    } = question;
    let documents = match documents_for(alloc, manifests, &options, reach, omits, load) {
        Ok(documents) => documents,
        Err(LoadError::Memory) => return Err(RunError::Memory),
        Err(error) => return Err(RunError::Load(error)),
    };
    let answer = resolved(alloc, manifests, &documents, &options, reach, omits, steps)?;
    let notes = all_notes(
        alloc,
        platform,
        &documents,
        &answer.left_out,
        &answer.unread,
        &answer.unmet,
        &answer.missing,
        &answer.resolution,
    )?;
    if is_unread(format, &answer.resolution, &answer.unread) {
        return Ok(Reply {
            lines: Vec::new(alloc),
            done: Done {
                ending: Ending::Unread,
                notes,
            },
        });
    }
    Ok(Reply {
        lines: lines_of(alloc, manifests, &documents, &answer.resolution, format)?,
        done: Done {
            ending: ending_of(&answer.resolution),
            notes,
        },
    })
}

/// Returns `true` if a lock file of what is selected is asked for, and rules in `overrides` are not read. There is no lock file then: npm
/// reads the rules, and `npm ci` would refuse the file.
fn is_unread(format: Format, resolution: &Resolution<'_>, unread: &[&str]) -> bool
    ensures { result ≡ Replies.is_unread format resolution.now (map text unread.now) }
{
    match resolution {
        Resolution::Selected(_) => format == Format::Lock && !unread.is_empty(),
        Resolution::NoSelection(_) | Resolution::Undecided => false,
    }
}

/// The lines of a resolution.
fn lines_of<'v>(
    alloc: Global,
    manifests: &'v [Value],
    documents: &'v [Document],
    resolution: &Resolution<'v>,
    format: Format,
) -> Result<Vec<u8>, AllocError>
    ensures { IfOk result (λ lines. AreLines format manifests.now documents.now resolution.now lines.items) }
{
    match format {
        Format::Text => text_lines(alloc, documents, resolution),
        Format::Json => json_line(alloc, documents, resolution),
        Format::Lock => file_lines(alloc, manifests, documents, resolution),
    }
}

/// The lock file of what is selected, or lines of text if nothing is.
fn file_lines<'v>(
    alloc: Global,
    manifests: &'v [Value],
    documents: &'v [Document],
    resolution: &Resolution<'v>,
) -> Result<Vec<u8>, AllocError>
    ensures { IfOk result (λ lines. AreFileLines manifests.now documents.now resolution.now lines.items) }
{
    match resolution {
        Resolution::Selected(chosen) => lock_lines(alloc, manifests, documents, chosen),
        Resolution::NoSelection(_) | Resolution::Undecided => {
            text_lines(alloc, documents, resolution)
        }
    }
}

/// How the program ends with a resolution.
fn ending_of(resolution: &Resolution<'_>) -> Ending
    ensures { result ≡ Replies.ending_of resolution.now }
{
    match resolution {
        Resolution::Selected(_) => Ending::Selected,
        Resolution::NoSelection(_) => Ending::NoSelection,
        Resolution::Undecided => Ending::Undecided,
    }
}
