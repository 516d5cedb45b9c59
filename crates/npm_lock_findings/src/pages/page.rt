//! The page or the report of all lock files.

use crate::finding::Finding;
use crate::forms::{Form, push_pieces};
use crate::pages::format::PageFormat;
use crate::pages::whole::{CheckedFile, begin_pieces, end_pieces};
use std::alloc::{AllocError, Global};

/// Adds the page or the report that this version of the program `npm_lock_check` writes: what is said of the files that were refused, and
/// then these parts of lock files, one after the other. A page says first whether the check failed, and whether every lock file was
/// checked, and has a list of the lock files.
///
/// # Errors
///
/// An allocation failed. Then a beginning may have been added.
///
/// # Memory
///
/// Allocates the text that is added, and for the time of the call a list of pieces.
pub fn push_page(
    alloc: Global,
    out: &mut Vec<u8>,
    format: PageFormat,
    version: &str,
    parts: &[u8],
    checked: &[CheckedFile<'_>],
    refused: &[Finding<'_>],
    is_complete: bool,
) -> Result<(), AllocError> {
    let begin = begin_pieces(alloc, format, checked, refused, is_complete)?;
    push_pieces(out, Form::Markup, &begin)?;
    out.extend_from_slice(parts)?;
    push_pieces(out, Form::Markup, &end_pieces(format, version))
}
