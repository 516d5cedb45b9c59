//! The calls.

use crate::asked::Asked;
use crate::audit::audited;
use crate::call_error::{CallError, refused_at_start};
use crate::check::checked;
use crate::fault::Fault;
use crate::outdated::{kept, outdated};
use crate::pick::picked;
use crate::resolve::resolved;
use std::alloc::Global;

/// Makes the call of this name for a JSON text. Returns the JSON text of its answer, an object.
///
/// # Errors
///
/// - `Refused`: there is no such call, the text is no JSON object, a member is missing, unknown or of the wrong kind, or a document cannot be
///   read. [`Refusal::text`](crate::Refusal::text) says which member.
/// - `Memory`: an allocation failed.
///
/// # Memory
///
/// Allocates the values of the text, and what the call allocates. All but the answer is freed.
///
/// # Examples
///
/// `pick` of `{"packument":{"versions":{"1.2.0":{},"2.0.0":{}}},"wanted":"^1"}` returns
/// `{"avoided":false,"major":false,"outcome":"picked","outside":false,"version":"1.2.0"}`.
pub fn call(alloc: Global, name: &str, text: &str) -> Result<String, CallError> {
    match name {
        "pick" => picked(Asked::of(alloc, text)?),
        "outdated" => outdated(Asked::of(alloc, text)?),
        "keep" => kept(Asked::of(alloc, text)?),
        "resolve" => resolved(Asked::of(alloc, text)?),
        "check" => checked(Asked::of(alloc, text)?),
        "audit" => audited(Asked::of(alloc, text)?),
        _ => Err(refused_at_start(alloc, Fault::Call)),
    }
}
