//! The hits that count.
ghost use Rattle.std.specs.Prelude.{◌≡◌, IfOk, map, option_map};
ghost use Rattle.serde_json.specs.View.{view};
ghost use Rattle.npm_advisories.specs.Audit.{found_value};
ghost use Rattle.npm_lock_reports.specs.Exceptions.{exceptions_value};
ghost use Rattle.npm_lock_reports.specs.Counted as Counted;
ghost use Rattle.npm_lock_reports.specs.Counted.{counted_value};

use crate::{Excepted, Exceptions, Omissions, excepted_of, leave_out_excepted, leave_out_hits};
use npm_advisories::Found;
use serde_json::Value;
use std::alloc::{AllocError, Global};

/// The packages that are hit, each with the advisories that count, and what is excepted of them.
#[derive(Drop)]
pub struct CountedHits<'f, 'v> {
    pub found: Vec<Found<'f, 'v>>,
    pub excepted: Vec<Excepted>,
}

/// Returns what counts of the packages of a lock file that advisories hit, and what is excepted. A package that is left out is neither.
///
/// # Errors
///
/// An allocation failed.
///
/// # Memory
///
/// Allocates both lists if there are exceptions, and nothing if there are none.
pub fn counted_hits<'f, 'v>(
    alloc: Global,
    found: Vec<Found<'f, 'v>>,
    lock: &Value,
    omissions: Omissions,
    exceptions: Option<Exceptions<'_>>,
) -> Result<CountedHits<'f, 'v>, AllocError>
    ensures { IfOk result (λ counted. counted_value counted ≡ Counted.counted_hits omissions
        (option_map exceptions_value exceptions.entry) (view lock.now) (map found_value found.entry.items)) }
{
    let mut found = found;
    leave_out_hits(&mut found, omissions, lock);
    match exceptions {
        Some(exceptions) => without_excepted(alloc, found, exceptions),
        None => Ok(CountedHits {
            found,
            excepted: Vec::new(alloc),
        }),
    }
}

/// Divides hits into those that count and those that are excepted.
fn without_excepted<'f, 'v>(
    alloc: Global,
    found: Vec<Found<'f, 'v>>,
    exceptions: Exceptions<'_>,
) -> Result<CountedHits<'f, 'v>, AllocError>
    ensures { IfOk result (λ counted. counted_value counted
        ≡ Counted.without_excepted (exceptions_value exceptions.entry) (map found_value found.entry.items)) }
{
    let excepted = excepted_of(alloc, &found, exceptions)?;
    let found = leave_out_excepted(alloc, found, exceptions)?;
    Ok(CountedHits { found, excepted })
}
