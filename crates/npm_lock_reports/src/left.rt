//! What is left of the packages that advisories hit.
ghost use Rattle.std.specs.Prelude.{◌≡◌, ◌++◌, IfOk, OnOk, map};
ghost use Rattle.npm_advisories.specs.Audit.{found_value};
ghost use Rattle.npm_advisories.specs.Advisories.{about_value};
ghost use Rattle.npm_lock_reports.specs.Exceptions.{exceptions_value, hits_among, left_in, left_one, some_list};
ghost use Rattle.npm_lock_reports.specs.Private.Places.{IsIndexed};

use crate::exceptions::Exceptions;
use crate::indexed::Indexed;
use npm_advisories::{About, Found};
use std::alloc::{AllocError, Global};

/// Returns the packages that are hit by an advisory that is not excepted for them, each with these advisories alone. The versions
/// that are offered stay: no advisory hits them, excepted or not.
///
/// # Errors
///
/// An allocation failed.
///
/// # Memory
///
/// Allocates the list, and for the time of the call an index of the exceptions.
pub fn leave_out_excepted<'f, 'v>(
    alloc: Global,
    found: Vec<Found<'f, 'v>>,
    exceptions: Exceptions<'_>,
) -> Result<Vec<Found<'f, 'v>>, AllocError>
    ensures { IfOk result (λ left. map found_value left.items
        ≡ left_in (exceptions_value exceptions.entry) (map found_value found.entry.items)) }
{
    let indexed = Indexed::of(alloc, exceptions)?;
    let mut left = Vec::new(alloc);
    for one in found {
        push_left(alloc, &mut left, one, &indexed)?;
    }
    Ok(left)
}

/// Adds a package, unless each advisory that hits it is excepted.
fn push_left<'f, 'v>(
    alloc: Global,
    left: &mut Vec<Found<'f, 'v>>,
    one: Found<'f, 'v>,
    exceptions: &Indexed<'_>,
) -> Result<(), AllocError>
    requires { IsIndexed exceptions.now }
    ensures { OnOk result (map found_value left.new.items ≡ map found_value left.old.items
        ++ some_list (left_one (exceptions_value exceptions.now.exceptions) (found_value one.entry))) }
{
    let Found {
        folder,
        name,
        version,
        hits,
        least,
        admitted,
    } = one;
    let hits = hits_left(alloc, &hits, name, exceptions)?;
    if hits.is_empty() {
        return Ok(());
    }
    left.push(Found {
        folder,
        name,
        version,
        hits,
        least,
        admitted,
    })?;
    Ok(())
}

/// The advisories that are not excepted for the package with this name.
fn hits_left<'f>(
    alloc: Global,
    hits: &[About<'f>],
    name: &str,
    exceptions: &Indexed<'_>,
) -> Result<Vec<About<'f>>, AllocError>
    requires { IsIndexed exceptions.now }
    ensures { IfOk result (λ left. map about_value left.items
        ≡ hits_among (exceptions_value exceptions.now.exceptions) name.now (map about_value hits.now)) }
{
    let mut left = Vec::new(alloc);
    for about in hits {
        if exceptions.place_of(alloc, name, *about)?.is_none() {
            left.push(*about)?;
        }
    }
    Ok(left)
}
