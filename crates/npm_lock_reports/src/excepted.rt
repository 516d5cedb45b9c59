//! What is excepted.
ghost use Rattle.std.specs.Prelude.{◌≡◌, ◌++◌, IfOk, OnOk, map};
ghost use Rattle.npm_advisories.specs.Audit.{found_value};
ghost use Rattle.npm_advisories.specs.Advisories.{about_value};
ghost use Rattle.npm_lock_reports.specs.Exceptions.{exceptions_value};
ghost use Rattle.npm_lock_reports.specs.Excepted as Lists;
ghost use Rattle.npm_lock_reports.specs.Excepted.{excepted_value};
ghost use Rattle.npm_lock_reports.specs.Private.Places.{IsIndexed};

use crate::advisory_exceptions::Date;
use crate::exceptions::Exceptions;
use crate::indexed::Indexed;
use npm_advisories::{About, Found};
use npm_texts::copied;
use std::alloc::{AllocError, Global};

/// An installed package that an advisory hits which is excepted for it.
#[derive(Debug, PartialEq, Eq, Drop)]
pub struct Excepted {
    pub folder: String,
    pub name: String,
    /// `None`: the package has none.
    pub version: Option<String>,
    /// The place of the exception in its list.
    pub place: usize,
    /// The id of the advisory, as the exception has it.
    pub id: String,
    /// Why it does not count.
    pub reason: String,
    /// The last day on which it does not count.
    pub until: Option<Date>,
}

/// Returns what is excepted: of each package the advisories that hit it and are excepted for it, in their order.
///
/// # Errors
///
/// An allocation failed.
///
/// # Memory
///
/// Allocates the list and a copy of each text, and for the time of the call an index of the exceptions.
pub fn excepted_of(
    alloc: Global,
    found: &[Found<'_, '_>],
    exceptions: Exceptions<'_>,
) -> Result<Vec<Excepted>, AllocError>
    ensures { IfOk result (λ list. map excepted_value list.items
        ≡ Lists.excepted_in (exceptions_value exceptions.entry) (map found_value found.now)) }
{
    let indexed = Indexed::of(alloc, exceptions)?;
    let mut list = Vec::new(alloc);
    for one in found {
        push_excepted(alloc, &mut list, one, &indexed)?;
    }
    Ok(list)
}

/// Adds what is excepted of one package.
fn push_excepted(
    alloc: Global,
    list: &mut Vec<Excepted>,
    one: &Found<'_, '_>,
    exceptions: &Indexed<'_>,
) -> Result<(), AllocError>
    requires { IsIndexed exceptions.now }
    ensures { OnOk result (map excepted_value list.new.items ≡ map excepted_value list.old.items
        ++ Lists.excepted_among (exceptions_value exceptions.now.exceptions) (found_value one.now) (map about_value one.now.hits.items)) }
{
    for about in &one.hits {
        push_hit(alloc, list, one, *about, exceptions)?;
    }
    Ok(())
}

/// Adds an advisory that hits the package, if it is excepted.
fn push_hit(
    alloc: Global,
    list: &mut Vec<Excepted>,
    one: &Found<'_, '_>,
    about: About<'_>,
    exceptions: &Indexed<'_>,
) -> Result<(), AllocError>
    requires { IsIndexed exceptions.now }
    ensures { OnOk result (map excepted_value list.new.items ≡ map excepted_value list.old.items
        ++ Lists.excepted_hit (exceptions_value exceptions.now.exceptions) (found_value one.now) (about_value about.entry)) }
{
    match exceptions.place_of(alloc, one.name, about)? {
        Some(place) => {
            let (id, reason, until) = said_of(exceptions.exceptions, place);
            let folder = String::from_str(alloc, one.folder)?;
            let name = String::from_str(alloc, one.name)?;
            let version = copied(alloc, one.version)?;
            let id = String::from_str(alloc, id)?;
            let reason = String::from_str(alloc, reason)?;
            list.push(Excepted {
                folder,
                name,
                version,
                place,
                id,
                reason,
                until,
            })?;
            Ok(())
        }
        None => Ok(()),
    }
}

/// What the exception at a place says: the id of the advisory, the reason and the last day.
fn said_of<'a>(exceptions: Exceptions<'a>, place: usize) -> (&'a str, &'a str, Option<Date>) {
    match exceptions.list.get(place) {
        Some(exception) => (
            exception.id.as_str(),
            exception.reason.as_str(),
            exception.until,
        ),
        None => ("", "", None),
    }
}
