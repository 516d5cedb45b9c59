//! Exceptions by the names of packages and the ids of advisories.
ghost use Rattle.std.specs.Prelude.{◌≡◌, ◌&&◌, ℕ, IfOk, List, None, OnOk, Some, bytes_eq, cond, map, string_bytes};
ghost use Rattle.std.specs.BTreeMap.{get_by_text};
ghost use Rattle.npm_lock_reports.specs.AdvisoryExceptions.{exception_value};
ghost use Rattle.npm_lock_reports.specs.Places.{is_same_id};
ghost use Rattle.npm_lock_reports.specs.Index.{IsIndexOf, place_at};

use crate::advisory_exceptions::exception::Exception;
use std::alloc::{AllocError, Global};
use std::collections::BTreeMap;
use toml_datetime::Date;

/// The exceptions of a list that are not over.
#[derive(Drop)]
pub struct ExceptionIndex<'a> {
    /// By the name of the package, and by the id in small letters, the place of the first one.
    by_name: BTreeMap<&'a str, BTreeMap<String, usize>>,
}

impl<'a> ExceptionIndex<'a> {
    /// Returns the index of a list on this day.
    ///
    /// # Errors
    ///
    /// An allocation failed.
    pub fn of(
        alloc: Global,
        list: &'a [Exception],
        today: Date,
    ) -> Result<ExceptionIndex<'a>, AllocError>
        ensures { IfOk result (IsIndexOf today (map exception_value list.now)) }
    {
        let mut index = ExceptionIndex {
            by_name: BTreeMap::new(alloc),
        };
        let mut left = list.len();
        // The first of those that are alike comes last, and so stays.
        while 0 < left {
            let place = left - 1;
            let exception = &list[place];
            if !exception.is_over(today) {
                index.add(alloc, exception, place)?;
            }
            left = place;
        }
        Ok(index)
    }

    /// Adds the exception at a place, in the place of one that is alike.
    fn add(
        &mut self,
        alloc: Global,
        exception: &'a Exception,
        place: usize,
    ) -> Result<(), AllocError>
        ensures { OnOk result ((name id : List ℕ) → place_at self.new name id
            ≡ cond (bytes_eq (string_bytes exception.now.name) name && is_same_id (string_bytes exception.now.id) id) (Some place) (place_at self.old name id)) }
    {
        let id = exception.id.as_str().to_ascii_lowercase(alloc)?;
        let ids = self
            .by_name
            .entry(exception.name.as_str())?
            .or_insert(BTreeMap::new(alloc));
        put(ids, id, place)
    }

    /// Returns the place of the first exception that is not over, and is about the package with this name and the advisory with this id, with
    /// letters of either case.
    ///
    /// # Errors
    ///
    /// An allocation failed.
    ///
    /// # Memory
    ///
    /// Allocates a copy of the id for the time of the call.
    pub fn place(&self, alloc: Global, name: &str, id: &str) -> Result<Option<usize>, AllocError>
        ensures { IfOk result (λ place. place ≡ place_at self.now name.now id.now) }
    {
        let Some(ids) = self.by_name.get(name) else {
            return Ok(None);
        };
        let id = id.to_ascii_lowercase(alloc)?;
        match ids.get(id.as_str()) {
            Some(place) => Ok(Some(*place)),
            None => Ok(None),
        }
    }
}

/// Puts a place at an id, in the place of one that is there.
fn put(ids: &mut BTreeMap<String, usize>, id: String, place: usize) -> Result<(), AllocError>
    ensures { OnOk result ((text : List ℕ) → get_by_text ids.new text
        ≡ cond (bytes_eq (string_bytes id) text) (Some place) (get_by_text ids.old text)) }
{
    ids.insert(id, place)?;
    Ok(())
}
