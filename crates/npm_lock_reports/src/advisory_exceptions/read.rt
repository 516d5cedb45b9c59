//! The exceptions of a file.
ghost use Rattle.std.specs.Prelude.{◌≡◌, ◌++◌, [], ◌∷◌, IfErr, IfOk, Ok, OnOk, map};
ghost use Rattle.npm_lock_reports.specs.AdvisoryExceptions.{exception_value};
ghost use Rattle.toml.specs.View.{array_view, table_view};
ghost use Rattle.npm_lock_reports.specs.Reading.{AreExceptions, IsRefused, IsRefusedAs, exceptions_of, items_read};

use crate::advisory_exceptions::error::{ExceptionFault, ExceptionsError};
use crate::advisory_exceptions::exception::Exception;
use crate::advisory_exceptions::item::{exception_at, value_at};
use crate::advisory_exceptions::keys::{Level, unknown_key};
use crate::advisory_exceptions::place::placed;
use crate::advisory_exceptions::refusal::{key_error, toml_error, unplaced};
use std::alloc::Global;
use toml::value::Array;
use toml::{Table, table_from_str};

/// Returns the exceptions of a file with this text, in their order.
///
/// The file is TOML. It has a table `[[exceptions]]` for each exception, with `id`, `package`, `reason` and `until`, a day as
/// 2027-03-01. `until` may be left out. A file without such a table has no exception.
///
/// # Errors
///
/// - `NoToml`: the text is no TOML, with the line and the column of the first fault.
/// - `Faulty`: a key with another name, or a value of another type, with the place of the exception, and with the line and the column of
///   the key, or of the exception that lacks it.
/// - `Memory`: an allocation failed.
///
/// # Memory
///
/// Allocates the exceptions and, for the time of the call, the values of the file.
///
/// # Source
///
/// OSV-Scanner's "Configure OSV-Scanner", whose `[[IgnoredVulns]]` has `id`, `ignoreUntil` and `reason`.
pub fn read_exceptions(alloc: Global, text: &str) -> Result<Vec<Exception>, ExceptionsError>
    ensures found { IfOk result (λ list. AreExceptions text.now (map exception_value list.items)) }
    ensures refused { IfErr result (IsRefused text.now) }
{
    match table_from_str(alloc, text) {
        Ok(table) => match exceptions_in(alloc, &table) {
            Ok(list) => Ok(list),
            Err(error) => Err(placed(text, error)),
        },
        Err(error) => Err(toml_error(alloc, text, error)),
    }
}

/// The exceptions of a table.
fn exceptions_in(alloc: Global, table: &Table) -> Result<Vec<Exception>, ExceptionsError>
    ensures found { IfOk result (λ list. exceptions_of (table_view table.now) ≡ Ok (map exception_value list.items)) }
    ensures refused { IfErr result (IsRefusedAs (exceptions_of (table_view table.now))) }
{
    if let Some(key) = unknown_key(table, Level::File) {
        return Err(key_error(alloc, None, key));
    }
    let Some(value) = value_at(table, "exceptions") else {
        return Ok(Vec::new(alloc));
    };
    match value.as_array() {
        Some(items) => all_in(alloc, items),
        None => Err(unplaced(ExceptionFault::List)),
    }
}

/// The exceptions of a list.
fn all_in(alloc: Global, items: &Array) -> Result<Vec<Exception>, ExceptionsError>
    ensures found { IfOk result (λ list. items_read 0 (array_view items.now) ≡ Ok (map exception_value list.items)) }
    ensures refused { IfErr result (IsRefusedAs (items_read 0 (array_view items.now))) }
{
    let items = items.as_slice();
    let mut list = Vec::new(alloc);
    for place in 0..items.len() {
        match exception_at(alloc, place, &items[place]) {
            Ok(exception) => push(&mut list, exception)?,
            Err(error) => return Err(error),
        }
    }
    Ok(list)
}

/// Adds an exception.
fn push(list: &mut Vec<Exception>, exception: Exception) -> Result<(), ExceptionsError>
    ensures added { OnOk result (list.new.items ≡ list.old.items ++ (exception ∷ [])) }
    ensures memory { IfErr result (λ error. error ≡ ExceptionsError.Memory) }
{
    match list.push(exception) {
        Ok(()) => Ok(()),
        Err(_) => Err(ExceptionsError::Memory),
    }
}
