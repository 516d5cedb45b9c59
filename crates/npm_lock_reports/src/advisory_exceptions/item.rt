//! One exception of a file.
ghost use Rattle.std.specs.Prelude.{◌≡◌, IfErr, IfOk, Ok, option_map};
ghost use Rattle.std.specs.Result.{result_map_both};
ghost use Rattle.npm_lock_reports.specs.AdvisoryExceptions.{exception_value};
ghost use Rattle.toml.specs.Data.{get_member};
ghost use Rattle.toml.specs.View.{table_view, view};
ghost use Rattle.npm_lock_reports.specs.Reading as Reading;
ghost use Rattle.npm_lock_reports.specs.Reading.{IsRefusedAs, exception_of, fault_value};
ghost use Rattle.npm_lock_reports.specs.Private.Parts.{parts_value};

use crate::advisory_exceptions::error::{ExceptionFault, ExceptionsError};
use crate::advisory_exceptions::exception::Exception;
use crate::advisory_exceptions::keys::{Level, unknown_key};
use crate::advisory_exceptions::refusal::{key_error, unplaced};
use std::alloc::{AllocError, Global};
use toml::{Table, Value};
use toml_datetime::Date;

/// The parts of an exception.
#[derive(Clone, Copy)]
pub(crate) struct Parts<'t> {
    id: &'t str,
    name: &'t str,
    reason: &'t str,
    until: Option<Date>,
}

/// Returns the exception at this place.
pub(crate) fn exception_at(
    alloc: Global,
    place: usize,
    item: &Value,
) -> Result<Exception, ExceptionsError>
    ensures found { IfOk result (λ exception. exception_of place (view item.now) ≡ Ok (exception_value exception)) }
    ensures refused { IfErr result (IsRefusedAs (exception_of place (view item.now))) }
{
    let Some(table) = item.as_table() else {
        return Err(unplaced(ExceptionFault::Table(place)));
    };
    if let Some(key) = unknown_key(table, Level::Exception) {
        return Err(key_error(alloc, Some(place), key));
    }
    match parts_of(place, table) {
        Ok(parts) => exception_with(alloc, parts).map_err(|_| ExceptionsError::Memory),
        Err(fault) => Err(unplaced(fault)),
    }
}

/// The parts of the exception of a table.
fn parts_of(place: usize, table: &Table) -> Result<Parts<'_>, ExceptionFault>
    ensures { result_map_both parts_value fault_value result ≡ Reading.parts_in place (table_view table.now) }
{
    let Some(id) = text_at(table, "id") else {
        return Err(ExceptionFault::Id(place));
    };
    let Some(name) = text_at(table, "package") else {
        return Err(ExceptionFault::Package(place));
    };
    let Some(reason) = text_at(table, "reason") else {
        return Err(ExceptionFault::Reason(place));
    };
    let Some(until) = until_at(table) else {
        return Err(ExceptionFault::Until(place));
    };
    Ok(Parts {
        id,
        name,
        reason,
        until,
    })
}

/// Returns the value at a key.
pub(crate) fn value_at<'t>(table: &'t Table, key: &str) -> Option<&'t Value>
    ensures { option_map (λ value. view value.now) result ≡ get_member key.now (table_view table.now) }
{
    table.get(key)
}

/// A text at a key, if it is not white space alone.
fn text_at<'t>(table: &'t Table, key: &str) -> Option<&'t str>
    ensures { option_map (λ text. text.now) result ≡ Reading.text_at key.now (table_view table.now) }
{
    match value_at(table, key)?.as_str() {
        Some(text) if !text.trim().is_empty() => Some(text),
        _ => None,
    }
}

/// The last day, which may be absent. `None`: it is no day.
fn until_at(table: &Table) -> Option<Option<Date>>
    ensures { result ≡ Reading.until_at (table_view table.now) }
{
    let Some(value) = value_at(table, "until") else {
        return Some(None);
    };
    match day_of(value) {
        Some(day) => Some(Some(day)),
        None => None,
    }
}

/// A day without a time.
fn day_of(value: &Value) -> Option<Date>
    ensures { result ≡ Reading.day_of (view value.now) }
{
    let datetime = value.as_datetime()?;
    if datetime.time.is_some() || datetime.offset.is_some() {
        return None;
    }
    datetime.date
}

/// An exception with copies of these parts.
fn exception_with(alloc: Global, parts: Parts<'_>) -> Result<Exception, AllocError>
    ensures { IfOk result (λ exception. exception_value exception ≡ parts_value parts.entry) }
{
    Ok(Exception {
        id: String::from_str(alloc, parts.id)?,
        name: String::from_str(alloc, parts.name)?,
        reason: String::from_str(alloc, parts.reason)?,
        until: parts.until,
    })
}
