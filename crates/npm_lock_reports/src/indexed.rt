//! Which advisories are excepted for a package, by an index of the exceptions: a search takes the same time for few and for many.
ghost use Rattle.std.specs.Prelude.{◌≡◌, IfOk, option_map};
ghost use Rattle.serde_json.specs.View.{items_view, view};
ghost use Rattle.npm_advisories.specs.Advisories.{about_value, alias_item, aliases_items};
ghost use Rattle.npm_advisories.specs.KnownIds.{any_is, is_id, is_text};
ghost use Rattle.npm_lock_reports.specs.Exceptions as Excepted;
ghost use Rattle.npm_lock_reports.specs.Exceptions.{exceptions_value};
ghost use Rattle.npm_lock_reports.specs.Private.Places as Places;
ghost use Rattle.npm_lock_reports.specs.Private.Places.{IsIndexed, first_by};

use crate::advisory_exceptions::ExceptionIndex;
use crate::exceptions::Exceptions;
use itoa::Buffer;
use npm_advisories::{About, Aliases};
use serde_json::Value;
use std::alloc::{AllocError, Global};

/// Exceptions with their index.
#[derive(Drop)]
pub(crate) struct Indexed<'a> {
    pub(crate) exceptions: Exceptions<'a>,
    index: ExceptionIndex<'a>,
}

impl<'a> Indexed<'a> {
    pub(crate) fn of(alloc: Global, exceptions: Exceptions<'a>) -> Result<Indexed<'a>, AllocError>
        ensures indexed { IfOk result IsIndexed }
        ensures same { IfOk result (λ made. exceptions_value made.exceptions ≡ exceptions_value exceptions.entry) }
    {
        let index = ExceptionIndex::of(alloc, exceptions.list, exceptions.today)?;
        Ok(Indexed { exceptions, index })
    }

    /// The place of the first exception that excepts the advisory for the package with this name.
    pub(crate) fn place_of(
        &self,
        alloc: Global,
        name: &str,
        about: About<'_>,
    ) -> Result<Option<usize>, AllocError>
        requires { IsIndexed self.now }
        ensures { IfOk result (λ place. place
            ≡ Excepted.place_of (exceptions_value self.now.exceptions) name.now (about_value about.entry)) }
    {
        let by_id = self.place_of_id(alloc, name, about.id)?;
        let by_alias = self.place_of_alias(alloc, name, about.aliases)?;
        Ok(earlier(by_id, by_alias))
    }

    /// The place of the first one that names the `id` of an advisory.
    fn place_of_id(
        &self,
        alloc: Global,
        name: &str,
        id: &Value,
    ) -> Result<Option<usize>, AllocError>
        requires { IsIndexed self.now }
        ensures { IfOk result (λ place. place
            ≡ first_by (exceptions_value self.now.exceptions) name.now (λ known. is_id known (view id.now))) }
    {
        if let Some(text) = id.as_str() {
            return self.index.place(alloc, name, text);
        }
        match id.as_u64() {
            Some(number) => self.index.place(alloc, name, Buffer::new().format(number)),
            None => Ok(None),
        }
    }

    /// The place of the first one that names an alias of an advisory.
    fn place_of_alias(
        &self,
        alloc: Global,
        name: &str,
        aliases: Aliases<'_>,
    ) -> Result<Option<usize>, AllocError>
        requires { IsIndexed self.now }
        ensures { IfOk result (λ place. place
            ≡ first_by (exceptions_value self.now.exceptions) name.now (λ known. any_is known (aliases_items aliases.entry))) }
    {
        match aliases {
            Aliases::Address(text) => self.place_of_address(alloc, name, text),
            Aliases::Listed(values) => self.place_of_any(alloc, name, values),
        }
    }

    /// The place of the first one that names the text in an address, if there is one.
    fn place_of_address(
        &self,
        alloc: Global,
        name: &str,
        text: Option<&str>,
    ) -> Result<Option<usize>, AllocError>
        requires { IsIndexed self.now }
        ensures { IfOk result (λ place. place ≡ first_by (exceptions_value self.now.exceptions) name.now
            (λ known. any_is known (alias_item (option_map (λ text. text.now) text.entry)))) }
    {
        match text {
            Some(text) => self.index.place(alloc, name, text),
            None => Ok(None),
        }
    }

    /// The place of the first one that names one of these values.
    fn place_of_any(
        &self,
        alloc: Global,
        name: &str,
        values: &[Value],
    ) -> Result<Option<usize>, AllocError>
        requires { IsIndexed self.now }
        ensures { IfOk result (λ place. place
            ≡ first_by (exceptions_value self.now.exceptions) name.now (λ known. any_is known (items_view values.now))) }
    {
        let mut first = None;
        for value in values {
            first = earlier(first, self.place_of_value(alloc, name, value)?);
        }
        Ok(first)
    }

    /// The place of the first one that names a value, if that is a text.
    fn place_of_value(
        &self,
        alloc: Global,
        name: &str,
        value: &Value,
    ) -> Result<Option<usize>, AllocError>
        requires { IsIndexed self.now }
        ensures { IfOk result (λ place. place
            ≡ first_by (exceptions_value self.now.exceptions) name.now (λ known. is_text known (view value.now))) }
    {
        match value.as_str() {
            Some(text) => self.index.place(alloc, name, text),
            None => Ok(None),
        }
    }
}

/// The earlier of two places.
fn earlier(one: Option<usize>, other: Option<usize>) -> Option<usize>
    ensures { result ≡ Places.earlier one other }
{
    match (one, other) {
        (Some(one), Some(other)) => Some(one.min(other)),
        (Some(one), None) => Some(one),
        (None, other) => other,
    }
}
