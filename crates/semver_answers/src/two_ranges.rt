//! Calls on two ranges.
use crate::ranges::put_least;
use crate::word::{range_at, version_at};
use crate::written::{are_alike, end_list, put, put_if_any, put_made, put_truth};
use crate::{Call, orders};
use named_calls::{CallError, Written};
use node_semver::{Range, Version};
use std::alloc::AllocError;

pub(crate) fn answer(call: &Call<'_>, out: &mut String) -> Written {
    let (alloc, one, other) = (call.alloc, range_at(call, 0)?, range_at(call, 1)?);
    match call.name {
        "Range::intersect" => {
            put_if_any(out, one.intersect(alloc, other))?;
            are_alike((out.as_str() != "nothing") == one.allows_any(other))
        }
        "Range::difference" => put_if_any(out, one.difference(alloc, other)),
        "Range::union" => put_made(out, one.union(alloc, other)),
        "Range::allows_any" => put_truth(out, one.allows_any(other), &[other.allows_any(one)]),
        "Range::allows_all" => {
            if call.asks_forms {
                put_if_any(out, other.difference(alloc, one))?;
                are_alike((out.as_str() == "nothing") == one.allows_all(other))?;
                out.clear();
            }
            put(out, &one.allows_all(other))
        }
        "Range::eq" => orders::equality(out, one, other),
        "Range::intersect, satisfies" => satisfies(call, out, &one.intersect(alloc, other)),
        "Range::difference, satisfies" => satisfies(call, out, &one.difference(alloc, other)),
        "Range::union, satisfies" => satisfies(call, out, &Ok(Some(one.union(alloc, other)?))),
        _ => least(call, out, one, other),
    }
}

type Made<T> = Result<Option<T>, AllocError>;

/// Whether the version at the third place satisfies a range that was made.
fn satisfies(call: &Call<'_>, out: &mut String, range: &Made<Range>) -> Written {
    let version = version_at(call, 2)?;
    match range {
        Ok(Some(range)) => put(out, &range.satisfies(version)),
        Ok(None) => end_list(out),
        Err(_) => Err(AllocError.into()),
    }
}

/// The least version that the first range admits, and the other one or not. With prereleases included they contain it.
fn least(call: &Call<'_>, out: &mut String, one: &Range, other: &Range) -> Written {
    let (alloc, wide, wide_too) = (call.alloc, one.with_prereleases(), other.with_prereleases());
    let (beyond, common) = ([(one, true), (other, false)], [(one, true), (other, true)]);
    match call.name {
        "Range::least_beyond" => put_least(out, &one.least_beyond(alloc, other), &beyond, false),
        "WithPrereleases::least_beyond" => {
            put_least(out, &wide.least_beyond(alloc, other), &beyond, true)
        }
        "Range::least_common" => {
            put_least(out, &one.least_common(alloc, other), &common, false)?;
            put_again(call, out, other.least_common(alloc, one))
        }
        "WithPrereleases::least_common" => {
            put_least(out, &wide.least_common(alloc, other), &common, true)?;
            put_again(call, out, wide_too.least_common(alloc, one))
        }
        _ => Err(CallError::Words),
    }
}

/// What a call returns the other way round, which is the same.
fn put_again(call: &Call<'_>, out: &mut String, found: Made<Version>) -> Written {
    let mut print = String::new(call.alloc);
    put_if_any(&mut print, found)?;
    are_alike(print == *out)
}
