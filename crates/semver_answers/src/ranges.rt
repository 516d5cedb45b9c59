//! Calls on one range, and on a range and a version.
use crate::word::{range_at, text_at, version_at};
use crate::written::{
    are_alike, end_list, put, put_ends, put_made, put_one_way, put_spans, separate,
};
use crate::{Call, satisfied};
use named_calls::{CallError, Written};
use node_semver::{Range, Version};
use npm_semver::range_from_sets;
use semver_cuts::Span;
use std::alloc::AllocError;

pub(crate) fn answer(call: &Call<'_>, out: &mut String) -> Written {
    let (alloc, range) = (call.alloc, range_at(call, 0)?);
    match call.name {
        "Range::clone" => put_made(out, range.clone()),
        "Range::min_version" => put_least(out, &range.min_version(alloc), &[(range, true)], false),
        "WithPrereleases::min_version" => {
            put_least(
                out,
                &range.with_prereleases().min_version(alloc),
                &[(range, true)],
                true,
            )
        }
        "Range::to_json" => put_made(out, range.to_json(alloc)),
        "Range::fmt" => put_one_way(alloc, out, range),
        "Range::sets" => sets(call, out, range),
        "Range::set" => put_set(
            out,
            &range.set(alloc, text_at(call, 1).parse().unwrap_or(0)),
        ),
        "npm_semver::range_from_sets" => from_sets(call, out, range),
        "Range::satisfies" => {
            satisfied::satisfies(out, range, version_at(call, 1)?, text_at(call, 1))
        }
        "Range::contains" => {
            satisfied::contains(out, range, version_at(call, 1)?, text_at(call, 1))
        }
        _ => Err(CallError::Words),
    }
}

type Made<T> = Result<T, AllocError>;

/// A least version, and of each range whether it admits the version, or contains it if prereleases are included.
pub(crate) fn put_least(
    out: &mut String,
    found: &Made<Option<Version>>,
    ranges: &[(&Range, bool)],
    wide: bool,
) -> Written {
    match found {
        Ok(Some(version)) => {
            for (range, is_in) in ranges {
                let has = if wide {
                    range.contains(version)
                } else {
                    range.satisfies(version)
                };
                are_alike(has == *is_in)?;
            }
            put(out, version)
        }
        Ok(None) => end_list(out),
        Err(_) => Err(AllocError.into()),
    }
}

fn put_set(out: &mut String, set: &Made<Option<Span<Version>>>) -> Written {
    match set {
        Ok(Some(set)) => put_ends(out, Some(set.ends())),
        Ok(None) => end_list(out),
        Err(_) => Err(AllocError.into()),
    }
}

/// The range of the sets that a range gives, which is equal to the range, and prints as it does.
fn from_sets(call: &Call<'_>, out: &mut String, range: &Range) -> Written {
    let mut print = String::new(call.alloc);
    put(&mut print, range)?;
    match &range.sets(call.alloc) {
        Ok(sets) => put_range(out, range, &range_from_sets(call.alloc, sets))?,
        Err(_) => return Err(AllocError.into()),
    }
    are_alike(print == *out)
}

fn put_range(out: &mut String, wanted: &Range, made: &Made<Option<Range>>) -> Written {
    match made {
        Ok(Some(made)) if made == wanted => put(out, made),
        Ok(_) => Err(CallError::Forms),
        Err(_) => Err(AllocError.into()),
    }
}

/// The sets, each of which is also given by its place, and none past the last.
fn sets(call: &Call<'_>, out: &mut String, range: &Range) -> Written {
    let mut print = String::new(call.alloc);
    for place in 0..range.set_count() {
        if let Some(set) = &range.set(call.alloc, place)? {
            separate(&mut print, "; ")?;
            put_ends(&mut print, Some(set.ends()))?;
        }
    }
    put_spans(out, &range.sets(call.alloc)?)?;
    are_alike(print == *out && range.set(call.alloc, range.set_count())?.is_none())
}
