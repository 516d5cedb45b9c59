//! Calls on versions with blanks between, and on a range or on ranges with ` & ` between.
use crate::Call;
use crate::borrowed::are_same;
use crate::word::{range_of, text_at, version_of};
use crate::written::{alike, are_alike, put, put_truth};
use named_calls::{CallError, Written, list_of};
use node_semver::{
    AllOf, OrderedVersion, Range, Version, VersionRef, max_satisfying, min_satisfying,
};
use std::alloc::Global;

pub(crate) fn answer(call: &Call<'_>, out: &mut String) -> Written {
    let versions = versions_of(call.alloc, text_at(call, 0))?;
    let ranges = ranges_of(call.alloc, text_at(call, 1))?;
    match ranges.as_slice() {
        [range] if !call.name.starts_with("AllOf") => of_range(call, out, &versions, range),
        ranges => of_all(call, out, &versions, ranges),
    }
}

fn versions_of(alloc: Global, texts: &str) -> Result<Vec<Version>, CallError> {
    let texts = texts.split_whitespace();
    Ok(list_of!(alloc, texts, text => version_of(alloc, text).ok().ok_or(CallError::Words)?))
}

/// The empty text has no ranges.
fn ranges_of(alloc: Global, texts: &str) -> Result<Vec<Range>, CallError> {
    if texts.is_empty() {
        return Ok(Vec::new(alloc));
    }
    let texts = texts.split(" & ");
    Ok(list_of!(alloc, texts, text => range_of(alloc, text).ok().ok_or(CallError::Words)?))
}

fn read_borrowed<'a>(alloc: Global, texts: &'a str) -> Result<Vec<VersionRef<'a>>, CallError> {
    let texts = texts.split_whitespace();
    Ok(list_of!(alloc, texts, text => VersionRef::parse(text).ok().ok_or(CallError::Words)?))
}

fn of_range(call: &Call<'_>, out: &mut String, versions: &[Version], range: &Range) -> Written {
    let found = found_of(call.name, versions, range)?;
    if let Ok(borrowed) = &read_borrowed(call.alloc, text_at(call, 0)) {
        are_alike(is_same(found_of(call.name, borrowed, range)?, found))?;
    }
    found_version(out, found)
}

type Found<'v, V> = Result<Option<&'v V>, CallError>;

fn found_of<'v, V: OrderedVersion>(name: &str, versions: &'v [V], range: &Range) -> Found<'v, V> {
    Ok(match name {
        "max_satisfying" => max_satisfying(versions, range),
        "min_satisfying" => min_satisfying(versions, range),
        "WithPrereleases::max_satisfying" => range.with_prereleases().max_satisfying(versions),
        "WithPrereleases::min_satisfying" => range.with_prereleases().min_satisfying(versions),
        _ => return Err(CallError::Words),
    })
}

fn is_same(one: Option<&VersionRef<'_>>, other: Option<&Version>) -> bool {
    match (one, other) {
        (Some(one), Some(other)) => {
            other.cmp_ref(one).is_eq() && are_same(&other.build, one.build())
        }
        (one, other) => one.is_none() && other.is_none(),
    }
}

fn found_version(out: &mut String, found: Option<&Version>) -> Written {
    match found {
        Some(version) => put(out, version),
        None => Ok(out.push_str("nothing")?),
    }
}

fn of_all(call: &Call<'_>, out: &mut String, versions: &[Version], ranges: &[Range]) -> Written {
    let all = AllOf::new(ranges);
    match (call.name, versions, ranges) {
        ("AllOf::max_satisfying", versions, _) => in_all(out, all.max_satisfying(versions), ranges),
        ("AllOf::min_satisfying", versions, _) => in_all(out, all.min_satisfying(versions), ranges),
        ("AllOf::satisfies", [version, ..], _) => {
            let each = satisfies_each(version, ranges);
            put_truth(out, all.satisfies(version), &[each])
        }
        ("AllOf::satisfies, with prereleases", [version, ..], [one, other]) => {
            let views = [one.with_prereleases(), other.with_prereleases()];
            let each = one.contains(version) && other.contains(version);
            put_truth(out, AllOf::new(&views).satisfies(version), &[each])
        }
        _ => Err(CallError::Words),
    }
}

/// A version that satisfies all ranges, and each of them.
fn in_all(out: &mut String, found: Option<&Version>, ranges: &[Range]) -> Written {
    if let Some(version) = found {
        let all = AllOf::new(ranges);
        let forms = [version.satisfies(&all), all.satisfies(version)];
        alike(satisfies_each(version, ranges), &forms)?;
        are_alike(all.satisfies(version))?;
    }
    found_version(out, found)
}

fn satisfies_each(version: &Version, ranges: &[Range]) -> bool {
    for range in ranges {
        if !version.satisfies(range) {
            return false;
        }
    }
    true
}
