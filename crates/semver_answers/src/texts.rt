//! Calls on a text.
use crate::Call;
use crate::borrowed::{both_read, both_read_strictly};
use crate::word::{text_at, version_at};
use crate::written::{
    are_alike, end_list, put, put_if_any, put_made, put_read, put_refusal, separate,
};
use named_calls::{CallError, Written};
use node_semver::{Identifiers, Range, SemverError, SemverErrorKind, Version, VersionRef};
use npm_semver::{
    CoerceOptions, NpmOptions, coerce, coerce_with_prerelease, parse_range, parse_version,
    read_identifier,
};
use std::alloc::Global;

pub(crate) fn answer(call: &Call<'_>, out: &mut String) -> Written {
    let (alloc, text, option) = (call.alloc, text_at(call, 0), text_at(call, 1));
    // (the options are words with blanks between)
    let options = NpmOptions {
        loose: option.contains("loose"),
        include_prerelease: option.contains("prereleases"),
    };
    let (rtl, wide) = (option == "rtl", options.include_prerelease);
    let direction = CoerceOptions { rtl };
    match call.name {
        "Version::parse" => {
            are_alike(!call.asks_forms || both_read(alloc, text))?;
            put_read(out, text, Version::parse(alloc, text))
        }
        "npm_semver::parse_version" => {
            are_alike(!call.asks_forms || both_read_strictly(alloc, text))?;
            put_read(out, text, parse_version(alloc, text))
        }
        "Range::parse" => put_read(out, text, Range::parse(alloc, text)),
        "npm_semver::parse_range" => put_read(out, text, parse_range(alloc, text, options)),
        "npm_semver::parse_range, read back" => {
            put_read_back(alloc, out, text, parse_range(alloc, text, options), wide)
        }
        "npm_semver::coerce" => put_if_any(out, Ok(coerce(alloc, text, direction))),
        "npm_semver::coerce_with_prerelease" => {
            put_if_any(out, coerce_with_prerelease(alloc, text, direction))
        }
        "npm_semver::read_identifier" => put_if_any(out, read_identifier(alloc, text.as_bytes())),
        "SemverError::new" => {
            let error = SemverError::new(alloc, text, 1, SemverErrorKind::Other);
            put_refusal(out, text, &error)
        }
        "Range::satisfies, read anew" => {
            let version = version_at(call, 1)?;
            put_satisfies(out, text, Range::parse(alloc, text), version, false)
        }
        "npm_semver::parse_range, satisfies" => {
            let version = version_at(call, 2)?;
            let range = parse_range(alloc, text, options);
            put_satisfies(out, text, range, version, wide)
        }
        _ => of_borrowed(call, out, text),
    }
}

type Read = Result<Range, SemverError>;

/// Whether a version satisfies a range that was read.
fn put_satisfies(out: &mut String, text: &str, range: Read, v: &Version, wide: bool) -> Written {
    match &range {
        Ok(range) if wide => put(out, &range.contains(v)),
        Ok(range) => put(out, &range.satisfies(v)),
        Err(error) => put_refusal(out, text, error),
    }
}

/// What the print of a range is read as, in strict form.
fn put_read_back(alloc: Global, out: &mut String, text: &str, range: Read, wide: bool) -> Written {
    let mut print = String::new(alloc);
    put_read(&mut print, text, range)?;
    let options = NpmOptions {
        loose: false,
        include_prerelease: wide,
    };
    put_read(out, &print, parse_range(alloc, &print, options))
}

/// Calls on a version that borrows the text.
fn of_borrowed(call: &Call<'_>, out: &mut String, text: &str) -> Written {
    match (call.name, VersionRef::parse(text)) {
        ("VersionRef::to_version", Ok(version)) => put_made(out, version.to_version(call.alloc)),
        ("VersionRef::clone", Ok(version)) => {
            put_made(out, version.clone()?.to_version(call.alloc))
        }
        ("Identifiers::to_vec", Ok(version)) => identifiers(call, out, version.pre_release()),
        ("Identifiers::clone", Ok(version)) => {
            identifiers(call, out, version.pre_release().clone()?)
        }
        ("Identifiers::to_vec", Err(_)) => end_list(out),
        ("VersionFault::into_error", Err(fault)) => {
            put_refusal(out, text, &fault.into_error(call.alloc, text))
        }
        _ => Err(CallError::Words),
    }
}

/// The identifiers of a list, with blanks between.
fn identifiers(call: &Call<'_>, out: &mut String, list: Identifiers<'_>) -> Written {
    for identifier in list.to_vec(call.alloc)?.iter() {
        separate(out, " ")?;
        put(out, identifier)?;
    }
    end_list(out)
}
