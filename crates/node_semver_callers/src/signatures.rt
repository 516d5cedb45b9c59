//! Each name of the port of `node-semver` and of `semver_cuts` below it, called with the types that its page says. It is here
//! to be compiled: who changes a name or a signature sees it refused.

use node_semver::{
    Comparisons, Identifier, JsonError, MAX_LENGTH, MAX_SAFE_INTEGER, Range, SemverError,
    SemverErrorKind, SetTree, SourceSpan, Version, max_satisfying,
};
use semver_cuts::algebra::are_merged;
use semver_cuts::{Cut, Span, Stepped, covers, join};
use serde_json::Value;
use std::alloc::{AllocError, Global};
use std::num::ParseIntError;

/// A pair of ends, borrowed from spans.
pub type Lent<'a> = Option<(&'a Cut<u64>, &'a Cut<u64>)>;

/// The limits of a text.
pub fn limits() -> (usize, u64) {
    (MAX_LENGTH, MAX_SAFE_INTEGER)
}

/// What an error says.
pub fn parts(error: &SemverError) -> Result<(&str, usize, usize, (usize, usize)), AllocError> {
    let span: &SourceSpan = error.span();
    let (one, other): (SourceSpan, SourceSpan) = (*span, span.clone()?);
    let is_same: bool = one == other && one.len() == 0;
    let offset: usize = if is_same {
        one.offset()
    } else {
        error.offset()
    };
    Ok((error.input(), offset, error.offset(), error.location()))
}

/// Each kind of error, with what it holds.
pub fn held(kind: &SemverErrorKind) -> (Option<&ParseIntError>, u64, &str) {
    match kind {
        SemverErrorKind::ParseIntError(fault) => (Some(fault), 0, ""),
        SemverErrorKind::MaxIntError(number) => (None, *number, ""),
        SemverErrorKind::Context(word) => (None, 0, word),
        SemverErrorKind::MaxLengthError
        | SemverErrorKind::IncompleteInput
        | SemverErrorKind::NoValidRanges
        | SemverErrorKind::Other
        | SemverErrorKind::OutOfMemory => (None, 0, ""),
    }
}

/// Copies of an error and of its kind.
pub fn copies(error: &SemverError) -> Result<(SemverError, SemverErrorKind), AllocError> {
    let copied: Result<SemverError, AllocError> = error.clone();
    let kind: Result<SemverErrorKind, AllocError> = error.kind().clone();
    Ok((copied?, kind?))
}

/// The fields of a version, made anew.
pub fn rebuilt(alloc: Global, version: &Version) -> Result<Version, AllocError> {
    let mut made: Version = Version::new(alloc, version.major, version.minor, version.patch);
    for identifier in version.pre_release.as_slice() {
        let copied: Result<Identifier, AllocError> = identifier.clone();
        made.pre_release.push(copied?)?;
    }
    for identifier in version.build.as_slice() {
        made.build.push(identifier.clone()?)?;
    }
    Ok(made)
}

/// What an identifier holds.
pub fn identifier_parts(identifier: &Identifier) -> (u64, &str) {
    match identifier {
        Identifier::Numeric(number) => (*number, ""),
        Identifier::AlphaNumeric(text) => (0, text.as_str()),
    }
}

/// A version read, written and made.
pub fn versions(alloc: Global, text: &str) -> Result<(Version, Version), SemverError> {
    let read: Version = Version::parse(alloc, text)?;
    let made: Result<Version, AllocError> = Version::with_pre_release(alloc, 1, 2, 3, 4);
    let copied: Result<Version, AllocError> = read.clone();
    let made: Version = match made {
        Ok(made) => made,
        Err(_) => Version::new(alloc, 0, 0, 0),
    };
    match copied {
        Ok(copied) => Ok((copied, made)),
        Err(_) => Ok((read, made)),
    }
}

/// Whether a version is no prerelease.
pub fn is_release(version: &Version) -> bool {
    let is_prerelease: bool = version.is_prerelease();
    !is_prerelease
}

/// Whether a version satisfies a range, asked in each way.
pub fn satisfied(version: &Version, range: &Range, comparisons: &mut Comparisons) -> bool {
    let one: bool = version.satisfies(range);
    let other: bool = range.satisfies(version);
    let counted: bool = range.satisfies_counted(version, comparisons);
    one && other && counted
}

/// Counts from 0.
pub fn count() -> Comparisons {
    Comparisons::new()
}

/// Questions about two ranges.
pub fn overlap(one: &Range, other: &Range) -> (bool, bool, bool) {
    (one.allows_all(other), one.allows_any(other), one == other)
}

/// Ranges made of two.
pub fn joined(
    alloc: Global,
    one: &Range,
    other: &Range,
) -> Result<(Option<Range>, Option<Range>, Range), AllocError> {
    let common: Option<Range> = one.intersect(alloc, other)?;
    let rest: Option<Range> = one.difference(alloc, other)?;
    let copied: Result<Range, AllocError> = one.clone();
    Ok((common, rest, copied?))
}

/// A range read, or the one of all releases.
pub fn range_of(alloc: Global, text: &str) -> Result<Range, AllocError> {
    let read: Result<Range, SemverError> = Range::parse(alloc, text);
    match read {
        Ok(range) => Ok(range),
        Err(_) => Range::any(alloc),
    }
}

/// The least versions.
pub fn leasts(
    alloc: Global,
    one: &Range,
    other: &Range,
) -> Result<(Option<Version>, Option<Version>), AllocError> {
    Ok((one.min_version(alloc)?, one.least_beyond(alloc, other)?))
}

/// The greatest of a list.
pub fn greatest<'v>(versions: &'v [Version], range: &Range) -> Option<&'v Version> {
    max_satisfying(versions, range)
}

/// JSON values of a version and of a range.
pub fn values(
    alloc: Global,
    version: &Version,
    range: &Range,
) -> Result<(Value, Value), AllocError> {
    Ok((version.to_json(alloc)?, range.to_json(alloc)?))
}

/// A version and a range of JSON values.
pub fn read_values(
    alloc: Global,
    one: &Value,
    other: &Value,
) -> Result<(Version, Range), JsonError> {
    Ok((
        Version::from_json(alloc, one)?,
        Range::from_json(alloc, other)?,
    ))
}

/// What an error of a JSON value holds.
pub fn inner(error: &JsonError) -> Option<&SemverError> {
    match error {
        JsonError::NotAString => None,
        JsonError::Semver(error) => Some(error),
    }
}

/// The range of a tree.
pub fn evaluated(alloc: Global, tree: &SetTree) -> Result<Option<Range>, AllocError> {
    match tree {
        SetTree::Text(text) if text.as_str().is_empty() => Ok(None),
        SetTree::Both(one, _) => one.evaluate(alloc),
        SetTree::Without(_, other) => other.evaluate(alloc),
        SetTree::Text(_) => tree.evaluate(alloc),
    }
}

/// The ends of a span, what it shares with another, and the rest.
pub fn ends<'a>(one: &'a Span<u64>, other: &'a Span<u64>) -> (Lent<'a>, Lent<'a>, Lent<'a>) {
    let lower: &Cut<u64> = one.lower();
    let upper: &Cut<u64> = one.upper();
    let whole: Lent<'a> = if one.contains(&1) {
        Some((lower, upper))
    } else {
        one.common(other)
    };
    let (below, above): (Lent<'a>, Lent<'a>) = one.rest(other);
    (whole, below, above)
}

/// Spans of each kind of cut, joined, and whether they cover others.
pub fn cover(alloc: Global, others: &[Span<u64>]) -> Result<bool, AllocError> {
    let mut spans: Vec<Span<u64>> = Vec::new(alloc);
    let made: [Option<Span<u64>>; 2] = [
        Span::new(Cut::Start, Cut::Before(1)),
        Span::new(Cut::After(1), Cut::End),
    ];
    for span in made {
        if let Some(span) = span {
            spans.push(span)?;
        }
    }
    let merged: Vec<Span<u64>> = join(alloc, spans)?;
    let are_both: bool = are_merged(merged.as_slice()) && are_merged(others);
    Ok(are_both && covers(merged.as_slice(), others))
}

/// The version after another, or the least one.
pub fn following(alloc: Global, version: &Version) -> Result<Version, AllocError> {
    version.known();
    let next: Option<Version> = Stepped::next(version, alloc)?;
    match next {
        Some(next) => Ok(next),
        None => Stepped::least(alloc),
    }
}
