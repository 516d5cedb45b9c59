//! Whether a version satisfies a range, or lies inside one of its sets. The text is the version's, or writes it by its parts.
use crate::written::{alike, put_truth};
use named_calls::{CallError, Written};
use node_semver::{
    AllOf, AsVersion, Comparisons, Range, Triple, Version, VersionRef, max_satisfying,
    min_satisfying,
};
use semver_cuts::Stepped;
use std::slice;

pub(crate) fn satisfies(out: &mut String, range: &Range, version: &Version, text: &str) -> Written {
    version.known();
    let found = range.satisfies(version);
    if let Ok(borrowed) = &VersionRef::parse(text) {
        let satisfies = range.satisfies(borrowed);
        alike(found, &[satisfies, borrowed.satisfies(range)])?;
    }
    if !version.is_prerelease() {
        alike(found, &[range.satisfies(&triple_of(version))])?;
    }
    let list = slice::from_ref(version);
    let all = AllOf::new(slice::from_ref(range));
    let forms = [
        range.satisfies_counted(version, &mut Comparisons::new()),
        version.satisfies(range),
        max_satisfying(list, range).is_some(),
        min_satisfying(list, range).is_some(),
        all.satisfies(version),
        all.max_satisfying(list).is_some(),
        all.min_satisfying(list).is_some(),
    ];
    put_truth(out, found, &forms)
}

fn triple_of(version: &Version) -> Triple {
    Triple::new(version.major, version.minor, version.patch)
}

pub(crate) fn contains(out: &mut String, range: &Range, version: &Version, text: &str) -> Written {
    let found = contained(range, version)?;
    if let Ok(borrowed) = &VersionRef::parse(text) {
        alike(found, &[contained(range, borrowed)?])?;
    }
    if !version.is_prerelease() {
        alike(found, &[contained(range, &triple_of(version))?])?;
    }
    let (wide, list) = (range.with_prereleases(), slice::from_ref(version));
    let forms = [
        wide.satisfies(version),
        version.satisfies(&wide),
        wide.max_satisfying(list).is_some(),
        wide.min_satisfying(list).is_some(),
    ];
    put_truth(out, found, &forms)
}

/// The call that counts agrees. A release is contained exactly if it satisfies the range, and a prerelease that satisfies it is
/// contained.
fn contained<V: AsVersion>(range: &Range, version: &V) -> Result<bool, CallError> {
    let found = range.contains(version);
    let satisfies = range.satisfies(version) || version.is_prerelease() && found;
    let counted = range.contains_counted(version, &mut Comparisons::new());
    alike(found, &[satisfies, counted])
}
