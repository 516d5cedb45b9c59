//! Versions that borrow their texts, beside versions.
use crate::orders::hash_of;
use node_semver::{
    Identifier, IdentifierRef, Identifiers, SemverError, Version, VersionFault, VersionRef,
};
use npm_semver::{compare_build, parse_version, parse_version_ref};
use std::alloc::Global;
use std::fmt::Display;

/// Returns `true` if both types read the text as the same version, with the same copy, print and hash, or with the same
/// fault.
pub(crate) fn both_read(alloc: Global, text: &str) -> bool {
    match (&Version::parse(alloc, text), VersionRef::parse(text)) {
        (Ok(version), Ok(borrowed)) => {
            borrowed.as_str() == text
                && borrowed.copy().as_str() == text
                && is_same(version, &borrowed)
                && is_copied(alloc, version, &borrowed)
                && prints_alike(alloc, &borrowed, version)
                && hash_of(version) == hash_of(&borrowed)
        }
        (Err(error), Err(fault)) => {
            is_same_fault(&fault, error)
                && fault == fault
                && fault.location(text) == error.location()
                && prints_alike(alloc, &fault, error)
                && fault.into_error(alloc, text) == *error
        }
        _ => false,
    }
}

/// Returns `true` if both types read the text strictly as the version that `Version::parse` reads, or with the same fault.
pub(crate) fn both_read_strictly(alloc: Global, text: &str) -> bool {
    match (&parse_version(alloc, text), parse_version_ref(text)) {
        (Ok(version), Ok(borrowed)) => {
            is_copied(alloc, version, &borrowed)
                && both_read(alloc, text)
                && is_read_loosely(alloc, text, version)
        }
        (Err(error), Err(fault)) => is_same_fault(&fault, error),
        _ => false,
    }
}

fn is_read_loosely(alloc: Global, text: &str, strict: &Version) -> bool {
    match &Version::parse(alloc, text) {
        Ok(version) => compare_build(version, strict).is_eq(),
        Err(_) => false,
    }
}

fn is_same_fault(fault: &VersionFault, error: &SemverError) -> bool {
    fault.offset() == error.offset() && fault.kind() == *error.kind()
}

fn is_same(version: &Version, borrowed: &VersionRef<'_>) -> bool {
    version.major == borrowed.major()
        && version.minor == borrowed.minor()
        && version.patch == borrowed.patch()
        && version.is_prerelease() == borrowed.is_prerelease()
        && are_same(&version.pre_release, borrowed.pre_release())
        && are_same(&version.build, borrowed.copy().build())
}

/// Whether identifiers are those of a version that borrows its text.
pub(crate) fn are_same(identifiers: &[Identifier], borrowed: Identifiers<'_>) -> bool {
    if borrowed.len() != identifiers.len() {
        return false;
    }
    let mut borrowed = borrowed;
    for identifier in identifiers {
        let is_same = match (identifier, borrowed.next()) {
            (Identifier::Numeric(a), Some(IdentifierRef::Numeric(b))) => *a == b,
            (Identifier::AlphaNumeric(a), Some(IdentifierRef::AlphaNumeric(b))) => a.as_str() == b,
            _ => false,
        };
        if !is_same {
            return false;
        }
    }
    borrowed.is_empty()
}

/// The copy is the version, with the same build.
fn is_copied(alloc: Global, version: &Version, borrowed: &VersionRef<'_>) -> bool {
    match &borrowed.to_version(alloc) {
        Ok(copy) => copy == version && copy.build == version.build && is_same(copy, borrowed),
        Err(_) => false,
    }
}

/// Whether a value prints as another one in each form: a print looks at no width, no fill and no other form.
pub(crate) fn prints_alike(alloc: Global, value: &impl Display, other: &impl Display) -> bool {
    let forms = format!(in alloc; "{value}{value:>9}{value:*^40}{value:>120}{value:#}");
    let plain = format!(in alloc; "{other}{other}{other}{other}{other}");
    match (&forms, &plain) {
        (Ok(forms), Ok(plain)) => forms == plain,
        _ => false,
    }
}
