//! A type of a caller that is seen as a version, and copies and orders of borrowed values.
use node_semver::{
    AsVersion, EndVersion, IdentifierRef, Identifiers, OrderedVersion, Range, Triple, VersionRef,
    max_satisfying, min_satisfying,
};
use std::alloc::{AllocError, Global};
use std::cmp::Ordering;

// A key of a registry: a text, and the version that it writes.
#[derive(Drop)]
struct Key<'a> {
    text: &'a str,
    version: VersionRef<'a>,
}

impl<'a> AsVersion for Key<'a> {
    ghost seen = { λ key. key.version };

    fn is_prerelease(&self) -> bool {
        self.version.is_prerelease()
    }

    fn triple(&self) -> Triple {
        AsVersion::triple(&self.version)
    }

    fn cmp_extras(&self, end: &EndVersion) -> Ordering {
        self.version.cmp_extras(end)
    }
}

impl<'a> OrderedVersion for Key<'a> {
    fn cmp_version(&self, other: &Key<'a>) -> Ordering {
        self.version.cmp(&other.version)
    }
}

fn key_of(text: &str) -> Option<Key<'_>> {
    match VersionRef::parse(text) {
        Ok(version) => Some(Key { text, version }),
        Err(_) => None,
    }
}

fn is_key(key: Option<&Key<'_>>, text: &str) -> bool {
    match key {
        Some(key) => key.text == text,
        None => false,
    }
}

// The greatest key of the list is this one, and the least is that one.
fn are_ends(keys: &[Key<'_>], range: &Range, greatest: &str, least: &str) -> bool {
    is_key(max_satisfying(keys, range), greatest) && is_key(min_satisfying(keys, range), least)
}

fn finds_keys(alloc: Global) -> bool {
    let Ok(range) = Range::parse(alloc, "^1.2.3-rc.4") else {
        return false;
    };
    match (
        key_of("v1.2.3-rc.5"),
        key_of("1.09.0"),
        key_of("2.0.0-rc.1"),
    ) {
        (Some(first), Some(second), Some(third)) => {
            let keys = [first, second, third];
            are_ends(&keys, &range, "1.09.0", "v1.2.3-rc.5") && !range.satisfies(&keys[2])
        }
        _ => false,
    }
}

#[test]
fn a_callers_type_is_seen_as_its_version(rt: HostRuntime) {
    assert!(rt; finds_keys(rt.alloc()));
}

// Texts in ascending order: numbers by size, then texts by bytes.
fn identifiers_ascend() -> bool {
    let one = IdentifierRef::Numeric(2);
    let two = IdentifierRef::Numeric(11);
    let three = IdentifierRef::AlphaNumeric("Beta");
    let four = IdentifierRef::AlphaNumeric("alpha");
    one < two && two < three && three < four && four == four && one != two
}

// A clone of a list goes on where the list was.
fn is_cloned(version: &VersionRef<'_>) -> bool {
    let mut list = version.pre_release();
    let first = list.next();
    let cloned: Result<Identifiers<'_>, AllocError> = list.clone();
    let copied: Result<VersionRef<'_>, AllocError> = version.clone();
    let (Ok(mut rest), Ok(copy)) = (cloned, copied) else {
        return false;
    };
    first == Some(IdentifierRef::AlphaNumeric("alpha"))
        && rest.len() == 1
        && rest.next() == Some(IdentifierRef::Numeric(1))
        && rest.len() == 0
        && list.len() == 1
        && copy.compare_build(version).is_eq()
}

#[test]
fn borrowed_values_are_compared_and_cloned(rt: HostRuntime) {
    assert!(rt; identifiers_ascend());
    let version = VersionRef::parse("1.2.3-alpha.1+5");
    assert!(rt; version.is_ok_and(|version| is_cloned(&version)));
}
