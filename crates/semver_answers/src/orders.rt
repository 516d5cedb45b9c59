//! Orders, and equality with their hashes.
use crate::written::{alike, are_alike, put_order, put_truth};
use named_calls::Written;
use node_semver::{Identifier, Range, Version, VersionRef};
use npm_semver::compare_build;
use std::cmp::Ordering;
use std::hash::{DefaultHasher, Hash, Hasher};

pub(crate) fn hash_of(value: &impl Hash) -> u64 {
    let mut state = DefaultHasher::new();
    value.hash(&mut state);
    state.finish()
}

/// The order of two versions. The texts are theirs, or write them by their parts.
pub(crate) fn of_versions(out: &mut String, v: &Version, w: &Version, texts: [&str; 2]) -> Written {
    let found = v.cmp(w);
    let compared = v.partial_cmp(w) == Some(Ordering::Equal);
    alike(found.is_eq(), &[v == w, compared, hash_of(v) == hash_of(w)])?;
    are_alike((v < w) == found.is_lt())?;
    if let (Ok(a), Ok(b)) = (&VersionRef::parse(texts[0]), &VersionRef::parse(texts[1])) {
        are_alike((a == b) == found.is_eq())?;
        alike(found, &[a.cmp(b), b.cmp(a).reverse(), v.cmp_ref(b)])?;
    }
    put_order(out, found, &[w.cmp(v).reverse()])
}

/// The order of two versions with their builds.
pub(crate) fn with_builds(out: &mut String, v: &Version, w: &Version, texts: [&str; 2]) -> Written {
    let found = compare_build(v, w);
    if let (Ok(a), Ok(b)) = (&VersionRef::parse(texts[0]), &VersionRef::parse(texts[1])) {
        alike(found, &[a.compare_build(b)])?;
    }
    put_order(out, found, &[compare_build(w, v).reverse()])
}

pub(crate) fn of_identifiers(out: &mut String, one: &Identifier, other: &Identifier) -> Written {
    let found = one.cmp(other);
    let is_same_hash = hash_of(one) == hash_of(other);
    alike(found.is_eq(), &[one == other, is_same_hash])?;
    put_order(out, found, &[other.cmp(one).reverse()])
}

/// Whether two ranges are equal.
pub(crate) fn equality(out: &mut String, one: &Range, other: &Range) -> Written {
    let equal = one == other;
    are_alike(!equal || one.set_count() == other.set_count())?;
    put_truth(out, equal, &[other == one, hash_of(one) == hash_of(other)])
}
