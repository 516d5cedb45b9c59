//! Calls on one version and on two.
use crate::word::{text_at, version_at};
use crate::written::{are_alike, put, put_if_any, put_made, put_one_way};
use crate::{Call, orders, parts};
use named_calls::{CallError, Written};
use node_semver::{Identifier, Version};
use npm_semver::Bump::{Major, Minor, Patch, Pre, PreMajor, PreMinor, PrePatch, PreRelease};
use npm_semver::{Bump, BumpError, IdentifierBase, diff, inc};
use semver_cuts::Stepped;
use std::alloc::AllocError;

pub(crate) fn answer(call: &Call<'_>, out: &mut String) -> Written {
    let version = version_at(call, 0)?;
    match call.name {
        "Version::clone" => {
            copies_each(&version.pre_release)?;
            copies_each(&version.build)?;
            put_made(out, version.clone())
        }
        "Version::next" => {
            version.known();
            put_if_any(out, version.next(call.alloc))
        }
        "Version::to_json" => put_made(out, version.to_json(call.alloc)),
        "Version::fmt" => put_one_way(call.alloc, out, version),
        "Version::is_prerelease" => put(out, &version.is_prerelease()),
        "Version: its parts" => Ok(parts::push(out, version)?),
        "npm_semver::inc" => bumped(call, out, version),
        _ => of_two(call, out, version, version_at(call, 1)?),
    }
}

fn copies_each(identifiers: &[Identifier]) -> Written {
    for identifier in identifiers {
        are_alike(identifier.clone()? == *identifier)?;
    }
    Ok(())
}

fn of_two(call: &Call<'_>, out: &mut String, one: &Version, other: &Version) -> Written {
    let texts = [text_at(call, 0), text_at(call, 1)];
    match call.name {
        "Version::cmp" => orders::of_versions(out, one, other, texts),
        "npm_semver::compare_build" => orders::with_builds(out, one, other, texts),
        "npm_semver::diff" => {
            let word = word_of(diff(one, other));
            are_alike(word == word_of(diff(other, one)))?;
            Ok(out.push_str(word)?)
        }
        _ => Err(CallError::Words),
    }
}

/// Of npm's name of a bump, an identifier or the empty word, and a base or the empty word.
fn bumped(call: &Call<'_>, out: &mut String, version: &Version) -> Written {
    let (bump, base) = (bump_of(text_at(call, 1))?, text_at(call, 3));
    let identifier = match call.words.get(2) {
        Some(word) if !word.text.is_empty() => Some(&word.identifier),
        _ => None,
    };
    let base = match base {
        "0" => IdentifierBase::Zero,
        "1" => IdentifierBase::One,
        _ => IdentifierBase::Absent,
    };
    match &inc(call.alloc, version, bump, identifier, base) {
        Ok(version) => put(out, version),
        Err(BumpError::OutOfMemory) => Err(AllocError.into()),
        Err(error) => put(out, error),
    }
}

const BUMPS: [Bump; 8] = [
    Major, PreMajor, Minor, PreMinor, Patch, PrePatch, PreRelease, Pre,
];

fn bump_of(word: &str) -> Result<Bump, CallError> {
    for bump in &BUMPS {
        if word_of(Some(*bump)) == word {
            return Ok(*bump);
        }
    }
    Err(CallError::Words)
}

fn word_of(bump: Option<Bump>) -> &'static str {
    match bump {
        Some(Major) => "major",
        Some(PreMajor) => "premajor",
        Some(Minor) => "minor",
        Some(PreMinor) => "preminor",
        Some(Patch) => "patch",
        Some(PrePatch) => "prepatch",
        Some(PreRelease) => "prerelease",
        Some(Pre) => "pre",
        None => "nothing",
    }
}
