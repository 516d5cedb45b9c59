//! The parts of a version: `1.2.3-alpha,=1+=5` are the numbers 1, 2 and 3, a prerelease of the text `alpha` and the number
//! 1, and a build of the number 5. Each text of an identifier may be written so, but for `,` and `+`.
use node_semver::{Identifier, Version};
use std::alloc::{AllocError, Global};

/// The version of these parts.
pub(crate) fn version_of(alloc: Global, text: &str) -> Option<Version> {
    let (text, build) = divided(text, '+');
    let (numbers, prerelease) = divided(text, '-');
    let (major, rest) = numbers.split_once('.')?;
    let (minor, patch) = rest.split_once('.')?;
    let (major, minor, patch) = (number_of(major)?, number_of(minor)?, number_of(patch)?);
    let mut version = Version::new(alloc, major, minor, patch);
    push_identifiers(alloc, &mut version.pre_release, prerelease)?;
    push_identifiers(alloc, &mut version.build, build)?;
    Some(version)
}

/// The text before the first mark and the text after it, if the mark is there.
fn divided(text: &str, mark: char) -> (&str, Option<&str>) {
    match text.split_once(mark) {
        Some((text, rest)) => (text, Some(rest)),
        None => (text, None),
    }
}

pub(crate) fn number_of(digits: &str) -> Option<u64> {
    digits.parse::<u64>().ok()
}

fn push_identifiers(alloc: Global, list: &mut Vec<Identifier>, words: Option<&str>) -> Option<()> {
    let Some(words) = words else {
        return Some(());
    };
    for word in words.split(',') {
        list.push(identifier_of(alloc, word).ok()?).ok()?;
    }
    Some(())
}

/// The identifier of a word: of `=7` the number 7, and of another word that text.
pub(crate) fn identifier_of(alloc: Global, word: &str) -> Result<Identifier, AllocError> {
    match word.strip_prefix('=').and_then(number_of) {
        Some(number) => Ok(Identifier::Numeric(number)),
        None => Ok(Identifier::AlphaNumeric(String::from_str(alloc, word)?)),
    }
}

/// Appends the parts of a version.
pub(crate) fn push(out: &mut String, version: &Version) -> Result<(), AllocError> {
    let (major, minor, patch) = (version.major, version.minor, version.patch);
    write!(out, "{major}.{minor}.{patch}")?;
    push_list(out, "-", &version.pre_release)?;
    push_list(out, "+", &version.build)
}

fn push_list(out: &mut String, mark: &str, identifiers: &[Identifier]) -> Result<(), AllocError> {
    let mut mark = mark;
    for identifier in identifiers {
        match identifier {
            Identifier::Numeric(number) => write!(out, "{mark}={number}")?,
            Identifier::AlphaNumeric(text) => write!(out, "{mark}{text}")?,
        }
        mark = ",";
    }
    Ok(())
}
