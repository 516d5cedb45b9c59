//! Calls on numbers, JSON values, trees and sets, and those without arguments.
use crate::Call;
use crate::word::{number_at, text_at, version_of, word_at};
use crate::written::{put, put_ends, put_if_any, put_made, put_read_of_json, put_spans};
use named_calls::{CallError, Written, list_of};
use node_semver::{MAX_LENGTH, MAX_SAFE_INTEGER, Range, SetTree, Version};
use npm_semver::{NpmOptions, range_from_sets};
use semver_cuts::algebra::are_merged;
use semver_cuts::{Cut, Span, Stepped, covers, join};
use semver_keys::MAX_KEY_LENGTH;
use serde_json::Value;
use std::alloc::Global;

pub(crate) fn answer(call: &Call<'_>, out: &mut String) -> Written {
    let alloc = call.alloc;
    match call.name {
        "Version::least" => put_made(out, Version::least(alloc)),
        "Version::new" => {
            let (major, minor) = (number_at(call, 0)?, number_at(call, 1)?);
            put(out, &Version::new(alloc, major, minor, number_at(call, 2)?))
        }
        "Version::with_pre_release" => {
            let (major, minor) = (number_at(call, 0)?, number_at(call, 1)?);
            let (patch, number) = (number_at(call, 2)?, number_at(call, 3)?);
            let made = Version::with_pre_release(alloc, major, minor, patch, number);
            put_made(out, made)
        }
        "Version::from_json" => put_read_of_json(out, Version::from_json(alloc, json_of(call)?)),
        "Range::from_json" => put_read_of_json(out, Range::from_json(alloc, json_of(call)?)),
        "Range::any" => put_made(out, Range::any(alloc)),
        "SetTree::evaluate" => put_if_any(out, tree_of(call)?.evaluate(alloc)),
        "npm_semver::range_from_sets, from versions on" => {
            put_if_any(out, range_from_sets(alloc, &sets_from(call)?))
        }
        _ => of_spans(call, out),
    }
}

fn json_of<'c>(call: &'c Call<'c>) -> Result<&'c Value, CallError> {
    word_at(call, 0)?.value.as_ref().ok_or(CallError::Words)
}

/// The tree of range texts that the words write, with `Both` and `Without` after their two sides.
fn tree_of(call: &Call<'_>) -> Result<SetTree, CallError> {
    let mut trees = Vec::new(call.alloc);
    for word in call.words {
        let tree = match word.text.as_str() {
            "Both" => {
                let other = side(call.alloc, &mut trees)?;
                SetTree::Both(side(call.alloc, &mut trees)?, other)
            }
            "Without" => {
                let other = side(call.alloc, &mut trees)?;
                SetTree::Without(side(call.alloc, &mut trees)?, other)
            }
            text => SetTree::Text(String::from_str(call.alloc, text)?),
        };
        trees.push(tree)?;
    }
    trees.pop().ok_or(CallError::Words)
}

/// Takes the last tree.
fn side(alloc: Global, trees: &mut Vec<SetTree>) -> Result<Box<SetTree>, CallError> {
    Ok(Box::new(alloc, trees.pop().ok_or(CallError::Words)?)?)
}

/// For each version the set that begins before it and has no end.
fn sets_from(call: &Call<'_>) -> Result<Vec<Span<Version>>, CallError> {
    let words = call.words;
    Ok(list_of!(call.alloc, words, word => set_from(call.alloc, &word.text)?))
}

fn set_from(alloc: Global, text: &str) -> Result<Span<Version>, CallError> {
    let version = version_of(alloc, text).ok().ok_or(CallError::Words)?;
    Span::new(Cut::Before(version), Cut::End).ok_or(CallError::Words)
}

/// Calls on spans of numbers, and those without arguments.
fn of_spans(call: &Call<'_>, out: &mut String) -> Written {
    match call.name {
        "MAX_SAFE_INTEGER" => put(out, &MAX_SAFE_INTEGER),
        "MAX_LENGTH" => put(out, &MAX_LENGTH),
        "semver_keys::MAX_KEY_LENGTH" => put(out, &MAX_KEY_LENGTH),
        "NpmOptions::default" => {
            let options = NpmOptions::default();
            let (loose, wide) = (options.loose, options.include_prerelease);
            Ok(write!(out, "loose: {loose}, with prereleases: {wide}")?)
        }
        "semver_cuts::join" => {
            let pairs = 0..call.words.len() / 2;
            let spans = list_of!(call.alloc, pairs, pair => span_at(call, pair.saturating_mul(2))?);
            put_spans(out, &join(call.alloc, spans)?)
        }
        // (the intersection of two spans, both parts of the first that are outside the second, and whether each has the first number)
        "Span: all calls" => {
            let (one, other, number) = (span_at(call, 0)?, span_at(call, 2)?, number_at(call, 0)?);
            let (before, after) = one.rest(&other);
            for ends in [one.common(&other), before, after] {
                put_ends(out, ends)?;
                out.push_str("; ")?;
            }
            Ok(write!(out, "{} {}", one.contains(&number), other.contains(&number))?)
        }
        // (whether two spans that lie apart cover a third one, and whether this covers them)
        "semver_cuts::covers" => {
            let (spans, part) = ([span_at(call, 0)?, span_at(call, 2)?], [span_at(call, 4)?]);
            if are_merged(&spans) && are_merged(&part) {
                let (whole, rest) = (covers(&spans, &part), covers(&part, &spans));
                return Ok(write!(out, "{whole} {rest}")?);
            }
            Ok(out.push_str("they do not lie apart")?)
        }
        _ => Err(CallError::Words),
    }
}

/// The span from a number at a place to the next number, or without an end.
fn span_at(call: &Call<'_>, place: usize) -> Result<Span<u64>, CallError> {
    let next = place.saturating_add(1);
    let upper = match text_at(call, next) {
        "end" => Cut::End,
        _ => Cut::After(number_at(call, next)?),
    };
    Span::new(Cut::Before(number_at(call, place)?), upper).ok_or(CallError::Words)
}
