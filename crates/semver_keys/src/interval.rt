//! The intervals of a range.
ghost use Rattle.std.specs.Prelude.{◌≡◌, ◌≤◌, ◌++◌, IfOk, OnOk, length, map};
ghost use Rattle.std.specs.List.{AllByRecursion};
ghost use Rattle.semver_sets.specs.Meaning.{RangeAdmits, RangeContains};
ghost use Rattle.semver_keys.specs.Intervals.{AreFew, AreInOrder, AreIntervalsOf, AreIntervalsOfBoth};
ghost use Rattle.semver_keys.specs.Private.SpanIntervals.{HasSpanWords, interval_of};

mod opened;

use crate::cut::cut_key;
use node_semver::{Range, Version};
use opened::opened_parts;
use semver_cuts::laws::merged_spans_are_fixed_by_their_cuts;
use semver_cuts::{Span, join};
use std::alloc::{AllocError, Global};
use std::marker::Model;

/// The keys from `lower` up to but not including `upper`.
///
/// A key is a byte string, and byte strings are compared as databases compare them: the first byte that differs decides,
/// and a string is greater than each of its beginnings.
#[derive(Debug, Drop)]
pub struct KeyInterval {
    /// The least key in the interval, or a key that is less than each of them.
    pub lower: Vec<u8>,
    /// Greater than each key in the interval.
    pub upper: Vec<u8>,
    /// Which versions are meant: prereleases if `true`, releases if `false`.
    pub prereleases: bool,
}

impl Model for KeyInterval {
    ghost use Rattle.semver_keys.specs.Intervals.{IntervalValue};

    ghost Value = { IntervalValue };

    ghost view = { λ i. record { lower = i.lower.items; upper = i.upper.items; prereleases = i.prereleases } };
}

/// Returns the intervals of a range. A release satisfies the range exactly if its key lies in an interval with
/// `prereleases` false, and a prerelease exactly if its key lies in one with `prereleases` true.
///
/// The intervals for releases come first. Those of each kind ascend, and no two of them touch. There are at most as many
/// for releases as the range has sets, and at most twice as many for prereleases.
///
/// # Errors
///
/// Returns `AllocError` if an allocation fails.
///
/// # Memory
///
/// Allocates the intervals, and copies of the sets while it runs.
///
/// # Examples
///
/// `^1.2.3` has one interval: releases from the key of `1.2.3` up to that of `2.0.0-0`. `^1.2.3-rc.4` has two: releases
/// from the key of `1.2.3-rc.4` up to that of `2.0.0-0`, and prereleases from the key of `1.2.3-rc.4` up to that of
/// `1.2.3`.
pub fn range_intervals(alloc: Global, range: &Range) -> Result<Vec<KeyInterval>, AllocError>
    ensures meant { IfOk result (λ intervals. AreIntervalsOf (RangeAdmits range.now) intervals.items) }
    ensures few { IfOk result (λ intervals. AreFew (length range.now) intervals.items) }
{
    merged_spans_are_fixed_by_their_cuts::<Version>();
    let sets = range.sets(alloc)?;
    let parts = join(alloc, opened_parts(alloc, &sets)?)?;
    let spans = join(alloc, sets)?;
    let mut intervals = Vec::with_capacity(alloc, spans.len())?;
    add_intervals(&mut intervals, &spans, false)?;
    add_intervals(&mut intervals, &parts, true)?;
    Ok(intervals)
}

/// Returns the intervals of a range with prereleases included. A version, release or prerelease, lies inside
/// a set of the range exactly if its key lies in one of the intervals.
///
/// `prereleases` is true in each of them, and releases are meant too. The intervals ascend, and no two of them touch. There
/// are at most as many as the range has sets.
///
/// # Errors
///
/// Returns `AllocError` if an allocation fails.
///
/// # Memory
///
/// Allocates the intervals, and copies of the sets while it runs.
///
/// # Examples
///
/// `^1.2.3` has one interval, from the key of `1.2.3` up to that of `2.0.0-0`. The key of `1.2.4-rc.6` lies in it.
pub fn range_intervals_with_prereleases(
    alloc: Global,
    range: &Range,
) -> Result<Vec<KeyInterval>, AllocError>
    ensures meant { IfOk result (λ intervals. AreIntervalsOfBoth (RangeContains range.now) intervals.items) }
    ensures few { IfOk result (λ intervals. AreInOrder intervals.items × (length intervals.items ≤ length range.now)) }
{
    merged_spans_are_fixed_by_their_cuts::<Version>();
    let spans = join(alloc, range.sets(alloc)?)?;
    let mut intervals = Vec::with_capacity(alloc, spans.len())?;
    add_intervals(&mut intervals, &spans, true)?;
    Ok(intervals)
}

// Appends the intervals of these spans.
fn add_intervals(
    intervals: &mut Vec<KeyInterval>,
    spans: &[Span<Version>],
    prereleases: bool,
) -> Result<(), AllocError>
    ensures added { OnOk result (intervals.new.items ≡ intervals.old.items ++ map (interval_of prereleases) spans.now) }
    ensures words { OnOk result (AllByRecursion HasSpanWords spans.now) }
{
    let alloc = *intervals.allocator();
    'spans: for span in spans {
        intervals.push(interval(alloc, span, prereleases)?)?;
    }
    Ok(())
}

// The interval of a span.
fn interval(
    alloc: Global,
    span: &Span<Version>,
    prereleases: bool,
) -> Result<KeyInterval, AllocError>
    ensures interval { IfOk result (λ interval. interval ≡ interval_of prereleases span.now) }
    ensures words { OnOk result (HasSpanWords span.now) }
{
    let (lower, upper) = span.ends();
    Ok(KeyInterval {
        lower: cut_key(alloc, lower)?,
        upper: cut_key(alloc, upper)?,
        prereleases,
    })
}
