//! The spans between the marks of a range.
ghost use Rattle.std.specs.Prelude.{◌≡◌, ◌↔◌, ◌⊎◌, ◌++◌, IfOk, IsTrue, List, OnOk};
ghost use Rattle.std.specs.Option.{MatchOption};
ghost use Rattle.std.specs.List.{Contains};
ghost use Rattle.semver_cuts.specs.Ends.{Ends, IsCutAtMost, IsCutBelow};
ghost use Rattle.semver_cuts.specs.declared.cut.Cut.TheVariants.{After, Before, End};
ghost use Rattle.node_semver.specs.Ranges.{IsRangeCut};
ghost use Rattle.node_semver.specs.Versions.{VersionValue, version_cmp};
ghost use Rattle.npm_advisories.specs.OsvRanges.{IsBeforeLimits, IsDoubtful, IsReachedBefore};
ghost use Rattle.npm_advisories.specs.Lemmas.Spans.{Have};
ghost use Rattle.npm_advisories.specs.Private.OsvReading.{AreInOrder, HasRangeCuts, IsBetweenMarks, IsFrom, IsFromStart};
ghost use Rattle.npm_advisories.specs.Private.OsvReading.{IsNextEnd, IsUpTo, AreSorted};

use crate::Result;
use crate::osv::marks::Marks;
use node_semver::Version;
use semver_cuts::{Cut, Span};
use std::alloc::Global;

/// The spans of the versions that are affected.
pub(crate) fn spans_of_marks(alloc: Global, marks: Marks) -> Result<Vec<Span<Version>>>
    requires { HasRangeCuts marks }
    ensures { IfOk result (λ spans. Have spans.items (IsBetweenMarks marks)) }
{
    spans_between(alloc, &marks.sorted()?)
}

/// The same of marks that are in order.
fn spans_between(alloc: Global, marks: &Marks) -> Result<Vec<Span<Version>>>
    requires cuts { HasRangeCuts marks.now }
    requires sorted { AreInOrder marks.now }
    ensures { IfOk result (λ spans. Have spans.items (IsBetweenMarks marks.now)) }
{
    let last = Cut::End;
    let limit = limit_of(&marks.limits, &last);
    let mut spans = Vec::new(alloc);
    for start in &marks.starts {
        add_spans(&mut spans, marks, start, limit)?;
    }
    Ok(spans)
}

/// The greatest limit, or this one if there is none.
fn limit_of<'c>(limits: &'c [Cut<Version>], last: &'c Cut<Version>) -> &'c Cut<Version>
    requires { AreSorted limits.now × (last.now ≡ End) }
    ensures { IsUpTo limits.now result.now }
{
    match limits {
        [.., greatest] => greatest,
        [] => last,
    }
}

/// Adds the spans of the versions for which a fault begins that is introduced at this cut.
fn add_spans(
    spans: &mut Vec<Span<Version>>,
    marks: &Marks,
    start: &Cut<Version>,
    limit: &Cut<Version>,
) -> Result<()>
    requires cuts { HasRangeCuts marks.now }
    requires sorted { AreInOrder marks.now }
    requires start { Contains marks.now.starts.items start.now }
    requires limit { IsUpTo marks.now.limits.items limit.now }
    ensures { OnOk result ((more : List (Ends VersionValue)) × (spans.new.items ≡ spans.old.items ++ more)
        × Have more (IsFromStart marks.now start.now)) }
{
    let last = Cut::End;
    let end = next_end(&marks.ends, start, &last);
    add_span(spans, start, end, limit)?;
    match doubtful_end(marks, start, end)? {
        Some(again) => {
            let end = next_end(&marks.ends, &again, &last);
            add_span(spans, &again, end, limit)
        }
        None => Ok(()),
    }
}

/// Adds the span from a cut to the next end, as far as it is before the limit.
fn add_span(
    spans: &mut Vec<Span<Version>>,
    from: &Cut<Version>,
    end: &Cut<Version>,
    limit: &Cut<Version>,
) -> Result<()>
    requires { IsRangeCut from.now × IsRangeCut end.now × IsRangeCut limit.now }
    ensures { OnOk result ((more : List (Ends VersionValue)) × (spans.new.items ≡ spans.old.items ++ more)
        × Have more (λ v. IsCutAtMost version_cmp from.now (Before v) × IsCutBelow version_cmp (Before v) end.now
        × IsCutBelow version_cmp (Before v) limit.now)) }
{
    let upper = lesser(end, limit);
    if *from < *upper {
        spans.push(Span::between(copy_of(from)?, copy_of(upper)?))?;
    }
    Ok(())
}

fn lesser<'c>(end: &'c Cut<Version>, limit: &'c Cut<Version>) -> &'c Cut<Version>
    ensures { ((result.now ≡ limit.now) × IsCutBelow version_cmp limit.now end.now)
        ⊎ ((result.now ≡ end.now) × IsCutAtMost version_cmp end.now limit.now) }
{
    if *limit < *end { limit } else { end }
}

/// The cut behind the version where a fault is introduced, if its end is doubtful. The end is the next one.
fn doubtful_end(
    marks: &Marks,
    start: &Cut<Version>,
    end: &Cut<Version>,
) -> Result<Option<Cut<Version>>>
    requires sorted { AreInOrder marks.now }
    requires start { Contains marks.now.starts.items start.now }
    requires end { IsNextEnd (Contains marks.now.ends.items) start.now end.now }
    ensures { IfOk result (λ again. MatchOption again
        ((v : VersionValue) → start.now ≡ Before v
        → ¬ IsDoubtful (Contains marks.now.starts.items) (Contains marks.now.ends.items) v)
        (λ cut. (v : VersionValue) × (start.now ≡ Before v) × (cut ≡ After v)
        × IsDoubtful (Contains marks.now.starts.items) (Contains marks.now.ends.items) v)) }
{
    match start {
        Cut::Before(version) if is_up_to(end, version) && is_reached(marks, start) => {
            Ok(Some(Cut::After(version.clone()?)))
        }
        _ => Ok(None),
    }
}

/// Returns `true` if a cut is not after the one behind a version.
fn is_up_to(cut: &Cut<Version>, version: &Version) -> bool
    ensures { IsTrue result ↔ IsCutAtMost version_cmp cut.now (After version.now) }
{
    match cut {
        Cut::Start => true,
        Cut::Before(other) | Cut::After(other) => *other <= *version,
        Cut::End => false,
    }
}

/// Returns `true` if a fault that is introduced before this cut lasts until it.
fn is_reached(marks: &Marks, cut: &Cut<Version>) -> bool
    requires sorted { AreInOrder marks.now }
    requires cut { IsCutBelow version_cmp cut.now End }
    ensures { IsTrue result
        ↔ IsReachedBefore (Contains marks.now.starts.items) (Contains marks.now.ends.items) cut.now }
{
    let starts: &[Cut<Version>] = &marks.starts;
    let place = starts.partition_point(|start| *start < *cut);
    if place == 0 {
        return false;
    }
    let last = Cut::End;
    *cut < *next_end(&marks.ends, &starts[place - 1], &last)
}

/// The least end after a cut, or this one if there is none.
fn next_end<'c>(
    ends: &'c [Cut<Version>],
    from: &Cut<Version>,
    last: &'c Cut<Version>,
) -> &'c Cut<Version>
    requires { AreSorted ends.now × (last.now ≡ End) }
    ensures { IsNextEnd (Contains ends.now) from.now result.now }
{
    let place = ends.partition_point(|end| *end <= *from);
    if place < ends.len() {
        &ends[place]
    } else {
        last
    }
}

fn copy_of(cut: &Cut<Version>) -> Result<Cut<Version>>
    ensures { IfOk result (λ copy. copy ≡ cut.now) }
{
    match cut {
        Cut::Start => Ok(Cut::Start),
        Cut::Before(version) => Ok(Cut::Before(version.clone()?)),
        Cut::After(version) => Ok(Cut::After(version.clone()?)),
        Cut::End => Ok(Cut::End),
    }
}
