//! Exports that give the sets of a range, and that make a range of sets.
ghost use Rattle.std.specs.Prelude.{◌≡◌, IfOk, MatchOption, None, Some, length};
ghost use Rattle.std.specs.List.{slice_get};
ghost use Rattle.node_semver_c.specs.Answers.{IsFound};
ghost use Rattle.node_semver_c.specs.Sets.{AreNoRange, AreSetsGiven, IsCutGiven, IsCutWritten, IsEmptySet};
ghost use Rattle.node_semver_c.specs.Sets.{IsNoCut, IsNoSet, IsRangeOf, IsRangeWith, IsSetGiven};
ghost use Rattle.node_semver_c.specs.Sets.{IsSetReported, value_in};

use crate::handle::range::{RangeHandle, RangeRef};
use crate::handle::set::{AFTER, BEFORE, CutHandle, CutRef, END, START, SetHandle, SetRef};
use crate::handle::version::VersionHandle;
use crate::status::{NONE, OK, OUT_OF_MEMORY, keep_range_found};
use node_semver::{Range, Version};
use semver_cuts::{Cut, Span};
use std::alloc::{AllocError, Global};

/// `Range::set_count`.
#[unsafe(no_mangle)]
pub extern "C" fn node_semver_range_set_count(range: &RangeRef) -> usize
    ensures { result ≡ length range.now.value }
{
    range.get().set_count()
}

/// `Range::set`: writes the kinds of both cuts, and puts their versions into the handles.
#[unsafe(no_mangle)]
pub extern "C" fn node_semver_range_set(
    alloc: Global,
    range: &RangeRef,
    place: usize,
    set: &mut SetHandle,
) -> u32
    requires empty { IsEmptySet set.old }
    ensures { IsSetReported (slice_get range.now.value place) result set.new }
{
    set_at(alloc, range.get(), place, set)
}

fn set_at(alloc: Global, range: &Range, place: usize, set: &mut SetHandle) -> u32
    requires { IsEmptySet set.old }
    ensures { IsSetReported (slice_get range.now place) result set.new }
{
    match range.set(alloc, place) {
        Ok(Some(span)) => keep_set(alloc, &span, set),
        Ok(None) => NONE,
        Err(_) => OUT_OF_MEMORY,
    }
}

// Writes a set, if there is memory for its versions.
fn keep_set(alloc: Global, span: &Span<Version>, set: &mut SetHandle) -> u32
    requires { IsEmptySet set.old }
    ensures { IsSetReported (Some span.now) result set.new }
{
    let (lower, upper) = span.ends();
    let Ok((lower_kind, lower)) = kept(alloc, lower) else {
        return OUT_OF_MEMORY;
    };
    let Ok((upper_kind, upper)) = kept(alloc, upper) else {
        free(alloc, lower);
        return OUT_OF_MEMORY;
    };
    write(lower_kind, lower, &mut set.lower);
    write(upper_kind, upper, &mut set.upper);
    OK
}

// The kind of a cut, and a handle of a copy of its version.
fn kept(alloc: Global, cut: &Cut<Version>) -> Result<(u32, Option<VersionHandle>), AllocError>
    ensures { IfOk result (λ kept. IsCutWritten cut.now kept.0 (value_in kept.1)) }
{
    match cut {
        Cut::Start => Ok((START, None)),
        Cut::Before(version) => Ok((BEFORE, Some(copy_of(alloc, version)?))),
        Cut::After(version) => Ok((AFTER, Some(copy_of(alloc, version)?))),
        Cut::End => Ok((END, None)),
    }
}

fn copy_of(alloc: Global, version: &Version) -> Result<VersionHandle, AllocError>
    ensures { IfOk result (λ handle. handle.value ≡ Some version.now) }
{
    VersionHandle::on_heap(alloc, version.clone()?)
}

fn free(alloc: Global, held: Option<VersionHandle>) {
    if let Some(version) = held {
        version.free(alloc);
    }
}

fn write(kind: u32, held: Option<VersionHandle>, cut: &mut CutHandle)
    requires { cut.old.version.value ≡ None }
    ensures kind { cut.new.kind ≡ kind }
    ensures version { cut.new.version.value ≡ value_in held }
{
    cut.kind = kind;
    if let Some(version) = held {
        cut.version = version;
    }
}

/// `npm_semver::range_from_sets`, of sets whose kinds and versions C gives. Also returns `NONE` if a kind is not known, or if a
/// handle that is needed is empty.
#[unsafe(no_mangle)]
pub extern "C" fn node_semver_range_from_sets(
    alloc: Global,
    sets: &[SetRef],
    answer: &mut RangeHandle,
) -> u32
    requires empty { answer.old.value ≡ None }
    ensures { IsFound (IsRangeOf sets.now) result answer.new.value }
{
    match spans_of(alloc, sets) {
        Ok(Some(spans)) => made(alloc, spans, answer),
        Ok(None) => NONE,
        Err(_) => OUT_OF_MEMORY,
    }
}

fn made(alloc: Global, spans: Vec<Span<Version>>, answer: &mut RangeHandle) -> u32
    requires { answer.old.value ≡ None }
    ensures { IsFound (IsRangeWith spans.items) result answer.new.value }
{
    match npm_semver::range_from_sets(alloc, &spans) {
        Ok(found) => keep_range_found(alloc, found, answer),
        Err(_) => OUT_OF_MEMORY,
    }
}

// The sets as spans, or `None` if one of them is none.
fn spans_of(alloc: Global, sets: &[SetRef]) -> Result<Option<Vec<Span<Version>>>, AllocError>
    ensures { IfOk result (λ answer. MatchOption answer (AreNoRange sets.now)
        (λ spans. AreSetsGiven sets.now spans.items)) }
{
    let mut spans = Vec::with_capacity(alloc, sets.len())?;
    'sets: for set in sets {
        let Some(span) = span_of(set)? else {
            return Ok(None);
        };
        spans.push(span)?;
    }
    Ok(Some(spans))
}

fn span_of(set: &SetRef) -> Result<Option<Span<Version>>, AllocError>
    ensures { IfOk result (λ answer. MatchOption answer (IsNoSet set.now) (λ span. IsSetGiven set.now span)) }
{
    let lower = cut_of(&set.lower)?;
    let upper = cut_of(&set.upper)?;
    match (lower, upper) {
        (Some(lower), Some(upper)) => Ok(Span::new(lower, upper)),
        _ => Ok(None),
    }
}

// The cut, with a copy of its version.
fn cut_of(cut: &CutRef) -> Result<Option<Cut<Version>>, AllocError>
    ensures { IfOk result (λ answer. MatchOption answer (IsNoCut cut.now) (λ c. IsCutGiven cut.now c)) }
{
    match (cut.kind, cut.version.get()) {
        (START, _) => Ok(Some(Cut::Start)),
        (BEFORE, Some(version)) => Ok(Some(Cut::Before(version.clone()?))),
        (AFTER, Some(version)) => Ok(Some(Cut::After(version.clone()?))),
        (END, _) => Ok(Some(Cut::End)),
        _ => Ok(None),
    }
}
