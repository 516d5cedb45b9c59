//! Of the places that were seen, those that count.
ghost use Rattle.std.specs.Prelude.{◌≡◌, IfOk, OnOk, Some, true};
ghost use Rattle.json_places.specs.Places.{ArePlacesOf};
ghost use Rattle.json_places.specs.Private.FirstPlaces.{ArePlacesOfFirst, HaveSameLast, IsPlaceOfPath};
ghost use Rattle.json_places.specs.Private.Searches.{AreSeen};
ghost use Rattle.json_places.specs.Steps.{last_step, step_value, steps_seen};
ghost use Rattle.json_places.specs.declared.path.Step.{Step};

use crate::path::{Path, Step, is_same_step};
use crate::place::Place;
use crate::step_at::is_step_at;
use crate::taken::{Taken, is_repeated};
use json::Scratch;
use std::alloc::{AllocError, Global};

/// Returns for each path the place that was seen last, if each step led into what the step before it led to last.
pub fn settled(
    alloc: Global,
    scratch: &mut Scratch,
    text: &str,
    paths: &[Path<'_>],
    seen: &[Option<Place>],
    taken: &Taken,
) -> Result<Vec<Option<Place>>, AllocError>
    requires { AreSeen text.now seen.now }
    ensures { IfOk result (λ found. ArePlacesOf text.now paths.now found.items) }
{
    let mut way = Vec::new(alloc);
    let mut found = Vec::new(alloc);
    for index in 0..paths.len() {
        taken.follow(&mut way, index)?;
        let place = if is_repeated(paths, index) {
            place_before(text, paths, &found, index)
        } else {
            place_at(
                scratch,
                text,
                paths,
                seen,
                index,
                way.last().copied().flatten(),
            )?
        };
        found.push(place)?;
    }
    Ok(found)
}

/// The place that was seen last for the path at an index, if its way leads there.
fn place_at(
    scratch: &mut Scratch,
    text: &str,
    paths: &[Path<'_>],
    seen: &[Option<Place>],
    index: usize,
    offset: Option<usize>,
) -> Result<Option<Place>, AllocError>
    requires { AreSeen text.now seen.now }
    ensures { IfOk result (IsPlaceOfPath text.now paths.now index) }
{
    let Some(path) = paths.get(index) else {
        return Ok(None);
    };
    let Some(Some(place)) = seen.get(index) else {
        return Ok(None);
    };
    let Some(step) = last_step(path) else {
        return Ok(None);
    };
    if offset == Some(place.offset) && is_step_at(scratch, text, place.offset, step)? {
        Ok(Some(*place))
    } else {
        Ok(None)
    }
}

/// The place of the path before the one at an index, if both have the same last step.
fn place_before(
    _text: &str,
    paths: &[Path<'_>],
    found: &[Option<Place>],
    index: usize,
) -> Option<Place>
    requires { ArePlacesOfFirst _text.now paths.now index found.now }
    ensures { IsPlaceOfPath _text.now paths.now index result }
{
    if index == 0 || !have_same_last(paths, index - 1, index) {
        return None;
    }
    match found.get(index - 1) {
        Some(Some(place)) => Some(*place),
        _ => None,
    }
}

/// Whether the paths at two indexes have the same last step.
fn have_same_last(paths: &[Path<'_>], one: usize, other: usize) -> bool
    ensures { result ≡ true → HaveSameLast paths.now one other }
{
    let Some(one) = paths.get(one) else {
        return false;
    };
    let Some(other) = paths.get(other) else {
        return false;
    };
    let Some(step) = last_step(one) else {
        return false;
    };
    match last_step(other) {
        Some(other) => is_same_step(step, other),
        None => false,
    }
}

/// The last step of a path.
fn last_step<'a>(path: &Path<'a>) -> Option<Step<'a>>
    ensures { (step : Step) → result ≡ Some step → last_step (steps_seen path.now.steps.items) ≡ Some (step_value step) }
{
    path.steps.last().copied()
}
