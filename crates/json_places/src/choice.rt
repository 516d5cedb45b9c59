//! For each subject the place of the path that it prefers.
ghost use Rattle.std.specs.Prelude.{IfOk};
ghost use Rattle.json_places.specs.Places.{AreChoices, ArePlacesOf, IsChoice};

use crate::path::Path;
use crate::place::Place;
use crate::search::places_of;
use std::alloc::{AllocError, Global};

/// Returns the place of each subject from 0 up to `count`: that of the path with the lowest rank that leads to a value, of those for
/// the subject, or else the beginning of the text. The paths have to be sorted. The text is read once.
///
/// # Errors
///
/// An allocation failed.
pub fn chosen_places(
    alloc: Global,
    text: &str,
    paths: &[Path<'_>],
    count: usize,
) -> Result<Vec<Place>, AllocError>
    ensures { IfOk result (λ places. AreChoices text.now paths.now count places.items) }
{
    let found = places_of(alloc, text, paths)?;
    let best = best_paths(alloc, paths, &found, count)?;
    placed(alloc, text, paths, &found, &best, count)
}

/// The place of each subject.
fn placed(
    alloc: Global,
    text: &str,
    paths: &[Path<'_>],
    found: &[Option<Place>],
    best: &[Option<usize>],
    count: usize,
) -> Result<Vec<Place>, AllocError>
    requires { ArePlacesOf text.now paths.now found.now }
    ensures { IfOk result (λ places. AreChoices text.now paths.now count places.items) }
{
    let mut places = Vec::new(alloc);
    for subject in 0..count {
        let index = best.get(subject).copied().flatten();
        places.push(place_at(text, paths, found, index, subject))?;
    }
    Ok(places)
}

/// The place of the path at an index, if that path is for the subject, or else the beginning of the text.
fn place_at(
    _text: &str,
    paths: &[Path<'_>],
    found: &[Option<Place>],
    index: Option<usize>,
    subject: usize,
) -> Place
    requires { ArePlacesOf _text.now paths.now found.now }
    ensures { IsChoice _text.now paths.now subject result }
{
    let Some(index) = index else {
        return Place::START;
    };
    let Some(path) = paths.get(index) else {
        return Place::START;
    };
    let Some(Some(place)) = found.get(index) else {
        return Place::START;
    };
    if path.subject == subject {
        *place
    } else {
        Place::START
    }
}

/// The index of the path that each subject prefers, of those that are found.
fn best_paths(
    alloc: Global,
    paths: &[Path<'_>],
    found: &[Option<Place>],
    count: usize,
) -> Result<Vec<Option<usize>>, AllocError> {
    let mut best = vec![in alloc; None; count]?;
    for (index, path) in paths.iter().enumerate() {
        if let Some(Some(_)) = found.get(index)
            && let Some(own) = best.get_mut(path.subject)
            && is_preferred(paths, *own, path.rank)
        {
            *own = Some(index);
        }
    }
    Ok(best)
}

/// Whether a path of this rank is preferred to the one at this index.
fn is_preferred(paths: &[Path<'_>], index: Option<usize>, rank: usize) -> bool {
    match index.and_then(|index| paths.get(index)) {
        Some(path) => rank < path.rank,
        None => true,
    }
}
