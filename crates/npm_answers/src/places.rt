//! Places in JSON texts: the offset, line and column of each.
use crate::Call;
use crate::written::{end_list, put, put_item};
use json_places::{Path, Place, Step, chosen_places, places_of};
use named_calls::members::{items_of, number_in, number_of};
use named_calls::words::{text_at, value_at};
use named_calls::{CallError, Written, list_of};
use npm_lock_findings::ShownPlace;
use serde_json::Value;
use std::alloc::{AllocError, Global};

/// Of paths and a text. Between them is the number of subjects, where places are chosen.
pub(crate) fn answer(call: &Call<'_>, out: &mut String) -> Written {
    let (alloc, text) = (call.alloc, text_at(call, 1));
    match call.name {
        "ShownPlace::of_file" => put(out, &ShownPlace::of_file(alloc)),
        "ShownPlace::of_path" => {
            let path = path_of(alloc, value_at(call, 0)?)?;
            put(out, &ShownPlace::of_path(alloc, text, path)?)
        }
        "json_places::places_of" => {
            for place in &places_of(alloc, text, &paths_of(alloc, value_at(call, 0)?)?)? {
                push_place(out, *place)?;
            }
            end_list(out)
        }
        "json_places::chosen_places" => {
            let count = number_of(value_at(call, 1)?).unwrap_or(0);
            let paths = paths_of(alloc, value_at(call, 0)?)?;
            for place in &chosen_places(alloc, text_at(call, 2), &paths, count)? {
                push_place(out, Some(*place))?;
            }
            end_list(out)
        }
        _ => Err(CallError::Words),
    }
}

fn push_place(out: &mut String, place: Option<Place>) -> Result<(), AllocError> {
    match place {
        Some(place) => write!(out, "{} {} {}\t", place.offset, place.line, place.column),
        None => put_item(out, &"none"),
    }
}

/// The paths of a list: each is the list of its names and positions, or an object with these as `steps`, `subject` and `rank`.
fn paths_of(alloc: Global, list: &Value) -> Result<Vec<Path<'_>>, AllocError> {
    let paths = items_of(list);
    Ok(list_of!(alloc, paths, path => path_of(alloc, path)?))
}

fn path_of(alloc: Global, path: &Value) -> Result<Path<'_>, AllocError> {
    let items = items_of(path.get("steps").unwrap_or(path));
    let steps = list_of!(alloc, items, item => step_of(item));
    Ok(Path {
        steps,
        subject: number_in(path, "subject"),
        rank: number_in(path, "rank"),
    })
}

fn step_of(item: &Value) -> Step<'_> {
    match item.as_str() {
        Some(name) => Step::Member(name),
        None => Step::Item(number_of(item).unwrap_or(0)),
    }
}
