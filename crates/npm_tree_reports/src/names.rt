//! Names under which packages can stand in folders.

use npm_texts::{are_tag_bytes, rest_after};
use npm_trees::Place;

/// Returns `true` if each place but the root's has a name that npm lets a package have. Another one, as `../a`, would lead out of its folder.
pub(crate) fn are_named(places: &[Place<'_>]) -> bool {
    for place in places.iter().skip(1) {
        if !is_package_name(place.name) {
            return false;
        }
    }
    true
}

/// Returns `true` for a name, or a scope and a name.
fn is_package_name(name: &str) -> bool {
    match rest_after(name, "@") {
        Some(scoped) => match scoped.split_once('/') {
            Some((scope, name)) => is_part(scope) && is_part(name),
            None => false,
        },
        None => is_part(name) && name != "node_modules",
    }
}

/// Returns `true` for a scope or a name.
fn is_part(text: &str) -> bool {
    !text.is_empty() && !text.starts_with(".") && are_tag_bytes(text)
}
