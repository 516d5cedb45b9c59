//! Which package a dependency asks for.
ghost use Rattle.std.specs.Prelude.{◌≡◌, ◌↔◌, IsTrue, option_map};
ghost use Rattle.npm_trees.specs.Reaching as Reaching;
ghost use Rattle.npm_trees.specs.Reaching.{AsksFor};

use crate::tree::{Ask, Document, Place, Stands};
use npm_texts::registry_spec;

/// Returns the name in the registry of the package in a place.
fn own_name<'d>(documents: &[Document<'d>], stands: Stands<'_>) -> Option<&'d str>
    ensures { option_map (λ name. name.now) result ≡ Reaching.own_name documents.now stands.entry }
{
    match stands {
        Stands::Package { document, .. } => match documents.get(document) {
            Some(found) => Some(found.name),
            None => None,
        },
        Stands::Top { .. } | Stands::Link { .. } => None,
    }
}

/// Returns the same, where a link has that of its target.
fn package_of<'d>(
    places: &[Place<'_>],
    documents: &[Document<'d>],
    number: usize,
) -> Option<&'d str>
    ensures { option_map (λ name. name.now) result ≡ Reaching.package_of places.now documents.now number }
{
    let place = places.get(number)?;
    match place.stands {
        Stands::Link { to } => match places.get(to) {
            Some(target) => own_name(documents, target.stands),
            None => None,
        },
        stands => own_name(documents, stands),
    }
}

/// Returns `true` if a dependency asks for the very package in a place.
pub(crate) fn asks_for(
    places: &[Place<'_>],
    documents: &[Document<'_>],
    ask: &Ask<'_>,
    number: usize,
) -> bool
    ensures { IsTrue result ↔ AsksFor places.now documents.now ask.now number }
{
    match (
        registry_spec(ask.name, ask.spec),
        package_of(places, documents, number),
    ) {
        (Some(request), Some(name)) => name == request.name,
        _ => false,
    }
}
