//! Single places of a tree.
ghost use Rattle.std.specs.Prelude.{◌≡◌};
ghost use Rattle.npm_trees.specs.Places as Places;
ghost use Rattle.npm_trees.specs.Whole as Whole;

use crate::tree::{Ask, Kind, Place, Stands};

/// Returns the place in whose folder a place is.
pub(crate) fn up_of(places: &[Place<'_>], number: usize) -> Option<usize>
    ensures { result ≡ Places.up_of places.now number }
{
    match places.get(number) {
        Some(place) => place.up,
        None => None,
    }
}

pub(crate) fn is_top(stands: Stands<'_>) -> bool
    ensures { result ≡ Places.is_top stands.entry }
{
    matches!(stands, Stands::Top { .. })
}

pub(crate) fn is_package(stands: Stands<'_>) -> bool
    ensures { result ≡ Places.is_package stands.entry }
{
    matches!(stands, Stands::Package { .. })
}

fn is_link(stands: Stands<'_>) -> bool
    ensures { result ≡ Whole.is_link stands.entry }
{
    matches!(stands, Stands::Link { .. })
}

/// Returns `true` for a place that is there, and no link.
pub(crate) fn has_folder(places: &[Place<'_>], number: usize) -> bool
    ensures { result ≡ Whole.has_folder places.now number }
{
    match places.get(number) {
        Some(place) => !is_link(place.stands),
        None => false,
    }
}

/// Returns `true` for a package for which these rules count.
pub(crate) fn has_package(places: &[Place<'_>], number: usize, rules: usize) -> bool
    ensures { result ≡ Whole.has_package places.now number rules }
{
    match places.get(number) {
        Some(place) => is_package(place.stands) && place.rules == rules,
        None => false,
    }
}

fn is_peer_kind(kind: Kind) -> bool
    ensures { result ≡ Places.is_peer_kind kind }
{
    matches!(kind, Kind::Peer | Kind::OptionalPeer)
}

/// Returns `true` for a peer of a package.
pub(crate) fn is_peer(places: &[Place<'_>], ask: &Ask<'_>) -> bool
    ensures { result ≡ Places.is_peer places.now ask.now }
{
    is_peer_kind(ask.kind) && stands_package(places, ask.from)
}

fn stands_package(places: &[Place<'_>], number: usize) -> bool
    ensures { result ≡ Places.stands_package places.now number }
{
    match places.get(number) {
        Some(place) => is_package(place.stands),
        None => false,
    }
}

/// Returns the folder from which a dependency is looked up.
pub(crate) fn start_of(places: &[Place<'_>], ask: &Ask<'_>) -> usize
    ensures { result ≡ Places.start_of places.now ask.now }
{
    if is_peer(places, ask) {
        up_of(places, ask.from).unwrap_or(ask.from)
    } else {
        ask.from
    }
}
