//! Whether a tree has what its manifests ask for.
ghost use Rattle.std.specs.Prelude.{◌≡◌, All, IfOk, IfSome, IsTrue, List, map, option_map};
ghost use Rattle.serde_json.specs.View.{view};
ghost use Rattle.npm_overrides.specs.Asks.{ask_value};
ghost use Rattle.npm_overrides.specs.Rules.{rule_value};
ghost use Rattle.npm_overrides.specs.declared.asks.Ask.{Ask as AskOfManifest};
ghost use Rattle.npm_tree_reports.specs.Told as Told;
ghost use Rattle.npm_tree_reports.specs.Told.{AreTold, ArePlacesTold, IsAmong, IsAs, IsGiven, IsPlaceTold};
ghost use Rattle.npm_trees.specs.Places as Places;

use crate::Result;
use npm_overrides::{Owner, Rules, asks_of};
use npm_trees::{Ask, Document, Kind, Place, Stands, Tree, manifest_in};
use serde_json::Value;
use std::alloc::Global;

/// A dependency as a manifest and the rules of `overrides` have it.
type Given<'d> = npm_overrides::Ask<'d>;

/// Returns `true` if the dependencies of a tree are those of the manifests of its places, one place after the other, in the order of the
/// bytes of their names, by the rules of the root. The root asks for each workspace, in place of what it asks for by that name.
pub(crate) fn are_told<'d>(
    alloc: Global,
    documents: &[Document<'d>],
    tree: &Tree<'d>,
) -> Result<bool>
    ensures { IfOk result (λ is. IsTrue is → AreTold documents.now tree.now) }
{
    match root_of(documents, tree) {
        Some(root) => {
            let rules = Rules::read(alloc, root)?;
            are_places_told(alloc, documents, tree, &rules)
        }
        None => Ok(false),
    }
}

/// Returns `true` if the dependencies of a tree are those of its places by these rules.
fn are_places_told<'d>(
    alloc: Global,
    documents: &[Document<'d>],
    tree: &Tree<'d>,
    rules: &Rules<'d>,
) -> Result<bool>
    ensures { IfOk result (λ is. IsTrue is → ArePlacesTold documents.now tree.now (map rule_value rules.now.list.items)) }
{
    let places = tree.places.as_slice();
    let mut at = 0;
    for number in 0..places.len() {
        match after_place(alloc, documents, tree, rules, number, places[number], at)? {
            Some(next) => at = next,
            None => return Ok(false),
        }
    }
    Ok(after_workspaces(places, &tree.asks, places.len(), "", at) == tree.asks.len())
}

/// The manifest of the root.
fn root_of<'d>(documents: &[Document<'d>], tree: &Tree<'d>) -> Option<&'d Value>
    ensures { option_map (λ value. view value.now) result ≡ Told.root_in documents.now tree.now }
{
    match tree.places.as_slice().get(0) {
        Some(place) => manifest_of(documents, place.stands),
        None => None,
    }
}

/// The manifest of what stands in a place, unless it is a link.
fn manifest_of<'d>(documents: &[Document<'d>], stands: Stands<'d>) -> Option<&'d Value>
    ensures { option_map (λ value. view value.now) result ≡ Told.manifest_of documents.now stands.entry }
{
    match stands {
        Stands::Top { manifest, .. } => Some(manifest),
        Stands::Package { document, version } => manifest_in(documents, document, version),
        Stands::Link { .. } => None,
    }
}

/// Whose manifest that of a place is.
fn owner_of(number: usize, stands: Stands<'_>) -> Owner
    ensures { result ≡ Told.owner_of number stands.entry }
{
    match stands {
        Stands::Top { .. } => {
            if number == 0 {
                Owner::Root
            } else {
                Owner::Workspace
            }
        }
        Stands::Package { .. } | Stands::Link { .. } => Owner::Package,
    }
}

/// Returns where the dependencies of a place end that begin somewhere, or `None` if these are others.
fn after_place<'d>(
    alloc: Global,
    documents: &[Document<'d>],
    tree: &Tree<'d>,
    rules: &Rules<'d>,
    number: usize,
    place: Place<'d>,
    at: usize,
) -> Result<Option<usize>>
    ensures { IfOk result (λ found. IfSome found (λ _. IsPlaceTold documents.now tree.now (map rule_value rules.now.list.items) number
        place.entry)) }
{
    match manifest_of(documents, place.stands) {
        Some(manifest) => {
            let owner = owner_of(number, place.stands);
            let given = asks_of(alloc, rules, manifest, owner, place.rules, place.rules)?;
            Ok(after_given(&tree.places, &tree.asks, number, &given, at))
        }
        None => Ok(Some(at)),
    }
}

/// Returns where the dependencies end that begin somewhere and are given by a manifest, or `None` if these are others.
fn after_given(
    places: &[Place<'_>],
    asks: &[Ask<'_>],
    number: usize,
    given: &[Given<'_>],
    at: usize,
) -> Option<usize>
    ensures { IfSome result (λ _. All (λ (one : AskOfManifest). IsAmong places.now asks.now number (ask_value one)) given.now) }
{
    let mut at = at;
    for one in given {
        at = after_workspaces(places, asks, number, one.name, at);
        if !is_given_at(places, asks, number, *one, at) {
            return None;
        }
        at = at.saturating_add(1);
    }
    Some(at)
}

/// Returns where the root's dependencies on workspaces end that come before what a place asks for by a name. The root itself may ask for a
/// workspace by that name.
fn after_workspaces(
    places: &[Place<'_>],
    asks: &[Ask<'_>],
    number: usize,
    name: &str,
    from: usize,
) -> usize {
    for at in from..asks.len() {
        if let Some(ask) = asks.get(at) {
            if !is_of_workspace(places, ask) || number == 0 && ask.name == name {
                return at;
            }
        }
    }
    asks.len()
}

/// Returns `true` if the dependency in a place of the list is given by a manifest.
fn is_given_at(
    places: &[Place<'_>],
    asks: &[Ask<'_>],
    number: usize,
    given: Given<'_>,
    at: usize,
) -> bool
    ensures { IsTrue result → IsAmong places.now asks.now number (ask_value given.entry) }
{
    match asks.get(at) {
        Some(ask) => is_given(places, number, given, ask),
        None => false,
    }
}

/// Returns `true` if a dependency is given by a manifest.
fn is_given(places: &[Place<'_>], number: usize, given: Given<'_>, ask: &Ask<'_>) -> bool
    ensures { IsTrue result → IsGiven places.now number (ask_value given.entry) ask.now }
{
    if ask.from != number || ask.name != given.name {
        return false;
    }
    is_of_workspace(places, ask) || is_as(places, given, ask)
}

/// Returns `true` if the root asks for a workspace.
fn is_of_workspace(places: &[Place<'_>], ask: &Ask<'_>) -> bool
    ensures { result ≡ Told.is_of_workspace places.now ask.now }
{
    match ask.workspace {
        Some(number) => ask.from == 0 && is_top_at(places, number),
        None => false,
    }
}

/// Returns `true` for the root and for a workspace.
fn is_top_at(places: &[Place<'_>], number: usize) -> bool
    ensures { result ≡ Told.is_top_at places.now number }
{
    match places.get(number) {
        Some(place) => matches!(place.stands, Stands::Top { .. }),
        None => false,
    }
}

/// Returns `true` if a dependency is as a manifest has it.
fn is_as(places: &[Place<'_>], given: Given<'_>, ask: &Ask<'_>) -> bool
    ensures { IsTrue result → IsAs places.now (ask_value given.entry) ask.now }
{
    if ask.spec != given.spec || ask.kind != kind_of(given.kind) {
        return false;
    }
    if ask.bundled != given.bundled || ask.workspace.is_some() {
        return false;
    }
    ask.rules == given.rules || is_peer(places, ask)
}

/// Returns `true` for a peer of a package.
fn is_peer(places: &[Place<'_>], ask: &Ask<'_>) -> bool
    ensures { result ≡ Places.is_peer places.now ask.now }
{
    is_peer_kind(ask.kind) && is_package_at(places, ask.from)
}

fn is_peer_kind(kind: Kind) -> bool
    ensures { result ≡ Places.is_peer_kind kind }
{
    matches!(kind, Kind::Peer | Kind::OptionalPeer)
}

fn is_package_at(places: &[Place<'_>], number: usize) -> bool
    ensures { result ≡ Places.stands_package places.now number }
{
    match places.get(number) {
        Some(place) => matches!(place.stands, Stands::Package { .. }),
        None => false,
    }
}

/// The kind of a dependency.
fn kind_of(kind: npm_overrides::Kind) -> Kind
    ensures { result ≡ Told.kind_of kind }
{
    match kind {
        npm_overrides::Kind::Needed => Kind::Needed,
        npm_overrides::Kind::Dev => Kind::Dev,
        npm_overrides::Kind::Optional => Kind::Optional,
        npm_overrides::Kind::Peer => Kind::Peer,
        npm_overrides::Kind::OptionalPeer => Kind::OptionalPeer,
    }
}
