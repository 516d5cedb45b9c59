//! The version with the highest rank.
ghost use Rattle.std.specs.Prelude.{◌≡◌, IfOk, option_map};
ghost use Rattle.serde_json.specs.View.{members_view, view};
ghost use Rattle.npm_pick.specs.Packument.{candidates_of, releases_among, releases_in};
ghost use Rattle.npm_pick.specs.Private.Comparing.{IsBestWith, IsBetter};
ghost use Rattle.npm_pick.specs.Ranking.{IsBestOrNone, IsRead};

use crate::Result;
use crate::member::versions_of;
use crate::rank::asked::Asked;
use crate::rank::{Rank, rank_of};
use serde_json::{Map, Value};
use std::alloc::Global;

/// A version of a document, and its rank.
#[derive(Drop)]
pub(crate) struct Found<'v> {
    pub(crate) key: &'v str,
    pub(crate) manifest: &'v Value,
    pub(crate) rank: Rank<'v>,
}

/// The first version with the highest rank.
pub(crate) fn best_of<'v>(alloc: Global, asked: &Asked<'v, '_>) -> Result<Option<Found<'v>>>
    requires { IsRead asked.now }
    ensures { IfOk result (IsBestOrNone (view asked.now.packument.now) asked.now.options.now asked.now.range.now
        (candidates_of asked.now.options.now.include_staged (view asked.now.packument.now))) }
{
    let best = best_in(alloc, asked, None, versions_of(asked.packument))?;
    let best = best_in(alloc, asked, best, asked.staged)?;
    best_in(alloc, asked, best, asked.restricted)
}

/// The first version with the highest rank of those before and those of a list.
fn best_in<'v>(
    alloc: Global,
    asked: &Asked<'v, '_>,
    best: Option<Found<'v>>,
    listed: Option<&'v Map<String, Value>>,
) -> Result<Option<Found<'v>>>
    requires { IsRead asked.now }
    ensures { IfOk result (IsBestWith (view asked.now.packument.now) asked.now.options.now asked.now.range.now best.entry
        (releases_in (option_map (λ members. members_view members.now.entries) listed.entry))) }
{
    match listed {
        Some(versions) => best_among(alloc, asked, best, versions),
        None => Ok(best),
    }
}

fn best_among<'v>(
    alloc: Global,
    asked: &Asked<'v, '_>,
    mut best: Option<Found<'v>>,
    versions: &'v Map<String, Value>,
) -> Result<Option<Found<'v>>>
    requires { IsRead asked.now }
    ensures { IfOk result (IsBestWith (view asked.now.packument.now) asked.now.options.now asked.now.range.now best.entry
        (releases_among (members_view versions.now.entries))) }
{
    for (key, manifest) in versions.iter() {
        let key = key.as_str();
        if let Some(rank) = rank_of(alloc, asked, key, manifest)? {
            let next = Found {
                key,
                manifest,
                rank,
            };
            best = Some(better(best, next));
        }
    }
    Ok(best)
}

/// The other one if its rank is higher.
fn better<'v>(best: Option<Found<'v>>, next: Found<'v>) -> Found<'v>
    ensures { IsBetter best.entry next.entry result }
{
    match best {
        Some(best) if best.rank.compare(&next.rank).is_ge() => best,
        _ => next,
    }
}
