//! Which of two versions is picked.
ghost use Rattle.std.specs.Prelude.{◌≡◌, ◌↔◌, IfNone, IfOk, IfSome, IsTrue, option_map, string_bytes};
ghost use Rattle.serde_json.specs.View.{view};
ghost use Rattle.npm_pick.specs.Packument.{Release};
ghost use Rattle.npm_pick.specs.Rank as Ranks;
ghost use Rattle.npm_pick.specs.Ranking.{IsRead, rank_value};

pub(crate) mod asked;
pub(crate) mod best;

use crate::Result;
use crate::member::is_listed;
use crate::rank::asked::Asked;
use crate::time::is_published;
use node_semver::{OrderedVersion, VersionRef};
use npm_texts::{has_true, installed_version};
use serde_json::Value;
use std::alloc::Global;
use std::cmp::Ordering;

/// The rank of a version.
#[derive(Drop)]
pub(crate) struct Rank<'v> {
    pub(crate) is_avoided: bool,
    pub(crate) is_restricted: bool,
    pub(crate) is_staged: bool,
    pub(crate) is_deprecated: bool,
    /// The versions of Node and npm fit its `engines`.
    pub(crate) fits: bool,
    pub(crate) version: VersionRef<'v>,
}

impl<'v> Rank<'v> {
    /// Compares two ranks. The version with the greater rank is picked.
    pub(crate) fn compare(&self, other: &Rank<'v>) -> Ordering
        ensures { result ≡ Ranks.rank_cmp (rank_value self.now) (rank_value other.now) }
    {
        let version = self.version.cmp_version(&other.version);
        let lasting = (!self.is_deprecated).cmp(&!other.is_deprecated);
        let fits = self.fits.cmp(&other.fits);
        let sound = self.is_sound().cmp(&other.is_sound());
        let whole = (!self.is_staged).cmp(&!other.is_staged);
        let allowed = (!self.is_restricted).cmp(&!other.is_restricted);
        let kept = (!self.is_avoided).cmp(&!other.is_avoided);
        kept.then(allowed.then(whole.then(sound.then(fits.then(lasting.then(version))))))
    }

    fn is_sound(&self) -> bool
        ensures { result ≡ Ranks.is_sound (rank_value self.now) }
    {
        !self.is_deprecated && self.fits
    }
}

/// The rank of a version of the document, or `None` if it cannot be picked for the range.
pub(crate) fn rank_of<'v>(
    alloc: Global,
    asked: &Asked<'_, '_>,
    key: &'v str,
    manifest: &Value,
) -> Result<Option<Rank<'v>>>
    requires { IsRead asked.now }
    ensures found { IfOk result (λ found. IfSome found (λ rank. Ranks.IsRankOf (view asked.now.packument.now)
        asked.now.options.now asked.now.range.now (record { key = key.now; manifest = view manifest.now })
        (rank_value rank))) }
    ensures none { IfOk result (λ found. IfNone found ((rank : Ranks.Rank) → ¬ Ranks.IsRankOf
        (view asked.now.packument.now) asked.now.options.now asked.now.range.now
        (record { key = key.now; manifest = view manifest.now }) rank)) }
{
    let Some(version) = installed_version(key) else {
        return Ok(None);
    };
    if !asked.wanted.satisfies(&version)
        || !is_published(asked.packument, asked.options.before, key)
    {
        return Ok(None);
    }
    let fits = asked.fits(alloc, manifest)?;
    Ok(Some(Rank {
        is_avoided: asked.avoids(&version),
        is_restricted: is_listed(asked.restricted, key),
        is_staged: is_listed(asked.staged, key),
        is_deprecated: has_true(manifest, "deprecated"),
        fits,
        version,
    }))
}
