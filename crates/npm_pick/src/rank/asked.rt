//! The ranges that versions are ranked by.
ghost use Rattle.std.specs.Prelude.{◌≡◌, ◌↔◌, IfOk, IsTrue, codes, option_map};
ghost use Rattle.serde_json.specs.View.{view};
ghost use Rattle.node_semver.specs.RangeAlgebra.{sets_of_answer};
ghost use Rattle.node_semver.specs.Ranges.{RangeContains};
ghost use Rattle.npm_pick.specs.Rank as Ranks;
ghost use Rattle.npm_pick.specs.Ranking.{IsRead, IsAvoidRead};

use crate::Result;
use crate::options::Options;
use node_semver::{Range, VersionRef};
use npm_semver::NpmOptions;
use npm_texts::{OF_ENGINES, is_true, range_of};
use serde_json::{Map, Value};
use std::alloc::Global;

/// The range and the options that the versions of a document are ranked by.
#[derive(Drop)]
pub(crate) struct Asked<'v, 'o> {
    pub(crate) packument: &'v Value,
    pub(crate) options: &'o Options<'o>,
    /// The text of the range.
    pub(crate) range: &'o str,
    pub(crate) wanted: Range,
    /// `None` if no version is avoided.
    pub(crate) avoid: Option<Range>,
    /// The staged versions, with `include_staged`.
    pub(crate) staged: Option<&'v Map<String, Value>>,
    /// The versions that a policy restricts.
    pub(crate) restricted: Option<&'v Map<String, Value>>,
}

impl<'v, 'o> Asked<'v, 'o> {
    /// Returns `true` if the version should be avoided.
    pub(crate) fn avoids(&self, version: &VersionRef<'_>) -> bool
        requires { IsRead self.now }
        ensures { IsTrue result ↔ Ranks.IsAvoided (option_map (λ text. text.now) self.now.options.now.avoid) version.now }
    {
        is_in(&self.avoid, version)
    }

    /// Returns `true` if the versions of Node and npm fit the manifest.
    pub(crate) fn fits(&self, alloc: Global, manifest: &Value) -> Result<bool>
        ensures { IfOk result (λ fits. IsTrue fits ↔ Ranks.FitsEngines self.now.options.now (view manifest.now)) }
    {
        Ok(
            fits(alloc, &self.options.node, engine_of(manifest, "node"))?
                && fits(alloc, &self.options.npm, engine_of(manifest, "npm"))?,
        )
    }
}

/// Returns what the `engines` of a manifest ask of an engine: `>=18` of `{"engines": {"node": ">=18"}}`. Does not allocate.
pub fn engine_of<'v>(manifest: &'v Value, engine: &str) -> Option<&'v Value>
    ensures { option_map (λ asked. view asked.now) result ≡ Ranks.engine_of (view manifest.now) engine.now }
{
    manifest.get("engines")?.get(engine)
}

/// Returns `true` if this version of an engine fits, or if it is not known or not asked for.
fn fits(alloc: Global, version: &Option<VersionRef<'_>>, asked: Option<&Value>) -> Result<bool>
    ensures { IfOk result (λ fits. IsTrue fits
        ↔ Ranks.Fits version.now (option_map (λ value. view value.now) asked.entry)) }
{
    match (version, asked) {
        (Some(version), Some(asked)) => is_engine_for(alloc, version, asked),
        _ => Ok(true),
    }
}

/// Returns `true` if a range of `engines` admits this version of the engine. What JavaScript counts as false admits each version, and
/// any other value that is no text, or no range, admits none.
///
/// # Errors
///
/// An allocation failed.
///
/// # Memory
///
/// Allocates the range while it runs.
///
/// # Examples
///
/// `>=18` admits 20.11.1 and not 16.20.2.
pub fn is_engine_for(alloc: Global, version: &VersionRef<'_>, asked: &Value) -> Result<bool>
    ensures { IfOk result (λ fits. IsTrue fits ↔ Ranks.IsEngineFor version.now (view asked.now)) }
{
    if !is_true(asked) {
        return Ok(true);
    }
    let Some(text) = asked.as_str() else {
        return Ok(false);
    };
    match range_of(alloc, text, OF_ENGINES)? {
        Some(range) => Ok(range.contains(version)),
        None => Ok(false),
    }
}

/// Returns `true` if the version lies inside the range, if there is one.
pub(crate) fn is_in(range: &Option<Range>, version: &VersionRef<'_>) -> bool
    ensures { IsTrue result ↔ RangeContains (sets_of_answer range.now) version.now }
{
    match range {
        Some(range) => range.contains(version),
        None => false,
    }
}

/// The range of the versions to avoid.
pub(crate) fn avoided(alloc: Global, text: Option<&str>) -> Result<Option<Range>>
    ensures { IfOk result (IsAvoidRead (option_map (λ text. text.now) text.entry)) }
{
    match text {
        Some(text) => range_of(alloc, text, OF_AVOIDED),
        None => Ok(None),
    }
}

/// How npm reads the range of the versions to avoid.
const OF_AVOIDED: NpmOptions = NpmOptions {
    loose: true,
    include_prerelease: true,
};
