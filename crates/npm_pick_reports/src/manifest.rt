//! Manifests that are read.
ghost use Rattle.std.specs.Prelude.{◌≡◌, None, Some};
ghost use Rattle.std.specs.Result.{MatchResult};
ghost use Rattle.serde_json.specs.View.{view};
ghost use Rattle.npm_pick_reports.specs.Manifest.{manifest_fault};

use npm_packages::{Fault, check_package};
use serde_json::Value;

/// Returns the value if it is a manifest: an object, whose `version` and dependencies are strings where they are there.
pub fn checked_manifest(value: Value) -> Result<Value, Fault>
    ensures { MatchResult result (λ manifest. (manifest ≡ value) × (manifest_fault (view value) ≡ None))
        (λ fault. manifest_fault (view value) ≡ Some fault) }
{
    if !value.is_object() {
        return Err(Fault::Manifest);
    }
    match check_package(&value) {
        Ok(()) => Ok(value),
        Err(fault) => Err(fault),
    }
}
