//! Which dependencies a package has in its own archive.
ghost use Rattle.std.specs.Prelude.{◌≡◌, is_some, option_and_then, codes};
ghost use Rattle.serde_json.specs.Find.{get};
ghost use Rattle.serde_json.specs.View.{view, items_view};
ghost use Rattle.npm_overrides.specs.Bundled as Bundling;

use serde_json::Value;

/// Returns `true` if the archive of a package has the dependency on a name inside, as `bundleDependencies` says.
pub(crate) fn is_bundled(manifest: &Value, name: &str) -> bool
    ensures { result ≡ Bundling.is_bundled (view manifest.now) name.now }
{
    match manifest.get("bundleDependencies") {
        Some(bundle) => is_bundled_by(manifest, name, bundle),
        None => false,
    }
}

/// The same by the member `bundleDependencies`.
fn is_bundled_by(manifest: &Value, name: &str, bundle: &Value) -> bool
    ensures { result ≡ Bundling.is_bundled_by (view manifest.now) name.now (view bundle.now) }
{
    match bundle {
        Value::Bool(all) => *all && has_dependency(manifest, name),
        Value::Array(names) => has_name(names, name),
        Value::String(one) => one.as_str() == name,
        Value::Null | Value::Number(_) | Value::Object(_) => false,
    }
}

/// Returns `true` if `dependencies` have the name.
fn has_dependency(manifest: &Value, name: &str) -> bool
    ensures { result ≡ is_some (option_and_then (get name.now) (get (codes "dependencies") (view manifest.now))) }
{
    match manifest.get("dependencies") {
        Some(group) => group.get(name).is_some(),
        None => false,
    }
}

/// Returns `true` if a list has the name.
fn has_name(names: &[Value], name: &str) -> bool
    ensures { result ≡ Bundling.has_name name.now (items_view names.now) }
{
    for one in names {
        if one.as_str() == Some(name) {
            return true;
        }
    }
    false
}
