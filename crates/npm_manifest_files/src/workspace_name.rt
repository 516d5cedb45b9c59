//! The name of a workspace.
ghost use Rattle.std.specs.Prelude.{◌≡◌, ◌++◌, IfOk, codes, string_bytes};
ghost use Rattle.serde_json.specs.View.{view};
ghost use Rattle.npm_manifest_files.specs.Paths.{above_part, last_part};
ghost use Rattle.npm_manifest_files.specs.WorkspaceName as WorkspaceName;
ghost use Rattle.npm_manifest_files.specs.WorkspaceName.{workspace_name};

use serde_json::Value;
use std::alloc::{AllocError, Global};

/// Returns the name of the workspace with this manifest, at this path: the manifest's, or else the folder's.
pub fn name_of(alloc: Global, manifest: &Value, path: &str) -> Result<String, AllocError>
    ensures { IfOk result (λ name. string_bytes name ≡ workspace_name (view manifest.now) path.now) }
{
    match manifest.get("name").and_then(Value::as_str) {
        Some(name) if !name.is_empty() => String::from_str(alloc, name),
        _ => folder_name(alloc, path),
    }
}

/// The name of a folder, after that of the folder above if that is a scope.
fn folder_name(alloc: Global, path: &str) -> Result<String, AllocError>
    ensures { IfOk result (λ name. string_bytes name ≡ WorkspaceName.folder_name path.now) }
{
    let (above, base) = cut(path);
    let (_, scope) = cut(above);
    if !scope.starts_with("@") {
        return String::from_str(alloc, base);
    }
    let mut name = String::from_str(alloc, scope)?;
    name.push_str("/")?;
    name.push_str(base)?;
    Ok(name)
}

/// What comes before the last `/` of a path, and what comes after it.
fn cut(path: &str) -> (&str, &str)
    ensures above { result.0.now ≡ above_part path.now }
    ensures last { result.1.now ≡ last_part path.now }
{
    match path.rsplit_once("/") {
        Some((above, last)) => (above, last),
        None => ("", path),
    }
}
