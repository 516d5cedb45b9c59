//! The members of a package in a lock file.

use crate::Result;
use crate::marks::Marks;
use crate::specs::put_specs;
use crate::writer::Writer;
use npm_texts::is_true;
use npm_trees::{Document, Place, Stands, manifest_in};
use serde_json::Value;
use std::alloc::Global;

/// What npm copies from a manifest beside `dependencies`, and the marks, in the order of the names.
const MEMBERS: [&str; 21] = [
    "acceptDependencies",
    "bin",
    "bundleDependencies",
    "cpu",
    "deprecated",
    "dev",
    "devDependencies",
    "devOptional",
    "engines",
    "funding",
    "hasInstallScript",
    "libc",
    "license",
    "link",
    "optional",
    "optionalDependencies",
    "os",
    "peer",
    "peerDependencies",
    "peerDependenciesMeta",
    "workspaces",
];

/// Adds the members of a place: as npm writes them, first where the package comes from, then what is no object, then objects.
pub(crate) fn put_members<'d>(
    writer: &mut Writer,
    alloc: Global,
    documents: &[Document<'d>],
    place: &Place<'d>,
    number: usize,
    marks: &Marks,
) -> Result<()> {
    match place.stands {
        Stands::Top { at, manifest } => {
            put_top(writer, at, manifest)?;
            put_plain(writer, alloc, manifest, place, number, marks)?;
            put_objects(writer, alloc, manifest, true)
        }
        Stands::Package { document, version } => {
            let name = name_of(documents, document, place.name);
            put_alias(writer, name, place.name)?;
            match manifest_in(documents, document, version) {
                Some(manifest) => {
                    put_package(writer, manifest, version)?;
                    put_plain(writer, alloc, manifest, place, number, marks)?;
                    put_objects(writer, alloc, manifest, false)
                }
                None => Ok(()),
            }
        }
        Stands::Link { .. } => Ok(()),
    }
}

/// Adds a link, with its marks.
pub(crate) fn put_link(
    writer: &mut Writer,
    folder: &str,
    number: usize,
    marks: &Marks,
) -> Result<()> {
    writer.put_text("resolved", folder)?;
    for name in MEMBERS {
        if name == "link" {
            writer.put_word(name, "true")?;
        } else {
            marks.put(writer, number, name)?;
        }
    }
    Ok(())
}

/// Adds what is no object, and the marks.
fn put_plain(
    writer: &mut Writer,
    alloc: Global,
    manifest: &Value,
    place: &Place<'_>,
    number: usize,
    marks: &Marks,
) -> Result<()> {
    for name in MEMBERS {
        if is_mark(name) {
            if place.up.is_some() {
                marks.put(writer, number, name)?;
            }
        } else {
            put_copy(writer, alloc, manifest, name, false)?;
        }
    }
    Ok(())
}

/// Adds objects, `dependencies` first. What is installed has no `devDependencies`.
fn put_objects(writer: &mut Writer, alloc: Global, manifest: &Value, is_top: bool) -> Result<()> {
    put_copy(writer, alloc, manifest, "dependencies", true)?;
    for name in MEMBERS {
        if !is_mark(name) && (is_top || name != "devDependencies") {
            put_copy(writer, alloc, manifest, name, true)?;
        }
    }
    Ok(())
}

/// Returns `true` for what a manifest does not say.
fn is_mark(name: &str) -> bool {
    match name {
        "dev" | "devOptional" | "link" | "optional" | "peer" => true,
        _ => false,
    }
}

/// The name of the package of a document.
fn name_of<'d>(documents: &[Document<'d>], document: usize, other: &'d str) -> &'d str {
    match documents.get(document) {
        Some(document) => document.name,
        None => other,
    }
}

/// Adds the name of a package that stands under another one.
fn put_alias(writer: &mut Writer, package: &str, name: &str) -> Result<()> {
    if package == name {
        Ok(())
    } else {
        writer.put_text("name", package)
    }
}

/// Adds the name and the version of the root or of a workspace.
fn put_top(writer: &mut Writer, at: &str, manifest: &Value) -> Result<()> {
    if let Some(name) = manifest.get("name") {
        if at.is_empty() || name.as_str() != Some(last_of(at)) {
            put_true(writer, "name", Some(name))?;
        }
    }
    put_true(writer, "version", manifest.get("version"))
}

/// Adds the version of a package, and where it comes from.
fn put_package(writer: &mut Writer, manifest: &Value, version: &str) -> Result<()> {
    writer.put_text("version", version)?;
    if let Some(dist) = manifest.get("dist") {
        put_true(writer, "resolved", dist.get("tarball"))?;
        put_true(writer, "integrity", dist.get("integrity"))?;
    }
    Ok(())
}

/// Adds a copy of a member, unless it is empty, if it is an object or if it is none.
fn put_copy(
    writer: &mut Writer,
    alloc: Global,
    manifest: &Value,
    key: &str,
    is_object: bool,
) -> Result<()> {
    let Some(value) = manifest.get(key) else {
        return Ok(());
    };
    match value {
        Value::Object(specs) if key.ends_with("ependencies") => {
            if is_object {
                put_specs(writer, alloc, manifest, key, specs)
            } else {
                Ok(())
            }
        }
        Value::Object(members) if members.is_empty() => Ok(()),
        Value::Array(items) if items.is_empty() => Ok(()),
        Value::Object(_) | Value::Array(_) => {
            let value = license_of(key, value);
            if value.is_object() == is_object {
                put_true(writer, key, Some(value))
            } else {
                Ok(())
            }
        }
        _ if is_object || key.ends_with("ependencies") => Ok(()),
        _ => put_true(writer, key, Some(value)),
    }
}

/// The licence of a manifest. Old manifests have an object with its `type`.
fn license_of<'v>(key: &str, value: &'v Value) -> &'v Value {
    if key != "license" {
        return value;
    }
    match value.get("type") {
        Some(kind) if is_true(kind) => kind,
        _ => value,
    }
}

/// Adds a member, if it counts as true.
fn put_true(writer: &mut Writer, key: &str, value: Option<&Value>) -> Result<()> {
    match value {
        Some(value) if is_true(value) => writer.put_value(key, value),
        _ => Ok(()),
    }
}

/// The last name of a path.
fn last_of(path: &str) -> &str {
    match path.rsplit_once('/') {
        Some((_, last)) => last,
        None => path,
    }
}
