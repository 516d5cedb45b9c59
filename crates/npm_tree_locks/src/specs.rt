//! Groups of dependencies, as npm writes them.

use crate::Result;
use crate::collation::sort_key;
use crate::writer::Writer;
use npm_texts::has_true;
use serde_json::{Map, Value};
use std::alloc::Global;

/// A name, and bytes that sort as names do.
#[derive(PartialEq, Eq, PartialOrd, Ord, Drop)]
struct Named<'v> {
    order: Vec<u8>,
    name: &'v str,
}

/// Adds a group of dependencies in the order of their names. Optional ones are not written as others too.
pub(crate) fn put_specs(
    writer: &mut Writer,
    alloc: Global,
    manifest: &Value,
    group: &str,
    specs: &Map<String, Value>,
) -> Result<()> {
    let mut names = Vec::new(alloc);
    for (name, _) in specs.iter() {
        let name = name.as_str();
        if group != "dependencies" || !is_optional(manifest, name) {
            names.push(Named {
                order: sort_key(alloc, name)?,
                name,
            })?;
        }
    }
    if names.is_empty() {
        return Ok(());
    }
    names.sort()?;
    writer.key(group)?;
    writer.open()?;
    for named in &names {
        if let Some(spec) = specs.get(named.name) {
            writer.put_value(named.name, spec)?;
        }
    }
    writer.close()
}

fn is_optional(manifest: &Value, name: &str) -> bool {
    match manifest.get("optionalDependencies") {
        Some(optional) => has_true(optional, name),
        None => false,
    }
}
