//! An installed package that is hit, as a JSON object.

use crate::found::Found;
use crate::{About, Result};
use node_semver::Version;
use npm_texts::put_text;
use serde_json::{Map, Value, put};
use std::alloc::Global;

impl<'f, 'v> Found<'f, 'v> {
    /// The package as a JSON object, whose members are in the order of their names.
    pub fn to_json(&self, alloc: Global) -> Result<Value> {
        let mut members = Map::new(alloc);
        put_text(&mut members, alloc, "folder", self.folder)?;
        put_text(&mut members, alloc, "name", self.name)?;
        put_some(&mut members, alloc, "version", self.version)?;
        let hits = Value::Array(hits_json(alloc, &self.hits)?);
        put(&mut members, alloc, "advisories", hits)?;
        put_version(&mut members, alloc, "least", self.least.as_ref())?;
        put_version(&mut members, alloc, "admitted", self.admitted.as_ref())?;
        Ok(Value::Object(members))
    }
}

/// The list of hits.
fn hits_json(alloc: Global, hits: &[About<'_>]) -> Result<Vec<Value>> {
    let mut values = Vec::with_capacity(alloc, hits.len())?;
    for about in hits {
        values.push(about_json(alloc, *about)?)?;
    }
    Ok(values)
}

/// What an advisory says of itself.
fn about_json(alloc: Global, about: About<'_>) -> Result<Value> {
    let mut members = Map::new(alloc);
    put(&mut members, alloc, "id", about.id.clone()?)?;
    put_text(&mut members, alloc, "severity", about.severity.as_str())?;
    put_some(&mut members, alloc, "title", about.title)?;
    put_some(&mut members, alloc, "url", about.url)?;
    Ok(Value::Object(members))
}

/// Adds a member whose value is a text, if there is one.
fn put_some(
    members: &mut Map<String, Value>,
    alloc: Global,
    key: &str,
    text: Option<&str>,
) -> Result<()> {
    match text {
        Some(text) => put_text(members, alloc, key, text),
        None => Ok(()),
    }
}

/// Adds a member whose value is the text of a version, if there is one.
fn put_version(
    members: &mut Map<String, Value>,
    alloc: Global,
    key: &str,
    version: Option<&Version>,
) -> Result<()> {
    match version {
        Some(version) => {
            let text = version.to_string(alloc)?;
            put_text(members, alloc, key, text.as_str())
        }
        None => Ok(()),
    }
}
