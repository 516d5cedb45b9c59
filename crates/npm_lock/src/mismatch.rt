//! A name whose spec is not the same in a manifest and in the lock file, and its JSON object.

use crate::Result;
use crate::group::Group;
use crate::json::{Member, object_of};
use serde_json::Value;
use std::alloc::Global;

/// A name whose spec in a group of the manifest is not the one in the lock file.
#[derive(Debug, PartialEq, Eq, Drop)]
pub struct Mismatch {
    /// The folder of the manifest, `""` for the root.
    pub from: String,
    pub group: Group,
    /// The name of the dependency.
    pub name: String,
    /// The spec in the manifest, if the name is in its group.
    pub spec: Option<String>,
    /// What the lock file has, if the name is in its group.
    pub locked: Option<String>,
}

impl Mismatch {
    /// The mismatch as a JSON object, whose members are in the order of their names.
    pub fn to_json(&self, alloc: Global) -> Result<Value> {
        let members = [
            Member::Text("from", self.from.as_str()),
            Member::Text("group", self.group.as_str()),
            Member::TextIfAny("locked", self.locked.as_ref()),
            Member::Text("name", self.name.as_str()),
            Member::Text("problem", "group"),
            Member::TextIfAny("spec", self.spec.as_ref()),
        ];
        object_of(alloc, &members)
    }
}
