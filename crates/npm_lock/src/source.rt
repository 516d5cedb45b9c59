//! What is suspicious in where a package comes from, and its JSON object.
ghost use Rattle.std.specs.Prelude.{◌≡◌, IfOk};
ghost use Rattle.npm_lock.specs.Origins.{origin_value};
ghost use Rattle.npm_lock.specs.Sources as Sources;
ghost use Rattle.npm_lock.specs.Sources.{source_value};

use crate::Result;
use crate::json::{Member, object_of};
use crate::origin::Origin;
use npm_texts::copied;
use serde_json::Value;
use std::alloc::Global;

/// What is suspicious in where a package comes from.
#[derive(Clone, Copy, Debug, PartialEq, Eq, Drop)]
pub enum SourceKind {
    /// The address is that of another version than the one that the file says, and npm installs what is at the address.
    OtherVersion,
    /// The address is that of another package, by the path in a registry or by the name of the file.
    OtherPackage,
    /// The address is asked without encryption: `http:`, `git:` and `git+http:`.
    Insecure,
    /// The address is below none of the registries that were given.
    OtherHost,
    /// npm downloads the package, and the file has no `integrity` to compare it with.
    NoIntegrity,
}

impl SourceKind {
    /// The word for it, as the JSON object has it.
    pub fn as_str(self) -> &'static str {
        match self {
            SourceKind::OtherVersion => "other-version",
            SourceKind::OtherPackage => "other-package",
            SourceKind::Insecure => "insecure",
            SourceKind::OtherHost => "other-host",
            SourceKind::NoIntegrity => "no-integrity",
        }
    }
}

/// Something suspicious in where a package comes from.
#[derive(Debug, PartialEq, Eq, Drop)]
pub struct Source {
    pub kind: SourceKind,
    /// The folder of the package.
    pub folder: String,
    /// The version that the file says.
    pub version: Option<String>,
    /// Where npm looks for the package, if the file says so.
    pub resolved: Option<String>,
}

impl Source {
    /// What is suspicious of a package.
    pub(crate) fn of(alloc: Global, origin: Origin<'_>, kind: SourceKind) -> Result<Source>
        ensures { IfOk result (λ source. source_value source ≡ Sources.source_of (origin_value origin.entry) kind) }
    {
        Ok(Source {
            kind,
            folder: String::from_str(alloc, origin.folder)?,
            version: copied(alloc, origin.version)?,
            resolved: copied(alloc, origin.address)?,
        })
    }

    /// The finding as a JSON object, whose members are in the order of their names.
    pub fn to_json(&self, alloc: Global) -> Result<Value> {
        let members = [
            Member::Text("folder", self.folder.as_str()),
            Member::Text("problem", "source"),
            Member::TextIfAny("resolved", self.resolved.as_ref()),
            Member::Text("source", self.kind.as_str()),
            Member::TextIfAny("version", self.version.as_ref()),
        ];
        object_of(alloc, &members)
    }
}
