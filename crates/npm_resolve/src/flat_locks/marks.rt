//! Marks of packages: `dev`, `optional`, `devOptional` and `peer`.
ghost use Rattle.std.specs.Prelude.{◌≡◌, IfOk, map};
ghost use Rattle.serde_json.specs.View.{view};
ghost use Rattle.npm_resolve.specs.Installed.{installed_value};
ghost use Rattle.npm_resolve.specs.Private.Marking.{AreReaches, marks_in};

use crate::Result;
use crate::flat_locks::installed::Installed;
use crate::flat_locks::reached::{Groups, Reached, reached_from};
use serde_json::Value;
use std::alloc::Global;

/// Why a package is not installed everywhere: the marks of a lock file.
#[derive(Clone, Copy, Debug, PartialEq, Eq, Drop)]
pub struct Marks {
    pub dev: bool,
    pub optional: bool,
    pub dev_optional: bool,
    pub peer: bool,
}

/// The names that are reached without some groups of dependencies.
#[derive(Drop)]
pub(crate) struct Reaches {
    without_dev: Reached,
    without_optional: Reached,
    without_both: Reached,
    without_peers: Reached,
}

/// Returns the names that are reached without some groups of dependencies.
pub(crate) fn reaches_of(
    alloc: Global,
    root: &Value,
    installed: &[Installed<'_>],
) -> Result<Reaches>
    ensures { IfOk result (AreReaches (view root.now) (map installed_value installed.now)) }
{
    let all = Groups {
        dev: false,
        optional: false,
        peer: false,
    };
    let dev = Groups { dev: true, ..all };
    let optional = Groups {
        optional: true,
        ..all
    };
    let both = Groups {
        optional: true,
        ..dev
    };
    let peers = Groups { peer: true, ..all };
    Ok(Reaches {
        without_dev: reached_from(alloc, root, installed, dev)?,
        without_optional: reached_from(alloc, root, installed, optional)?,
        without_both: reached_from(alloc, root, installed, both)?,
        without_peers: reached_from(alloc, root, installed, peers)?,
    })
}

impl Reaches {
    /// Returns the marks of the package that is installed under a name.
    pub(crate) fn marks_of(&self, name: &str) -> Marks
        ensures { result ≡ marks_in self.now name.now }
    {
        let dev = !self.without_dev.has(name);
        let optional = !self.without_optional.has(name);
        Marks {
            dev,
            optional,
            dev_optional: !dev && !optional && !self.without_both.has(name),
            peer: !self.without_peers.has(name),
        }
    }
}
