//! Packages in the `node_modules` of a root.
ghost use Rattle.std.specs.Prelude.{◌≡◌, map, option_map};
ghost use Rattle.npm_resolve.specs.Installed as Installs;
ghost use Rattle.npm_resolve.specs.Installed.{installed_value};

use serde_json::Value;

/// A package in the `node_modules` of a root.
#[derive(Clone, Copy, Drop)]
pub struct Installed<'v> {
    /// The name that it is installed under.
    pub name: &'v str,
    /// The name of the package in the registry. It is another one for an alias.
    pub package: &'v str,
    /// The version, as it is written in the document.
    pub version: &'v str,
    /// What the document says of the version.
    pub manifest: &'v Value,
}

/// Returns the package that is installed under a name: the last one that is given.
pub(crate) fn found<'v>(installed: &[Installed<'v>], name: &str) -> Option<Installed<'v>>
    ensures { option_map installed_value result ≡ Installs.found (map installed_value installed.now) name.now }
{
    let mut last = None;
    for one in installed {
        last = later_found(last, *one, name);
    }
    last
}

/// The package, if it has this name, or else the one before it.
fn later_found<'v>(
    before: Option<Installed<'v>>,
    one: Installed<'v>,
    name: &str,
) -> Option<Installed<'v>>
    ensures { option_map installed_value result
        ≡ Installs.later_found (option_map installed_value before.entry) (installed_value one.entry) name.now }
{
    if one.name == name { Some(one) } else { before }
}
