//! What a dependency asks a registry for.
ghost use Rattle.std.specs.Prelude.{◌≡◌, Some, option_map};
ghost use Rattle.npm_texts.specs.RegistrySpec as RegistrySpecs;
ghost use Rattle.npm_texts.specs.SpecGrammar.{spec_value};
ghost use Rattle.npm_texts.specs.RegistrySpec.{registry_spec_value};

use crate::spec::{Spec, alias_of, alias_range, aliased, name_of_alias, plain_spec};
use crate::white::trimmed;

/// A package of a registry, and the version, the range or the tag of it that a dependency asks for.
#[derive(Clone, Copy, Debug, PartialEq, Eq, Drop)]
pub struct RegistrySpec<'t> {
    /// The name of the package in the registry.
    pub name: &'t str,
    /// The version, the range or the tag.
    pub text: &'t str,
}

/// Returns what a dependency asks a registry for, by its name and its spec. `None`: the spec is a URL, a repository, a file or a
/// folder, or an alias that npm refuses.
///
/// The empty spec is `*`. An alias has the name of the package that it stands for. White space at the ends of the text is left
/// out, as in npm's `fetchSpec`: a text of white space alone is empty.
///
/// # Memory
///
/// Does not allocate.
///
/// # Examples
///
/// For the name `a` the spec `^1` is the package `a` and the text `^1`, and `npm:b@^1` is the package `b` and the text `^1`.
/// `github:b/b` is `None`.
///
/// # Source
///
/// npm's "package.json", "dependencies", and `npm-package-arg`.
pub fn registry_spec<'t>(name: &'t str, spec: &'t str) -> Option<RegistrySpec<'t>>
    ensures { option_map registry_spec_value result ≡ RegistrySpecs.registry_spec name.now spec.now }
{
    match alias_of(spec) {
        Some(alias) => of_package(name_of_alias(alias)?, aliased(alias_range(alias))),
        None => of_package(name, plain_spec(spec)),
    }
}

/// The text of this package, if the spec has one.
fn of_package<'t>(name: &'t str, spec: Spec<'t>) -> Option<RegistrySpec<'t>>
    ensures { option_map registry_spec_value result ≡ RegistrySpecs.of_package (Some name.now) (spec_value spec.entry) }
{
    match spec {
        Spec::Text(text) => Some(RegistrySpec {
            name,
            text: trimmed(text),
        }),
        Spec::Location | Spec::Refused => None,
    }
}
