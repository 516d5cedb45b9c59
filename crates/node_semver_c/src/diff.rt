//! By which bump two versions differ.
ghost use Rattle.std.specs.Prelude.{◌≡◌};
ghost use Rattle.node_semver_c.specs.Compared.{code_of_bump, code_of_difference};
ghost use Rattle.npm_semver.specs.BumpBetween.{bump_between};

use crate::handle::version::VersionRef;
use npm_semver::Bump;

/// `npm_semver::diff`: returns the code of the bump, from 1 in the order of `Bump`, or 0 if there is none.
#[unsafe(no_mangle)]
pub extern "C" fn node_semver_version_diff(one: &VersionRef, other: &VersionRef) -> u32
    ensures { result ≡ code_of_difference (bump_between one.now.value other.now.value) }
{
    match npm_semver::diff(one.get(), other.get()) {
        Some(bump) => code(bump),
        None => 0,
    }
}

fn code(bump: Bump) -> u32
    ensures { result ≡ code_of_bump bump }
{
    match bump {
        Bump::Major => 1,
        Bump::PreMajor => 2,
        Bump::Minor => 3,
        Bump::PreMinor => 4,
        Bump::Patch => 5,
        Bump::PrePatch => 6,
        Bump::PreRelease => 7,
        Bump::Pre => 8,
    }
}
