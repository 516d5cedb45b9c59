//! The order of versions with their builds.
//!
//! See docs/DECISIONS.md, "The order of versions is defined twice".
ghost use Rattle.std.specs.Prelude.{◌≡◌};
ghost use Rattle.semver_versions.specs.BuildOrder.{BuildOrderMeans, version_build_cmp};

use node_semver::Version;
use semver_texts::identifier::order::cmp_lists;
use std::cmp::Ordering;

/// Returns the order with builds: that of `cmp`, and for versions that `cmp` finds equal, that of their builds.
///
/// Builds are compared identifier by identifier, as prereleases are, but no build is less than every build. This
/// order is total. It is `Equal` exactly if all five fields are equal.
///
/// # Memory
///
/// Does not allocate.
///
/// # Examples
///
/// `1.0.0` is less than `1.0.0+1`, which is less than `1.0.0+2`, which is less than `1.0.0+a`. `1.0.0+a` is less
/// than `1.0.1`.
///
/// # Source
///
/// npm's `semver`, `compareBuild`.
#[inline]
#[tactic(auto, using(semver_versions::specs::Lemmas::Public::version_build_order))]
pub fn compare_build(one: &Version, other: &Version) -> Ordering
    ensures answer { result ≡ version_build_cmp one.now other.now }
    ensures order { BuildOrderMeans one.now other.now result }
{
    match one.cmp(other) {
        Ordering::Equal => cmp_lists(&one.build, &other.build),
        order => order,
    }
}
