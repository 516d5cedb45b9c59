//! The least version, and from each version the next one.

ghost use Rattle.std.specs.Prelude.{◌≡◌, ◌↔◌, IfOk, IfSome, IsNone};
ghost use Rattle.std.specs.List.{AllByRecursion};
ghost use Rattle.semver_cuts.specs.Steps.{IsLeast, IsNext};
ghost use Rattle.semver_texts.specs.Comparison.{version_cmp};
ghost use Rattle.semver_texts.specs.Identifier.{value_of, values_of};
ghost use Rattle.semver_texts.specs.Version.{least_of};
ghost use Rattle.semver_versions.specs.VersionSteps.{HasGreatestPatch, IsIdentifier, IsVersion, next_version};

use crate::Version;
use semver_cuts::Stepped;
use semver_texts::Identifier;
use semver_texts::identifier::copy::copies_with_zero;
use std::alloc::{AllocError, Global};

/// The versions with any 64-bit numbers and any identifiers, in order. The least one is `0.0.0-0`.
///
/// The next version after a prerelease has one more identifier, the number 0. The next one after a release is the least
/// version with the next patch. Builds are ignored, and the results have none.
///
/// # Examples
///
/// After `1.2.3-rc` comes `1.2.3-rc.0`, and after `1.2.3` comes `1.2.4-0`. `0.0.18446744073709551615` has no next
/// version.
///
/// # Source
///
/// SemVer 2.0.0, section 11.
impl Stepped for Version {
    ghost is_value = { IsVersion };

    fn known(&self) {
        let _major = self.major;
        let _minor = self.minor;
        let _patch = self.patch;
        prove_identifiers(&self.pre_release);
        prove_identifiers(&self.build);
    }

    fn least(alloc: Global) -> Result<Version, AllocError>
        ensures least { IfOk result (IsLeast version_cmp IsVersion) }
        ensures answer { IfOk result (λ v. v ≡ least_of 0 0 0) }
    {
        Version::with_pre_release(alloc, 0, 0, 0, 0)
    }

    fn next(&self, alloc: Global) -> Result<Option<Version>, AllocError>
        ensures next { IsVersion self.now → IfOk result (λ next. IfSome next (IsNext version_cmp IsVersion self.now)) }
        ensures answer { IfOk result (λ next. IfSome next (λ v. v ≡ next_version self.now)) }
        ensures none { IfOk result (λ next. IsNone next ↔ HasGreatestPatch self.now) }
    {
        if self.is_prerelease() {
            let pre_release = copies_with_zero(alloc, &self.pre_release)?;
            return Ok(Some(Version {
                major: self.major,
                minor: self.minor,
                patch: self.patch,
                build: Vec::new(alloc),
                pre_release,
            }));
        }
        match self.patch.checked_add(1) {
            Some(patch) => Ok(Some(Version::with_pre_release(
                alloc, self.major, self.minor, patch, 0,
            )?)),
            None => Ok(None),
        }
    }
}

// Does nothing when it runs: its contract is that the elements of a list are identifiers.
fn prove_identifiers(identifiers: &[Identifier])
    ensures { AllByRecursion IsIdentifier (values_of identifiers.now) }
{
    'identifiers: for identifier in identifiers {
        prove_identifier(identifier);
    }
}

fn prove_identifier(identifier: &Identifier)
    ensures { IsIdentifier (value_of identifier.now) }
{
    match identifier {
        Identifier::Numeric(n) => {
            let _number = *n;
        }
        Identifier::AlphaNumeric(text) => {
            let _text = text.as_str();
        }
    }
}
