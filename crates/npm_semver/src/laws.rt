//! The laws of npm's calls. The functions here do nothing: the contract of each is a law.
ghost use Rattle.std.specs.Prelude.{◌≡◌, ℕ, [], List, Option};
ghost use Rattle.npm_semver.specs.Bump.{IsBumped, IsUpward};
ghost use Rattle.npm_semver.specs.BumpLaws.{DifferBy, NamesNumber, difference_after};
ghost use Rattle.npm_semver.specs.CoerceLaws.{PrintIsCoerced};
ghost use Rattle.npm_semver.specs.StrictLaws.{HasOneStrictFault, IsNeverStrictAndFaulty};
ghost use Rattle.npm_semver.specs.declared.bump.Bump.{Bump};
ghost use Rattle.npm_semver.specs.declared.bump.IdentifierBase.{IdentifierBase};
ghost use Rattle.semver_texts.specs.IdentifierValue.{IdentifierValue};
ghost use Rattle.semver_texts.specs.Order.{IsBelow};
ghost use Rattle.semver_texts.specs.Version.{VersionValue};

pub use npm_sets::laws::{partials_are_those_of_the_grammar, prints_are_read_back_by_npm};
pub use npm_sets::refused::a_refused_text_has_one_place;

/// A text has at most one strict fault, for which [`parse_version`](crate::parse_version) and
/// [`parse_version_ref`](crate::parse_version_ref) return an error, and a strict version text has none.
pub fn a_text_has_one_strict_fault()
    ensures only { (text : List ℕ) → HasOneStrictFault text }
    ensures never_both { (text : List ℕ) → IsNeverStrictAndFaulty text }
{}

/// A bumped version is greater than the version, but after `Pre`, and after `PreRelease` with an identifier.
pub fn a_bumped_version_is_greater()
    ensures { (bump : Bump) (identifier : Option IdentifierValue) (base : IdentifierBase) (v w : VersionValue) →
        IsUpward bump identifier → IsBumped bump identifier base v w → IsBelow v w }
{}

/// A version and its bumped version differ by the bump: npm's `diff` after `inc`.
///
/// After a bump that names one of the three numbers, a release and its bumped version differ by this very bump: `1.2.3`
/// and `1.3.0` by `Minor`, `1.2.3` and `1.3.0-0` by `PreMinor`. For a prerelease and for other bumps the second clause
/// says which bump it is: `2.0.0-rc.1` and `2.0.0` differ by `Major`, also after `Patch`.
pub fn a_bumped_version_differs_by_its_bump()
    ensures release { (bump : Bump) (identifier : Option IdentifierValue) (base : IdentifierBase) (v w : VersionValue) →
        NamesNumber bump → v.pre_release ≡ [] → IsBumped bump identifier base v w → DifferBy bump v w }
    ensures every { (bump : Bump) (identifier : Option IdentifierValue) (base : IdentifierBase) (v w : VersionValue) →
        IsBumped bump identifier base v w
        → DifferBy (difference_after bump v.pre_release v.minor v.patch) v w }
{}

/// From the print of a version, [`coerce`](crate::coerce) returns the release with its triple.
pub fn a_print_is_coerced_to_its_triple()
    ensures { (v : VersionValue) → PrintIsCoerced v }
{}
