//! The lock file that is written of a selection has no problem.
ghost use Rattle.std.specs.Prelude.{◌≡◌, ℕ, ℤ, List, None, Option, Some, [], map};
ghost use Rattle.serde_json.specs.Data.{Data};
ghost use Rattle.serde_json.specs.declared.value.Value.{Value};
ghost use Rattle.npm_resolve.specs.declared.candidates.options.Omits.{Omits};
ghost use Rattle.npm_resolve.specs.declared.candidates.options.Options.{Options};
ghost use Rattle.npm_resolve.specs.declared.candidates.owner.Reach.{Reach};
ghost use Rattle.npm_resolve.specs.declared.candidates.owner.Reach.TheVariants.{Dependencies};
ghost use Rattle.npm_resolve.specs.Answers.{IsAnswer};
ghost use Rattle.npm_resolve.specs.Texts.{text};
ghost use Rattle.npm_resolve.specs.declared.answer.Answer.{Answer};
ghost use Rattle.npm_resolve.specs.declared.documents.Document.{Document};
ghost use Rattle.npm_resolve.specs.Installed.{InstalledValue};
ghost use Rattle.npm_resolve.specs.Lock.{IsLock};
ghost use Rattle.npm_lock.specs.Findings.{IsChecked};
ghost use Rattle.npm_lock.specs.declared.problem.Problems.{Problems};
ghost use Rattle.npm_resolve.specs.Meanings.{IsAdmitted, IsMeaning, MeaningValue};
ghost use Rattle.npm_resolve.specs.declared.candidates.candidate.Candidate.{Candidate};
ghost use Rattle.npm_texts.specs.InstalledVersions.{IsInstalledVersion};
ghost use Rattle.npm_texts.specs.RegistrySpec.{RegistrySpecValue, registry_spec};
ghost use Rattle.npm_resolve_laws.specs.Selected.{IfSelected, IsSound};
ghost use Rattle.npm_resolve_laws.specs.Met.{AreMet, IsKept};
ghost use Rattle.npm_resolve_laws.specs.Ordinary.{IsOrdinarySpec, nothing_omitted};
ghost use Rattle.npm_resolve_laws.specs.Whole.{HasSoundLock};

use npm_sets::laws::prints_are_read_back_by_npm;
use npm_texts::laws::specs_are_those_of_the_grammar;

/// The law: what a selection is asked for is answered. Each dependency of a manifest, and of each version that is selected, that counts and
/// asks a registry has a selected version that its spec allows; or none is selected under its name, and none need be: an optional peer, an
/// optional dependency of a version, or one of a manifest that is among the `unmet` of the answer. Each name has one version at most.
///
/// # Memory
///
/// Does not allocate.
pub fn each_dependency_of_a_selection_is_answered()
    ensures { (manifests : List Value) (documents : List Document) (options : Options) (reach : Reach) (omits : Omits) (answer : Answer)
        → IsAnswer manifests documents options reach omits answer
        → IfSelected answer.resolution (IsSound manifests documents options reach omits (map text answer.unmet.items)) }
{}

/// The law: if each dependency is met by the package that is installed under its name, `npm_lock::check` finds no problem in the lock
/// file that `npm_resolve::lock_of` returns.
///
/// # Memory
///
/// Does not allocate.
pub fn flat_lock_files_have_no_problems()
    ensures { (root lock : Data) (installed : List InstalledValue) (problems : Problems) → AreMet root installed
        → IsLock root installed lock → IsChecked lock None problems → problems.list.items ≡ [] }
{
    specs_are_those_of_the_grammar();
}

/// The law: a candidate that a spec allows, as `npm_resolve` reads it, may stand for the spec as `npm_lock` reads it, if the spec is an
/// ordinary one: a range, a tag, or a version as it is printed, without white space at its ends, of the name or of an alias.
///
/// # Memory
///
/// Does not allocate.
pub fn a_version_that_a_spec_allows_is_kept()
    ensures { (packument : Data) (before : Option ℤ) (name spec : List ℕ) (request : RegistrySpecValue) (meaning : MeaningValue)
        (c : Candidate) → registry_spec name spec ≡ Some request → IsOrdinarySpec name spec
        → IsMeaning packument before request.text meaning → IsAdmitted meaning c → IsInstalledVersion c.key.now c.version
        → IsKept c.key.now spec }
{
    prints_are_read_back_by_npm();
    specs_are_those_of_the_grammar();
}

/// The law of the whole: `npm_lock::check` finds no problem in the lock file that is written of a selection by `Reach::Dependencies`, if
/// no group of dependencies is left out, and those of the root and of the selected versions are ordinary.
///
/// Almost all dependencies are. Excluded are a location that is needed, as `github:b/c`, and an alias without a name, as `npm:^1`: nothing
/// is selected for them, and `npm_lock` calls them missing. So is a name as `a/b`, whose folder is that of another package. White space at
/// the ends of a range, and a version that is not written as it is printed, as `=v1.2.3`, are excluded since the two crates read them in
/// two ways. Such files are only tested.
///
/// # Memory
///
/// Does not allocate.
pub fn lock_files_of_selections_have_no_problems()
    ensures { (manifests : List Value) (documents : List Document) (options : Options) (answer : Answer)
        → IsAnswer manifests documents options Dependencies nothing_omitted answer
        → IfSelected answer.resolution (HasSoundLock manifests documents) }
{
    prints_are_read_back_by_npm();
    specs_are_those_of_the_grammar();
}
