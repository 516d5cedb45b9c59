//! The laws of npm's reading. The functions here do nothing: the contract of each is a law.
ghost use Rattle.std.specs.Prelude.{Bool, ℕ, List};
ghost use Rattle.semver_cuts.specs.Ends.{Ends};
ghost use Rattle.semver_texts.specs.Version.{VersionValue};
ghost use Rattle.semver_sets.specs.PartialText.{Partial};
ghost use Rattle.semver_sets.specs.RangeSets.{IsRangeValue};
ghost use Rattle.npm_sets.specs.NpmReadingBack.{NpmReadsBack};
ghost use Rattle.npm_sets.specs.PartialLaws.{IsOneNpmPartial, IsReadAsWritten, IsRefusedByLimits};
ghost use Rattle.npm_sets.specs.declared.options.NpmOptions.{NpmOptions};

/// A text of at most 256 bytes is read as a partial exactly if the grammar of partials has it, in strict and in loose form. A
/// text is at most one partial of this grammar. In loose form every other text is ignored, unless it is above a limit.
pub fn partials_are_those_of_the_grammar()
    ensures read { (loose : Bool) (text : List ℕ) (p : Partial) → IsReadAsWritten loose text p }
    ensures one { (loose : Bool) (text : List ℕ) → IsOneNpmPartial loose text }
    ensures limits { (loose : Bool) (text : List ℕ) → IsRefusedByLimits loose text }
{}

/// npm's reading of the print of a range gives an equal range, in strict and in loose form, with prereleases included or
/// not, if it can read each version of the print: no number is greater than `MAX_SAFE_INTEGER`, the print of the version has
/// at most 256 bytes and, in strict form, no identifier of its prerelease is a text of digits with a leading zero.
pub fn prints_are_read_back_by_npm()
    ensures { (options : NpmOptions) (sets : List (Ends VersionValue)) → IsRangeValue sets → NpmReadsBack options sets }
{}
