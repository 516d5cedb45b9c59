//! Laws of the definitions that the contracts use. The functions here do nothing: the contract of each is a law.
ghost use Rattle.std.specs.Prelude.{◌≡◌, ◌↔◌, ℕ, List, Bool, false, ◌++◌, IsTrue};
ghost use Rattle.semver_pairs.specs.Lines.{divided, joined};
ghost use Rattle.semver_pairs.specs.Output.{AreAnswers, BeginsAnswers, HasAnswers, HasOneAnswer};
ghost use Rattle.semver_pairs.specs.Pairs.{pairs_read};
ghost use Rattle.semver_pairs.specs.declared.run_error.RunError.{RunError};

use crate::run_error::RunError;

/// The pairs of each input have exactly one output. With the end of the input, it is the output for the whole input.
pub fn each_input_has_one_output()
    ensures exists { (is_end : Bool) (read : List ℕ) → HasAnswers (pairs_read is_end read) }
    ensures only { (is_end : Bool) (read : List ℕ) → HasOneAnswer (pairs_read is_end read) }
{}

/// The output for the pairs that were completely read before the end is the beginning of the output for any longer
/// input: no byte that follows, and no end, changes it.
pub fn answers_stay_as_the_input_goes_on()
    ensures { (is_end : Bool) (read more written : List ℕ) → AreAnswers (pairs_read false read) written
        → BeginsAnswers (pairs_read is_end (read ++ more)) written }
{}

/// The ended lines, each followed by a newline byte, and then the rest, are the bytes.
pub fn joined_lines_are_the_bytes()
    ensures { (bytes : List ℕ) → joined (divided bytes).ended (divided bytes).rest ≡ bytes }
{}

/// Two errors are equal exactly if they are the same variant.
pub fn errors_are_equal_as_variants()
    ensures { (e f : RunError) → IsTrue (⟦<RunError as PartialEq>⟧.eq e f) ↔ (e ≡ f) }
{}
