//! How the program ends.
ghost use Rattle.std.specs.Prelude.{◌≡◌, [], codes, IfSome, IfNone, IfOk, IfErr};
ghost use Rattle.semver_pairs.specs.Ending.{error_line};

use crate::run_error::RunError;

/// Returns the exit status, and the line for standard error.
///
/// The status is 0 after `Ok` and 1 after an error. It is 2 for `None`, which means that the program was called with
/// arguments: it takes none.
///
/// # Memory
///
/// Does not allocate.
///
/// # Examples
///
/// - `ending(Some(&Ok(())))` has status 0 and an empty line.
/// - `ending(Some(&Err(RunError::Read)))` has status 1 and the line `semver_pairs: read failed`.
/// - `ending(None)` has status 2 and the line `semver_pairs: takes no arguments`.
pub fn ending(outcome: Option<&Result<(), RunError>>) -> (u8, &'static str)
    ensures done { IfSome outcome.entry (λ o. IfOk o.now (λ _. (result.0 ≡ 0) × (result.1.now ≡ []))) }
    ensures stopped { IfSome outcome.entry (λ o. IfErr o.now (λ e. (result.0 ≡ 1) × (result.1.now ≡ error_line e))) }
    ensures argument { IfNone outcome.entry ((result.0 ≡ 2)
        × (result.1.now ≡ codes "semver_pairs: takes no arguments")) }
{
    match outcome {
        Some(Ok(())) => (0, ""),
        Some(Err(RunError::Read)) => (1, "semver_pairs: read failed"),
        Some(Err(RunError::Write)) => (1, "semver_pairs: write failed"),
        Some(Err(RunError::Memory)) => (1, "semver_pairs: out of memory"),
        Some(Err(RunError::Endless)) => (1, "semver_pairs: input does not end"),
        None => (2, "semver_pairs: takes no arguments"),
    }
}
