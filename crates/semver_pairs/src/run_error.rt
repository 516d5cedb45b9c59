//! Why the program stops.
ghost use Rattle.std.specs.Prelude.{Some};
ghost use Rattle.semver_pairs.specs.Ending.{error_text};

use std::error::Error;
use std::fmt;

/// Why the program stopped.
#[derive(Debug, PartialEq, Eq, Drop, thiserror::Error)]
pub enum RunError {
    /// The reader's gauge has failed.
    Read,
    /// The writer's gauge has failed.
    Write,
    /// An allocation failed.
    Memory,
    /// 18446744073709551615 reads returned bytes without reaching the end.
    Endless,
}

/// Prints a few words, such as `read failed`. Format options such as a width are ignored.
impl fmt::Display for RunError {
    ghost output = { λ e. Some (error_text e) };

    fn fmt<W: fmt::Write>(&self, f: &mut fmt::Formatter<W>) -> fmt::Result {
        f.write_str(match self {
            RunError::Read => "read failed",
            RunError::Write => "write failed",
            RunError::Memory => "out of memory",
            RunError::Endless => "input does not end",
        })
    }
}
