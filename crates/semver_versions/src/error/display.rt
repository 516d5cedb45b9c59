//! How errors are printed.
ghost use Rattle.std.specs.Prelude.{◌≡◌, ◌++◌, IfSome};
ghost use Rattle.semver_versions.specs.ErrorParts.{error_kind_of};
ghost use Rattle.semver_versions.specs.ErrorText.{kind_text, rest_text};

use crate::{SemverError, SemverErrorKind};
use std::fmt;

/// Prints one sentence for each kind, with its number or word. The sentence of `ParseIntError` ends with std's message
/// about the digits.
///
/// Width, fill and `#` are ignored: `{:>9}` and `{:#}` print the same as `{}`.
///
/// # Examples
///
/// `Context("version")` prints `Failed to parse version.`, and `MaxLengthError` prints
/// `Semver string can't be longer than 256 characters.`
impl fmt::Display for SemverErrorKind {
    ghost output = { kind_text };

    fn fmt<W: fmt::Write>(&self, f: &mut fmt::Formatter<W>) -> fmt::Result {
        let prefix = fixed_prefix(self);
        match self {
            SemverErrorKind::ParseIntError(fault) => write!(f, "{prefix}{fault}"),
            SemverErrorKind::MaxIntError(number) => write!(f, "{prefix}{number}"),
            SemverErrorKind::Context(word) => write!(f, "{prefix}{word}."),
            _ => f.write_str(prefix),
        }
    }
}

// The beginning of a kind's text, up to its number or word. For a kind without one it is the whole text.
fn fixed_prefix(kind: &SemverErrorKind) -> &'static str
    ensures { IfSome (kind_text kind.now) (λ text. text ≡ result.now ++ rest_text kind.now) }
{
    use SemverErrorKind::*;
    match kind {
        MaxLengthError => "Semver string can't be longer than 256 characters.",
        IncompleteInput => "Incomplete input to semver parser.",
        ParseIntError(_) => "Failed to parse an integer component of a semver string: ",
        MaxIntError(_) => {
            "Integer component of semver string is larger than JavaScript's Number.MAX_SAFE_INTEGER: "
        }
        Context(_) => "Failed to parse ",
        NoValidRanges => "No valid ranges could be parsed",
        Other => "An unspecified error occurred.",
        OutOfMemory => "Out of memory.",
    }
}

/// Prints the kind of the error. The text and the place are not printed, and format options are ignored.
impl fmt::Display for SemverError {
    ghost output = { λ e. kind_text (error_kind_of e) };

    fn fmt<W: fmt::Write>(&self, f: &mut fmt::Formatter<W>) -> fmt::Result {
        self.kind().fmt(f)
    }
}
