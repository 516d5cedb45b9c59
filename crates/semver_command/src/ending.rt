//! How the program ends.

/// How the program ends.
#[derive(Clone, Copy, PartialEq, Drop)]
pub enum Ending {
    /// A text was written.
    Written,
    /// No version is left.
    Nothing,
    /// An increment with a range, or of more than one version.
    Misused,
    /// A range that is to be explained is refused.
    Refused,
    /// There is nothing to explain: a version or an increment is given, or no range, or an option has no range after it.
    Unexplained,
}
