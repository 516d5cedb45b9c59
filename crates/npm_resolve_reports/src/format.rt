//! How a reply is written.

/// How a reply is written.
#[derive(Clone, Copy, Debug, PartialEq, Eq, Drop)]
pub enum Format {
    Text,
    /// A JSON object a line.
    Json,
    /// A lock file of npm, or lines of text if no versions fit together.
    Lock,
}
