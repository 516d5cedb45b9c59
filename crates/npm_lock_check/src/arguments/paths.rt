//! The files that the arguments name beside the lock files.

/// The files that the arguments name beside the lock files.
#[derive(Clone, Copy, Drop)]
pub struct Paths<'a> {
    /// The text after `--manifest`.
    pub manifest: Option<&'a str>,
    /// The text after `--advisories`.
    pub advisories: Option<&'a str>,
    /// The text after `--exceptions`.
    pub exceptions: Option<&'a str>,
}
