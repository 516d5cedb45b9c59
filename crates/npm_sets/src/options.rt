//! How a text is read.

/// The options of npm's reading, by npm's names. Both are `false` by default.
#[derive(Clone, Copy, Debug, Default)]
pub struct NpmOptions {
    /// If `true`, leading zeros and a prerelease without its hyphen are read, as in `01.2.3beta`, and a word that is no
    /// comparator is ignored. If `false`, such a text is refused.
    pub loose: bool,
    /// If `true`, a prerelease satisfies the range wherever it lies inside all comparators.
    pub include_prerelease: bool,
}
