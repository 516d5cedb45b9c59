//! What a checker finds.

/// How much a finding counts.
#[derive(Clone, Copy, Drop)]
pub enum Level {
    Error,
    Warning,
    /// What is worth knowing and is no fault.
    Note,
}

impl Level {
    /// Returns SARIF's word for the level.
    pub fn as_str(self) -> &'static str {
        match self {
            Level::Error => "error",
            Level::Warning => "warning",
            Level::Note => "note",
        }
    }

    /// Returns the workflow command of GitHub for the level.
    pub fn command(self) -> &'static str {
        match self {
            Level::Error => "error",
            Level::Warning => "warning",
            Level::Note => "notice",
        }
    }
}

/// A kind of finding.
#[derive(Clone, Copy, Drop)]
pub struct Rule<'a> {
    pub id: &'a str,
    /// A short description.
    pub description: &'a str,
    /// The address of a page about it.
    pub help: &'a str,
    /// The level that findings of this kind have by default.
    pub level: Level,
    /// How severe it is, from `0.0` to `10.0`, if it is about security.
    pub severity: Option<&'a str>,
}

/// What a checker finds in a file.
#[derive(Drop)]
pub struct Finding<'a> {
    /// Its kind: the `id` of its rule, or a word for several rules.
    pub rule: &'a str,
    /// The place of the rule in the tool's list, counted from 0.
    pub rule_index: usize,
    pub level: Level,
    /// A text in UTF-8.
    pub message: Vec<u8>,
    /// The path of the file.
    pub file: &'a str,
    /// The line, counted from 1.
    pub line: usize,
    /// The column, counted from 1 in characters (Unicode code points).
    pub column: usize,
    /// Why it does not count, in UTF-8, if it does not.
    pub suppression: Option<Vec<u8>>,
}

/// A checker.
#[derive(Clone, Copy, Drop)]
pub struct Tool<'a> {
    pub name: &'a str,
    pub version: &'a str,
    pub rules: &'a [Rule<'a>],
}
