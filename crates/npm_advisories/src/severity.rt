//! How severe an advisory is.
//!
//! See docs/DECISIONS.md, "A severity that is not known counts as the highest".
ghost use Rattle.std.specs.Prelude.{◌≡◌, codes, map};
ghost use Rattle.npm_advisories.specs.Severities as Severities;

/// How severe an advisory is: npm's words, and `Unknown` for an advisory with another word or with none.
#[derive(Clone, Copy, Debug, PartialEq, Eq, Drop)]
pub enum Severity {
    Unknown,
    Info,
    Low,
    Moderate,
    High,
    Critical,
}

impl Severity {
    /// Returns the severity that a text names, with letters of either case. Any other text is `Unknown`.
    ///
    /// # Examples
    ///
    /// `high` and `HIGH` are `High`, and `severe` is `Unknown`.
    pub fn of_text(text: &str) -> Severity
        ensures { result ≡ Severities.severity_of_text text.now }
    {
        if is_word(text, "info") {
            return Severity::Info;
        }
        if is_word(text, "low") {
            return Severity::Low;
        }
        if is_word(text, "moderate") {
            return Severity::Moderate;
        }
        if is_word(text, "high") {
            return Severity::High;
        }
        if is_word(text, "critical") {
            return Severity::Critical;
        }
        Severity::Unknown
    }

    /// The word for it, as npm writes it.
    pub fn as_str(self) -> &'static str
        ensures { result.now ≡ Severities.word_of self }
    {
        match self {
            Severity::Unknown => "unknown",
            Severity::Info => "info",
            Severity::Low => "low",
            Severity::Moderate => "moderate",
            Severity::High => "high",
            Severity::Critical => "critical",
        }
    }

    /// Returns `true` if this is at least as severe as the level, or `Unknown`.
    ///
    /// # Examples
    ///
    /// `High` is at least `Moderate`, and `Low` is not. `Unknown` is at least `Critical`.
    pub fn is_at_least(self, level: Severity) -> bool
        ensures { result ≡ Severities.is_at_least level self }
    {
        self == Severity::Unknown || level.rank() <= self.rank()
    }

    fn rank(self) -> u8
        ensures { result ≡ Severities.rank self }
    {
        match self {
            Severity::Unknown => 0,
            Severity::Info => 1,
            Severity::Low => 2,
            Severity::Moderate => 3,
            Severity::High => 4,
            Severity::Critical => 5,
        }
    }
}

/// Returns `true` if the text is this word, with letters of either case.
pub(crate) fn is_word(text: &str, word: &str) -> bool
    ensures { result ≡ Severities.is_word word.now text.now }
{
    text.eq_ignore_ascii_case(word)
}
