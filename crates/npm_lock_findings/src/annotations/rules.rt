//! The rules that findings break: one for each kind of problem, one for each other kind of finding, and one for each severity of advisories.
//!
//! See docs/DECISIONS.md, "The severity of an advisory in a log is that of its word".
ghost use Rattle.std.specs.Prelude.{◌≡◌, ◌≤◌, ◌⊎◌};
ghost use Rattle.npm_advisories.specs.Severities.{rank};
ghost use Rattle.npm_lock_findings.specs.Findings.{IsMostSevere};
ghost use Rattle.npm_lock_findings.specs.Forms.{message_of};

use crate::finding::{Finding, Level, Rule};
use npm_advisories::{About, Severity};
use npm_lock_reports::{Report, Thing};

/// The word for packages that an advisory hits, and the `id` of the rule of those whose severity has none of its own.
pub(crate) const ADVISORY: &str = "advisory";

/// The `id` of the rule of files that are refused.
const REFUSED: &str = "refused";

/// The `id` of the rule of what is not checked.
const UNCHECKED: &str = "unchecked";

/// Returns the rules. That of a kind of problem has the word of the kind as its `id`, and a log names a rule by its place too.
///
/// The scores of advisories are the middles of the bands of CVSS 3.1, section 5, "Qualitative Severity Rating Scale", by which GitHub
/// reads `security-severity`: critical from 9.0 to 10.0, high from 7.0, medium from 4.0, low from 0.1. An advisory of another severity, or
/// of one that is not known, has none.
pub(crate) fn rules() -> [Rule<'static>; 14] {
    [
        rule(
            "missing",
            "A dependency is not installed.",
            DEPENDENCIES,
            Level::Error,
        ),
        rule(
            "invalid",
            "An installed version does not satisfy what a package asks for.",
            DEPENDENCIES,
            Level::Error,
        ),
        rule(
            "peer-local",
            "A peer dependency is installed inside the package that has it as a peer.",
            "https://docs.npmjs.com/cli/configuring-npm/package-json#peerdependencies",
            Level::Error,
        ),
        rule(
            "engine",
            "The version of Node does not satisfy engines.node of a package.",
            "https://docs.npmjs.com/cli/configuring-npm/package-json#engines",
            Level::Error,
        ),
        rule(
            "mismatch",
            "A manifest and the lock file do not ask for the same.",
            "https://docs.npmjs.com/cli/commands/npm-ci",
            Level::Warning,
        ),
        advisory(
            ADVISORY,
            "A security advisory hits an installed package.",
            None,
        ),
        rule(
            UNCHECKED,
            "A dependency is not checked, a manifest was not read, or workspaces were not looked for.",
            DEPENDENCIES,
            Level::Note,
        ),
        rule(
            REFUSED,
            "A file is not read, or has a fault.",
            "https://docs.npmjs.com/cli/configuring-npm/package-lock-json",
            Level::Error,
        ),
        rule(
            "source",
            "Where a package comes from is suspicious: its address is that of another version or package, is not encrypted or is below no registry that was given, or it has no integrity.",
            "https://docs.npmjs.com/cli/configuring-npm/package-lock-json",
            Level::Error,
        ),
        advisory(
            "advisory-critical",
            "A security advisory of critical severity hits an installed package.",
            Some("9.5"),
        ),
        advisory(
            "advisory-high",
            "A security advisory of high severity hits an installed package.",
            Some("8.0"),
        ),
        advisory(
            "advisory-moderate",
            "A security advisory of moderate severity hits an installed package.",
            Some("5.5"),
        ),
        advisory(
            "advisory-low",
            "A security advisory of low severity hits an installed package.",
            Some("2.0"),
        ),
        rule(
            "left-out",
            "A package that is needed is left out, since the lock file marks it.",
            "https://docs.npmjs.com/cli/configuring-npm/package-lock-json",
            Level::Error,
        ),
    ]
}

/// The page about what a package depends on.
const DEPENDENCIES: &str = "https://docs.npmjs.com/cli/configuring-npm/package-json#dependencies";

/// Returns a rule.
fn rule(
    id: &'static str,
    description: &'static str,
    help: &'static str,
    level: Level,
) -> Rule<'static> {
    Rule {
        id,
        description,
        help,
        level,
        severity: None,
    }
}

/// Returns a rule about advisories with this score.
fn advisory(
    id: &'static str,
    description: &'static str,
    severity: Option<&'static str>,
) -> Rule<'static> {
    Rule {
        id,
        description,
        help: "https://docs.npmjs.com/cli/commands/npm-audit",
        level: Level::Error,
        severity,
    }
}

/// Returns the place of the rule with this `id`.
pub(crate) fn place_of(rules: &[Rule<'static>], id: &str) -> usize {
    for index in 0..rules.len() {
        if rules[index].id == id {
            return index;
        }
    }
    0
}

/// Returns the word for a thing, the `id` of its rule, and its level. A mismatch and what is not checked are errors if they count for the
/// status.
pub(crate) fn rule_of(thing: Thing<'_>, report: &Report) -> (&'static str, &'static str, Level) {
    match thing {
        Thing::Mismatch(_) => alike("mismatch", error_or(report.exact, Level::Warning)),
        Thing::Problem(problem) => alike(problem.kind.as_str(), Level::Error),
        Thing::Hit(found) => (ADVISORY, advisory_id(&found.hits), Level::Error),
        Thing::Source(_) => alike("source", Level::Error),
        Thing::LeftOut(_) => alike("left-out", Level::Error),
        Thing::Unchecked(_) | Thing::Unread(_) => {
            alike(UNCHECKED, error_or(report.strict, Level::Note))
        }
    }
}

/// A word that is the `id` of the rule, and the level.
fn alike(word: &'static str, level: Level) -> (&'static str, &'static str, Level) {
    (word, word, level)
}

/// The level of what may count for the status.
fn error_or(counts: bool, other: Level) -> Level {
    if counts { Level::Error } else { other }
}

/// The `id` of the rule of a package with these hits: that of the most severe one.
fn advisory_id(hits: &[About<'_>]) -> &'static str {
    match most_severe(hits) {
        Severity::Critical => "advisory-critical",
        Severity::High => "advisory-high",
        Severity::Moderate => "advisory-moderate",
        Severity::Low => "advisory-low",
        Severity::Info | Severity::Unknown => ADVISORY,
    }
}

/// Returns the severity of the most severe of these hits, or `Unknown` if that of none is known.
pub(crate) fn most_severe(hits: &[About<'_>]) -> Severity
    ensures { IsMostSevere hits.now result }
{
    let mut most = Severity::Unknown;
    for about in hits {
        most = more_severe(most, about.severity);
    }
    most
}

/// Returns the more severe of two. One that is not known is below all others.
fn more_severe(one: Severity, other: Severity) -> Severity
    ensures left { rank one ≤ rank result }
    ensures right { rank other ≤ rank result }
    ensures is { (result ≡ one) ⊎ (result ≡ other) }
{
    // (`is_at_least` has one that is not known above all others)
    if other != Severity::Unknown && other.is_at_least(one) {
        other
    } else {
        one
    }
}

/// Returns the finding of a file that was refused, with a message in UTF-8, at a line and a column. Does not allocate.
pub fn refused_finding<'f>(
    message: Vec<u8>,
    file: &'f str,
    line: usize,
    column: usize,
) -> Finding<'f>
    ensures { message_of result ≡ message.items }
{
    Finding {
        rule: REFUSED,
        rule_index: place_of(&rules(), REFUSED),
        level: Level::Error,
        message,
        file,
        line,
        column,
        suppression: None,
    }
}
