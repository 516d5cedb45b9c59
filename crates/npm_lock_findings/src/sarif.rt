//! A SARIF log.
ghost use Rattle.std.specs.Prelude.{◌≡◌, ◌++◌, ◌∷◌, [], IfOk, OnOk, map};
ghost use Rattle.npm_lock_findings.specs.Forms.{message_of, messages_in, piece_value};
ghost use Rattle.npm_lock_findings.specs.Private.Said.{said_in};

use crate::finding::{Finding, Rule, Tool};
use crate::forms::{Form, Piece, push_pieces};
use std::alloc::{AllocError, Global};

/// Adds the log of a checker and its findings: one JSON text, and a newline byte. The log says whether the run was successful. It was
/// if everything was checked, also if something was found. A finding that does not count has a suppression with the reason.
///
/// # Errors
///
/// An allocation failed. Then a beginning of the log may have been added.
///
/// # Memory
///
/// Allocates the log, and for the time of the call a list of its pieces.
pub fn push_log(
    alloc: Global,
    out: &mut Vec<u8>,
    tool: Tool<'_>,
    findings: &[Finding<'_>],
    is_successful: bool,
) -> Result<(), AllocError> {
    let pieces = log_pieces(alloc, tool, findings, is_successful)?;
    push_pieces(out, Form::Json, &pieces)
}

/// Returns the pieces of a log, with the message of each finding once, in their order.
pub fn log_pieces<'a>(
    alloc: Global,
    tool: Tool<'a>,
    findings: &'a [Finding<'a>],
    is_successful: bool,
) -> Result<Vec<Piece<'a>>, AllocError>
    ensures { IfOk result (λ pieces. messages_in (map piece_value pieces.items) ≡ map message_of findings.now) }
{
    let mut pieces = Vec::new(alloc);
    let head = [
        Piece::Fixed(
            "{\"$schema\":\"https://json.schemastore.org/sarif-2.1.0.json\",\"version\":\"2.1.0\",\"runs\":[{\"tool\":{\"driver\":{\"name\":\"",
        ),
        Piece::Text(tool.name.as_bytes()),
        Piece::Fixed("\",\"version\":\""),
        Piece::Text(tool.version.as_bytes()),
        Piece::Fixed("\",\"rules\":["),
    ];
    pieces.extend_from_slice(&head)?;
    push_rules(&mut pieces, tool.rules)?;
    pieces.push(Piece::Fixed(run_text(is_successful)))?;
    push_results(&mut pieces, tool.rules, findings)?;
    pieces.push(Piece::Fixed("]}]}\n"))?;
    Ok(pieces)
}

/// Returns the text between the rules and the results of a run.
fn run_text(is_successful: bool) -> &'static str {
    if is_successful {
        "]}},\"invocations\":[{\"executionSuccessful\":true}],\"columnKind\":\"unicodeCodePoints\",\"results\":["
    } else {
        "]}},\"invocations\":[{\"executionSuccessful\":false}],\"columnKind\":\"unicodeCodePoints\",\"results\":["
    }
}

/// Adds the rules, with a comma between two.
fn push_rules<'a>(pieces: &mut Vec<Piece<'a>>, rules: &'a [Rule<'a>]) -> Result<(), AllocError>
    ensures { OnOk result (said_in pieces.new.items ≡ said_in pieces.old.items) }
{
    let mut is_first = true;
    for rule in rules {
        push_rule(pieces, comma(is_first), *rule)?;
        is_first = false;
    }
    Ok(())
}

/// What stands before one of several.
fn comma(is_first: bool) -> &'static str {
    if is_first { "" } else { "," }
}

/// Adds a rule: SARIF 2.1.0, section 3.49, "reportingDescriptor object". One about security has properties.
fn push_rule<'a>(
    pieces: &mut Vec<Piece<'a>>,
    comma: &'static str,
    rule: Rule<'a>,
) -> Result<(), AllocError>
    ensures { OnOk result (said_in pieces.new.items ≡ said_in pieces.old.items) }
{
    let (before, score, after) = match rule.severity {
        Some(score) => (
            "\"},\"properties\":{\"security-severity\":\"",
            score,
            "\",\"tags\":[\"security\"]}}",
        ),
        None => ("\"}}", "", ""),
    };
    let one = [
        Piece::Fixed(comma),
        Piece::Fixed("{\"id\":\""),
        Piece::Text(rule.id.as_bytes()),
        Piece::Fixed("\",\"shortDescription\":{\"text\":\""),
        Piece::Text(rule.description.as_bytes()),
        Piece::Fixed("\"},\"helpUri\":\""),
        Piece::Text(rule.help.as_bytes()),
        Piece::Fixed("\",\"defaultConfiguration\":{\"level\":\""),
        Piece::Fixed(rule.level.as_str()),
        Piece::Fixed(before),
        Piece::Text(score.as_bytes()),
        Piece::Fixed(after),
    ];
    pieces.extend_from_slice(&one)
}

/// Adds the findings, with a comma between two.
fn push_results<'a>(
    pieces: &mut Vec<Piece<'a>>,
    rules: &'a [Rule<'a>],
    findings: &'a [Finding<'a>],
) -> Result<(), AllocError>
    ensures { OnOk result (said_in pieces.new.items ≡ said_in pieces.old.items ++ map message_of findings.now) }
{
    let no_suppression = no_suppression(findings);
    let mut is_first = true;
    for finding in findings {
        push_result(pieces, comma(is_first), rules, finding, no_suppression)?;
        is_first = false;
    }
    Ok(())
}

/// The end of a finding that counts. Section 3.27.23, "suppressions property": if one result of a run has it, then all have.
fn no_suppression(findings: &[Finding<'_>]) -> &'static str {
    for finding in findings {
        if finding.suppression.is_some() {
            return ",\"suppressions\":[]}";
        }
    }
    "}"
}

/// Adds a finding: section 3.27, "result object".
fn push_result<'a>(
    pieces: &mut Vec<Piece<'a>>,
    comma: &'static str,
    rules: &'a [Rule<'a>],
    finding: &'a Finding<'a>,
    no_suppression: &'static str,
) -> Result<(), AllocError>
    ensures { OnOk result (said_in pieces.new.items ≡ said_in pieces.old.items ++ (message_of finding.now ∷ [])) }
{
    let rule = match rules.get(finding.rule_index) {
        Some(rule) => rule.id,
        None => finding.rule,
    };
    let file = finding.file.as_bytes();
    let (before, reason, after): (&'static str, &'a [u8], &'static str) =
        match &finding.suppression {
            Some(reason) => (
                ",\"suppressions\":[{\"kind\":\"external\",\"justification\":\"",
                reason,
                "\"}]}",
            ),
            None => (no_suppression, &[], ""),
        };
    let one = [
        Piece::Fixed(comma),
        Piece::Fixed("{\"ruleId\":\""),
        Piece::Text(rule.as_bytes()),
        Piece::Fixed("\",\"ruleIndex\":"),
        Piece::Number(finding.rule_index),
        Piece::Fixed(",\"level\":\""),
        Piece::Fixed(finding.level.as_str()),
        Piece::Fixed("\",\"message\":{\"text\":\""),
        Piece::Message(&finding.message),
        Piece::Fixed("\"},\"locations\":[{\"physicalLocation\":{\"artifactLocation\":{\"uri\":\""),
        Piece::Fixed(if file.starts_with(b"/") {
            "file://"
        } else {
            ""
        }),
        Piece::Address(file),
        Piece::Fixed("\"},\"region\":{\"startLine\":"),
        Piece::Number(finding.line),
        Piece::Fixed(",\"startColumn\":"),
        Piece::Number(finding.column),
        Piece::Fixed("}}}]"),
        Piece::Fixed(before),
        Piece::Text(reason),
        Piece::Fixed(after),
    ];
    pieces.extend_from_slice(&one)
}
