//! Findings, and how GitHub and SARIF write them.
use crate::Call;
use crate::written::end_list;
use named_calls::members::{items_in, items_of, number_in, text_in, texts_of};
use named_calls::words::{text_at, value_at};
use named_calls::{CallError, Written, list_of};
use npm_lock_findings::{
    Draft, Finding, Level, Rule, Tool, findings_in, push_annotation, push_log,
};
use serde_json::Value;
use std::alloc::{AllocError, Global};
use std::str;

pub(crate) fn answer(call: &Call<'_>, out: &mut String) -> Written {
    let (alloc, value) = (call.alloc, value_at(call, 0)?);
    let mut bytes = Vec::new(alloc);
    match call.name {
        "npm_lock_findings::findings_in" => {
            return placed(alloc, out, value, text_at(call, 1), text_at(call, 2));
        }
        "npm_lock_findings::push_annotation" => push_annotation(
            &mut bytes,
            &finding_of(alloc, value)?,
        )?,
        "npm_lock_findings::push_log" => {
            let (rules, findings) = (items_in(value, "rules"), items_of(value_at(call, 1)?));
            let rules = list_of!(alloc, rules, item => rule_of(item));
            let findings = list_of!(alloc, findings, item => finding_of(alloc, item)?);
            let tool = Tool {
                name: text_in(value, "name"),
                version: text_in(value, "version"),
                rules: &rules,
            };
            let is_successful = text_at(call, 2) == "successful";
            push_log(alloc, &mut bytes, tool, &findings, is_successful)?;
        }
        _ => return Err(CallError::Words),
    }
    Ok(out.push_str(text_of(&bytes))?)
}

/// The findings of drafts, in the text of a file and its path: each member, in the order of the type.
fn placed<'v>(
    alloc: Global,
    out: &mut String,
    list: &'v Value,
    text: &'v str,
    file: &'v str,
) -> Written {
    let items = items_of(list);
    let drafts = list_of!(alloc, items, item => draft_of(alloc, item)?);
    for finding in &findings_in(alloc, text, file, &drafts)? {
        let (rule, index, level) = (finding.rule, finding.rule_index, finding.level.as_str());
        let (file, line, column) = (finding.file, finding.line, finding.column);
        write!(out, "{rule} {index} {level} {} ", text_of(&finding.message))?;
        write!(out, "{file} {line} {column}\t")?;
    }
    end_list(out)
}

fn text_of(bytes: &[u8]) -> &str {
    str::from_utf8(bytes).unwrap_or("no UTF-8")
}

/// A finding, which has the members of its type.
fn finding_of(alloc: Global, item: &Value) -> Result<Finding<'_>, AllocError> {
    Ok(Finding {
        rule: text_in(item, "rule"),
        rule_index: number_in(item, "rule_index"),
        level: level_in(item),
        message: bytes_in(alloc, item, "message")?,
        file: text_in(item, "file"),
        line: number_in(item, "line"),
        column: number_in(item, "column"),
        suppression: suppression_in(alloc, item)?,
    })
}

fn bytes_in(alloc: Global, item: &Value, name: &str) -> Result<Vec<u8>, AllocError> {
    Vec::from_slice(alloc, text_in(item, name).as_bytes())
}

/// Why a finding does not count, if it says why.
fn suppression_in(alloc: Global, item: &Value) -> Result<Option<Vec<u8>>, AllocError> {
    if text_in(item, "suppression").is_empty() {
        return Ok(None);
    }
    Ok(Some(bytes_in(alloc, item, "suppression")?))
}

fn level_in(item: &Value) -> Level {
    match text_in(item, "level") {
        "error" => Level::Error,
        "warning" => Level::Warning,
        _ => Level::Note,
    }
}

fn rule_of(item: &Value) -> Rule<'_> {
    let score = text_in(item, "severity");
    Rule {
        id: text_in(item, "id"),
        description: text_in(item, "description"),
        help: text_in(item, "help"),
        level: level_in(item),
        severity: if score.is_empty() { None } else { Some(score) },
    }
}

/// A draft has a list of paths, and a path is a list of names.
fn draft_of(alloc: Global, item: &Value) -> Result<Draft<'_, '_>, AllocError> {
    let items = items_in(item, "paths");
    let paths = list_of!(alloc, items, path => texts_of(alloc, items_of(path))?);
    Ok(Draft {
        rule: text_in(item, "rule"),
        rule_index: number_in(item, "rule_index"),
        level: level_in(item),
        message: bytes_in(alloc, item, "message")?,
        paths,
        suppression: suppression_in(alloc, item)?,
    })
}
