//! How findings are written.

use crate::annotations::rules::rules;
use crate::finding::{Finding, Tool};
use crate::github::push_annotation;
use crate::sarif::push_log;
use std::alloc::{AllocError, Global};

/// How findings are written.
#[derive(Clone, Copy, Drop)]
pub enum AnnotationFormat {
    /// A line a finding, which GitHub Actions shows beside the file.
    Github,
    /// One log in the Static Analysis Results Interchange Format, version 2.1.0.
    Sarif,
}

/// Adds the text of findings in a format, as this version of the program `npm_lock_check` writes it. A log also says whether the run
/// was successful, which it was if every lock file was checked.
///
/// # Errors
///
/// An allocation failed. Then a beginning may have been added.
///
/// # Memory
///
/// Allocates the text that is added, and for a log for the time of the call a list of its pieces.
pub fn push_findings(
    alloc: Global,
    out: &mut Vec<u8>,
    format: AnnotationFormat,
    version: &str,
    findings: &[Finding<'_>],
    is_successful: bool,
) -> Result<(), AllocError> {
    match format {
        AnnotationFormat::Github => push_annotations(out, findings),
        AnnotationFormat::Sarif => {
            let tool = Tool {
                name: "npm_lock_check",
                version,
                rules: &rules(),
            };
            push_log(alloc, out, tool, findings, is_successful)
        }
    }
}

/// Adds a line for each finding that counts.
fn push_annotations(out: &mut Vec<u8>, findings: &[Finding<'_>]) -> Result<(), AllocError> {
    for finding in findings {
        push_annotation(out, finding)?;
    }
    Ok(())
}
