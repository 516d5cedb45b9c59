//! What the arguments mean.

use crate::Format;
use crate::arguments::argument_error::ArgumentError;
use crate::arguments::paths::Paths;
use clap::ArgMatches;
use command_lines::Quoted;
use npm_advisories::Severity;
use npm_lock_findings::{AnnotationFormat, PageFormat};
use npm_lock_reports::{Omissions, ReportFormat};
use std::alloc::{AllocError, Global};

/// What the arguments mean.
#[derive(Drop)]
pub struct Arguments<'a> {
    /// The lock files: `-` is standard input.
    pub files: Vec<&'a str>,
    /// The files that are read beside them.
    pub paths: Paths<'a>,
    /// The text after `--node`.
    pub node: Option<&'a str>,
    pub format: Option<Format>,
    /// The kind after each `--ignore`.
    pub ignored: Vec<&'a str>,
    /// Dependencies that are not checked are listed too.
    pub unchecked: bool,
    /// What is not checked counts for the status.
    pub strict: bool,
    /// What is suspicious in where packages come from counts.
    pub sources: bool,
    /// The text after each `--registry`.
    pub registries: Vec<String>,
    /// Mismatches count for the status.
    pub exact: bool,
    /// Manifests outside the folder of the root's are read too.
    pub outside: bool,
    /// A file of advisories may have none.
    pub no_advisories: bool,
    /// Advisories that are less severe are left out.
    pub level: Severity,
    /// The groups after each `--omit`.
    pub omissions: Omissions,
}

impl<'a> Arguments<'a> {
    /// Returns what was read of the words. With no FILE the lock file is standard input.
    pub fn of(alloc: Global, found: &ArgMatches<'a>) -> Result<Arguments<'a>, AllocError> {
        let files = match found.get_strs("FILE") {
            Some(texts) => Vec::from_slice(alloc, texts)?,
            None => standard_input(alloc)?,
        };
        let ignored = match found.get_strs("ignore") {
            Some(words) => Vec::from_slice(alloc, words)?,
            None => Vec::new(alloc),
        };
        let registries = registries_in(alloc, found)?;
        let strict = found.get_flag("strict");
        Ok(Arguments {
            files,
            sources: strict || found.get_flag("sources") || !registries.is_empty(),
            registries,
            paths: Paths {
                manifest: found.get_str("manifest"),
                advisories: found.get_str("advisories"),
                exceptions: found.get_str("exceptions"),
            },
            node: found.get_str("node"),
            format: format_in(found),
            ignored,
            unchecked: found.get_flag("unchecked"),
            strict,
            exact: found.get_flag("exact"),
            outside: found.get_flag("outside"),
            no_advisories: found.get_flag("allow-no-advisories"),
            level: level_in(found),
            omissions: Omissions {
                dev: has(found, "omit", "dev"),
                optional: has(found, "omit", "optional"),
            },
        })
    }

    /// Returns `true` if there are several lock files.
    pub fn has_several(&self) -> bool {
        self.files.len() > 1
    }

    /// Returns what is wrong with the arguments together: `-` twice, or a manifest for several lock files.
    pub fn fault(&self) -> Option<ArgumentError<'a>> {
        let mut inputs: usize = 0;
        for file in &self.files {
            if *file == "-" {
                inputs = inputs.saturating_add(1);
            }
        }
        if inputs > 1 {
            return Some(ArgumentError::SecondInput);
        }
        match (self.paths.manifest, self.files.last()) {
            (Some(_), Some(text)) if self.has_several() => {
                Some(ArgumentError::ManyFiles(Quoted { text: *text }))
            }
            _ => None,
        }
    }
}

/// Standard input alone.
fn standard_input<'a>(alloc: Global) -> Result<Vec<&'a str>, AllocError> {
    let mut files = Vec::new(alloc);
    files.push("-")?;
    Ok(files)
}

/// Returns `true` if this is one of the values of an option.
fn has(found: &ArgMatches<'_>, option: &str, wanted: &str) -> bool {
    if let Some(values) = found.get_strs(option) {
        for value in values {
            if *value == wanted {
                return true;
            }
        }
    }
    false
}

/// The registries.
fn registries_in(alloc: Global, found: &ArgMatches<'_>) -> Result<Vec<String>, AllocError> {
    let mut registries = Vec::new(alloc);
    if let Some(texts) = found.get_strs("registry") {
        for text in texts {
            registries.push(String::from_str(alloc, text)?)?;
        }
    }
    Ok(registries)
}

/// The format that is asked for.
fn format_in(found: &ArgMatches<'_>) -> Option<Format> {
    match found.get_str("format")? {
        "text" => Some(Format::Report(ReportFormat::Text)),
        "json" => Some(Format::Report(ReportFormat::Json)),
        "github" => Some(Format::Annotations(AnnotationFormat::Github)),
        "sarif" => Some(Format::Annotations(AnnotationFormat::Sarif)),
        "html" => Some(Format::Pages(PageFormat::Html)),
        "junit" => Some(Format::Pages(PageFormat::Junit)),
        _ => None,
    }
}

/// The least severity of the advisories that count.
fn level_in(found: &ArgMatches<'_>) -> Severity {
    match found.get_str("severity") {
        Some(text) => Severity::of_text(text),
        None => Severity::Info,
    }
}
