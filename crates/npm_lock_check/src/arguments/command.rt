//! The options of the program, with what `--help` says of each.

use crate::arguments::help::{
    ADVISORIES, AFTER, ALLOW, EXACT, EXCEPTIONS, FILE, FORMAT, IGNORE, MANIFEST, NODE, OMIT,
    OUTSIDE, REGISTRY, SEVERITY, SOURCES, STRICT, UNCHECKED,
};
use clap::{Arg, ArgAction, Command};
use npm_lock::PROBLEM_WORDS;
use std::alloc::{AllocError, Global};

/// The version that `--version`, a SARIF log and a page name.
pub const NUMBER: &str = "1.0.0";

/// Returns the options. Of two values of an option the last one counts, but a manifest and a file of advisories or of exceptions are
/// given once, since no file may go unread without a word.
pub fn command<'a>(alloc: Global) -> Result<Command<'a>, AllocError> {
    let command = Command::new(alloc, "npm_lock_check")
        .version(NUMBER)
        .about("Checks the packages of a package-lock.json against what they depend on.")
        .after_help(AFTER)
        .no_binary_name(true)
        .next_line_help(true)
        .hide_possible_values(true)
        .arg(
            Arg::new(alloc, "FILE")
                .action(ArgAction::Append)
                .num_args(0..)
                .help(FILE),
        )?;
    with_advisories(alloc, with_sources(alloc, with_checks(alloc, command)?)?)?.arg(
        option(alloc, "format", "FORMAT", FORMAT)
            .overrides_with("format")?
            .value_parser(["text", "json", "github", "sarif", "html", "junit"].as_slice()),
    )
}

/// Adds the options of what is checked.
fn with_checks<'a>(alloc: Global, command: Command<'a>) -> Result<Command<'a>, AllocError> {
    command
        .arg(option(alloc, "node", "VERSION", NODE).overrides_with("node")?)?
        .arg(path(alloc, "manifest", MANIFEST))?
        .arg(flag(alloc, "exact", EXACT)?)?
        .arg(flag(alloc, "outside", OUTSIDE)?)?
        .arg(flag(alloc, "unchecked", UNCHECKED)?)?
        .arg(flag(alloc, "strict", STRICT)?)?
        .arg(
            option(alloc, "ignore", "KIND", IGNORE)
                .action(ArgAction::Append)
                .value_parser(PROBLEM_WORDS.as_slice()),
        )?
        .arg(
            option(alloc, "omit", "GROUP", OMIT)
                .action(ArgAction::Append)
                .value_parser(["dev", "optional"].as_slice()),
        )
}

/// Adds the options of where packages come from.
fn with_sources<'a>(alloc: Global, command: Command<'a>) -> Result<Command<'a>, AllocError> {
    command.arg(flag(alloc, "sources", SOURCES)?)?.arg(option(
        alloc, "registry", "URL", REGISTRY,
    ).action(ArgAction::Append))
}

/// Adds the options of advisories.
fn with_advisories<'a>(alloc: Global, command: Command<'a>) -> Result<Command<'a>, AllocError> {
    command
        .arg(path(alloc, "advisories", ADVISORIES))?
        .arg(flag(alloc, "allow-no-advisories", ALLOW)?)?
        .arg(
            option(alloc, "severity", "LEVEL", SEVERITY)
                .overrides_with("severity")?
                .ignore_case(true)
                .value_parser(["info", "low", "moderate", "high", "critical"].as_slice()),
        )?
        .arg(path(alloc, "exceptions", EXCEPTIONS))
}

/// An option with no value, which may be given twice.
fn flag<'a>(alloc: Global, name: &'a str, help: &'a str) -> Result<Arg<'a>, AllocError> {
    Arg::new(alloc, name)
        .long(name)
        .action(ArgAction::SetTrue)
        .help(help)
        .overrides_with(name)
}

/// An option with a value.
fn option<'a>(alloc: Global, name: &'a str, value: &'a str, help: &'a str) -> Arg<'a> {
    Arg::new(alloc, name)
        .long(name)
        .value_name(value)
        .help(help)
}

/// An option whose value is the path of a file, which may begin with `-`.
fn path<'a>(alloc: Global, name: &'a str, help: &'a str) -> Arg<'a> {
    option(alloc, name, "FILE", help).allow_hyphen_values(true)
}
