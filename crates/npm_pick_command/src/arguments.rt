//! Reads the arguments of the program.
use crate::argument_error::ArgumentError;
use crate::program_error::ProgramError;
use command_lines::{MAX_WORDS, Quoted, Shown};
use npm_pick_reports::{Format, RunError, parts_of};
use std::alloc::Global;

/// What the arguments mean. A text is the value of the last option of its name.
#[derive(Drop)]
pub struct Arguments<'a> {
    pub shown: Option<Shown>,
    pub format: Format,
    pub packument: Option<&'a str>,
    /// A folder of packuments.
    pub packuments: Option<&'a str>,
    /// A lock file.
    pub lock: Option<&'a str>,
    /// All manifests.
    pub manifests: Vec<&'a str>,
    pub outdated: bool,
    pub keep: bool,
    /// All packages of the lock file count, and not only the root.
    pub all: bool,
    pub tag: Option<&'a str>,
    pub before: Option<&'a str>,
    pub avoid: Option<&'a str>,
    pub avoid_strict: bool,
    pub include_staged: bool,
    pub node: Option<&'a str>,
    pub npm: Option<&'a str>,
    pub spec: Option<&'a str>,
}

impl<'a> Arguments<'a> {
    /// What no argument means.
    fn nothing(alloc: Global) -> Arguments<'a> {
        Arguments {
            shown: None,
            format: Format::Text,
            packument: None,
            packuments: None,
            lock: None,
            manifests: Vec::new(alloc),
            outdated: false,
            keep: false,
            all: false,
            tag: None,
            before: None,
            avoid: None,
            avoid_strict: false,
            include_staged: false,
            node: None,
            npm: None,
            spec: None,
        }
    }

    /// Sets an option that has no value. Returns `false` if the word is no such option.
    fn set_flag(&mut self, word: &str) -> bool {
        match word {
            "--outdated" => self.outdated = true,
            "--keep" => self.keep = true,
            "--all" => self.all = true,
            "--avoid-strict" => self.avoid_strict = true,
            "--include-staged" => self.include_staged = true,
            "--help" | "-h" => self.shown = Some(Shown::Help),
            "--version" | "-V" => self.shown = Some(Shown::Version),
            _ => return false,
        }
        true
    }

    /// Sets an option to its value. Returns `false` if the name is that of no option with a value.
    fn set(&mut self, name: &str, text: &'a str) -> Result<bool, ProgramError<'a>> {
        match name {
            "--packument" => self.packument = Some(text),
            "--packuments" => self.packuments = Some(text),
            "--lock" => self.lock = Some(text),
            "--manifest" => {
                if self.manifests.push(text).is_err() {
                    return Err(ProgramError::Run(RunError::Memory));
                }
            }
            "--tag" => self.tag = Some(text),
            "--before" => self.before = Some(text),
            "--avoid" => self.avoid = Some(text),
            "--node" => self.node = Some(text),
            "--npm" => self.npm = Some(text),
            "--format" => self.format = format_of(text)?,
            _ => return Ok(false),
        }
        Ok(true)
    }

    /// Adds the argument that begins with this word. Returns the words after it.
    fn add(&mut self, word: &'a str, rest: &'a [String]) -> Result<&'a [String], ProgramError<'a>> {
        if self.set_flag(word) {
            return Ok(rest);
        }
        let (name, value, after) = parts_of(word, rest);
        match (self.set(name, value.unwrap_or("")), value) {
            (Ok(true), Some(_)) => Ok(after),
            (Err(error), Some(_)) => Err(error),
            (Ok(true) | Err(_), None) => Err(ProgramError::Argument(ArgumentError::NoValue(Quoted {
                text: name,
            }))),
            (Ok(false), _) => {
                self.add_spec(word)?;
                Ok(rest)
            }
        }
    }

    /// Adds the version, the tag or the range, which is given once.
    fn add_spec(&mut self, text: &'a str) -> Result<(), ArgumentError<'a>> {
        if text.starts_with("-") {
            return Err(ArgumentError::UnknownOption(Quoted { text }));
        }
        if self.spec.is_some() {
            return Err(ArgumentError::SecondSpec(Quoted { text }));
        }
        self.spec = Some(text);
        Ok(())
    }
}

/// The format that the text names.
fn format_of(text: &str) -> Result<Format, ArgumentError<'_>> {
    match text {
        "text" => Ok(Format::Text),
        "json" => Ok(Format::Json),
        _ => Err(ArgumentError::Format(Quoted { text })),
    }
}

/// Reads the words after the program's name. Of two values of an option the last one counts.
///
/// # Errors
///
/// Returns the first fault of an argument.
pub fn read_arguments<'a>(
    alloc: Global,
    words: &'a [String],
) -> Result<Arguments<'a>, ProgramError<'a>> {
    if MAX_WORDS < words.len() {
        return Err(ProgramError::Argument(ArgumentError::TooMany));
    }
    let mut asked = Arguments::nothing(alloc);
    let mut left = words;
    for _ in 0..MAX_WORDS {
        let Some((word, rest)) = left.split_first() else {
            break;
        };
        left = asked.add(word.as_str(), rest)?;
    }
    Ok(asked)
}
