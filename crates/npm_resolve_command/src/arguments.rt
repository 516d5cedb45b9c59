//! Reads the arguments of the program.
use crate::argument_error::ArgumentError;
use crate::program_error::ProgramError;
use command_lines::{MAX_WORDS, Quoted, Shown};
use npm_pick_reports::parts_of;
use npm_resolve::{Omits, Reach};
use npm_resolve_reports::{Format, RunError};
use std::alloc::Global;

/// What the arguments mean. A text is the value of the last option of its name.
#[derive(Drop)]
pub struct Arguments<'a> {
    pub shown: Option<Shown>,
    pub format: Format,
    /// A folder of packuments.
    pub packuments: Option<&'a str>,
    /// All manifests.
    pub manifests: Vec<&'a str>,
    /// What counts of a version, by the last option that says so. `None`: npm's tree of folders is asked for.
    pub reach: Option<Reach>,
    /// Each group that is left out.
    pub omits: Omits,
    pub tag: Option<&'a str>,
    pub before: Option<&'a str>,
    pub node: Option<&'a str>,
    /// An operating system.
    pub os: Option<&'a str>,
    /// A processor.
    pub cpu: Option<&'a str>,
    /// A C library.
    pub libc: Option<&'a str>,
    /// The lowest versions are preferred.
    pub lowest: bool,
    /// A lock file.
    pub lock: Option<&'a str>,
    pub steps: Option<&'a str>,
}

impl<'a> Arguments<'a> {
    /// What no argument means.
    fn nothing(alloc: Global) -> Arguments<'a> {
        Arguments {
            shown: None,
            format: Format::Text,
            packuments: None,
            manifests: Vec::new(alloc),
            reach: None,
            omits: Omits {
                dev: false,
                optional: false,
                peer: false,
            },
            tag: None,
            before: None,
            node: None,
            os: None,
            cpu: None,
            libc: None,
            lowest: false,
            lock: None,
            steps: None,
        }
    }

    /// Sets an option that has no value. Returns `false` if the word is no such option.
    fn set_flag(&mut self, word: &str) -> bool {
        match word {
            "--peers" => self.reach = Some(Reach::Peers),
            "--flat" => self.reach = Some(Reach::Dependencies),
            "--lowest" => self.lowest = true,
            "--help" | "-h" => self.shown = Some(Shown::Help),
            "--version" | "-V" => self.shown = Some(Shown::Version),
            _ => return false,
        }
        true
    }

    /// Sets an option to its value. Returns `false` if the name is that of no option with a value.
    fn set(&mut self, name: &str, text: &'a str) -> Result<bool, ProgramError<'a>> {
        match name {
            "--packuments" => self.packuments = Some(text),
            "--manifest" => {
                if self.manifests.push(text).is_err() {
                    return Err(ProgramError::Run(RunError::Memory));
                }
            }
            "--omit" => self.omit(text)?,
            "--tag" => self.tag = Some(text),
            "--before" => self.before = Some(text),
            "--node" => self.node = Some(text),
            "--os" => self.os = Some(text),
            "--cpu" => self.cpu = Some(text),
            "--libc" => self.libc = Some(text),
            "--lock" => self.lock = Some(text),
            "--steps" => self.steps = Some(text),
            "--format" => self.format = format_of(text)?,
            _ => return Ok(false),
        }
        Ok(true)
    }

    /// Leaves out a group.
    fn omit(&mut self, text: &'a str) -> Result<(), ArgumentError<'a>> {
        match text {
            "dev" => self.omits.dev = true,
            "optional" => self.omits.optional = true,
            "peer" => self.omits.peer = true,
            _ => return Err(ArgumentError::Omit(Quoted { text })),
        }
        Ok(())
    }

    /// Adds the argument that begins with this word. Returns the words after it.
    fn add(&mut self, word: &'a str, rest: &'a [String]) -> Result<&'a [String], ProgramError<'a>> {
        if self.set_flag(word) {
            return Ok(rest);
        }
        let (name, value, after) = parts_of(word, rest);
        let fault = match (self.set(name, value.unwrap_or("")), value) {
            (Ok(true), Some(_)) => return Ok(after),
            (Err(error), Some(_)) => return Err(error),
            (Ok(true) | Err(_), None) => ArgumentError::NoValue(Quoted { text: name }),
            (Ok(false), _) => ArgumentError::UnknownOption(Quoted { text: word }),
        };
        Err(ProgramError::Argument(fault))
    }
}

/// The format that the text names.
fn format_of(text: &str) -> Result<Format, ArgumentError<'_>> {
    match text {
        "text" => Ok(Format::Text),
        "json" => Ok(Format::Json),
        "lock" => Ok(Format::Lock),
        _ => Err(ArgumentError::Format(Quoted { text })),
    }
}

/// Reads the words after the program's name. Of two values of an option the last one counts, but each manifest and each group
/// of `--omit` does.
///
/// # Errors
///
/// Returns the first fault of an argument.
pub fn read_arguments<'a>(
    alloc: Global,
    words: &'a [String],
) -> Result<Arguments<'a>, ProgramError<'a>> {
    if MAX_WORDS < words.len() {
        return Err(ProgramError::Argument(ArgumentError::TooMany));
    }
    let mut asked = Arguments::nothing(alloc);
    let mut left = words;
    for _ in 0..MAX_WORDS {
        let Some((word, rest)) = left.split_first() else {
            break;
        };
        left = asked.add(word.as_str(), rest)?;
    }
    Ok(asked)
}
