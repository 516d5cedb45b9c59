//! The request of a command line, as npm's command reads it.
use npm_semver::{Bump, IdentifierBase};
use std::alloc::{AllocError, Global};

/// Which of the versions that are left are written.
#[derive(Clone, Copy, Drop)]
pub enum Listing {
    /// All of them, in order of precedence.
    Ordered,
    /// All of them, in the order they came.
    Unsorted,
    /// Only the least.
    Least,
    /// Only the greatest.
    Greatest,
}

/// The options without a value.
#[derive(Clone, Copy, Drop)]
pub struct Options {
    pub help: bool,
    /// The last one that is given.
    pub listing: Listing,
    /// As a JSON array of strings.
    pub json: bool,
    /// In descending order.
    pub reverse: bool,
    /// Ranges are read in loose form.
    pub loose: bool,
    /// Prereleases need no end that is a prerelease of their triple.
    pub include_prerelease: bool,
    /// A version is what `coerce` finds in a text.
    pub coerce: bool,
    /// It is looked for from the right.
    pub rtl: bool,
    /// The sets of the ranges are written, and no version.
    pub explain: bool,
}

impl Options {
    /// Sets the option that this word names. Returns `false` if it names none.
    fn set(&mut self, name: &str) -> bool {
        match name {
            "-l" | "--loose" => self.loose = true,
            "-p" | "--include-prerelease" => self.include_prerelease = true,
            "-c" | "--coerce" => self.coerce = true,
            "--rtl" => self.rtl = true,
            "--ltr" => self.rtl = false,
            "-rv" | "-rev" | "--rev" | "--reverse" => self.reverse = true,
            "-h" | "--help" | "-?" => self.help = true,
            "--unsorted" => self.listing = Listing::Unsorted,
            "--least" => self.listing = Listing::Least,
            "--greatest" => self.listing = Listing::Greatest,
            "--json" => self.json = true,
            "--explain" => self.explain = true,
            _ => return false,
        }
        true
    }
}

/// The words that are left: the rest of one that was divided at its `=`, and those after it.
#[derive(Clone, Copy, Drop)]
struct Words<'a> {
    first: Option<&'a str>,
    rest: &'a [String],
}

impl<'a> Words<'a> {
    /// Takes the next word.
    fn take(&mut self) -> Option<&'a str> {
        if let Some(first) = self.first {
            self.first = None;
            return Some(first);
        }
        let (first, rest) = self.rest.split_first()?;
        self.rest = rest;
        Some(first.as_str())
    }

    /// Takes the next word up to its first `=`. The text after the `=` is then the next word: `--inc=major` is `--inc major`.
    fn take_name(&mut self) -> Option<&'a str> {
        let word = self.take()?;
        match word.split_once('=') {
            Some((name, value)) => {
                self.first = Some(value);
                Some(name)
            }
            None => Some(word),
        }
    }

    /// Takes the next word if it names the level of an increment; if not, the level is the patch.
    fn take_level(&mut self) -> Bump {
        let mut later = *self;
        let level = level_of(later.take().unwrap_or(""));
        match level {
            Some(level) => {
                *self = later;
                level
            }
            None => Bump::Patch,
        }
    }
}

/// The level of an increment that the word names.
fn level_of(word: &str) -> Option<Bump> {
    Some(match word {
        "major" => Bump::Major,
        "minor" => Bump::Minor,
        "patch" => Bump::Patch,
        "prerelease" => Bump::PreRelease,
        "premajor" => Bump::PreMajor,
        "preminor" => Bump::PreMinor,
        "prepatch" => Bump::PrePatch,
        _ => return None,
    })
}

/// The request of a command line.
#[derive(Drop)]
pub struct Asked<'a> {
    pub options: Options,
    pub increment: Option<Bump>,
    /// The text after the last `--preid`.
    pub identifier: Option<&'a str>,
    pub base: IdentifierBase,
    /// The texts that may be versions.
    pub versions: Vec<&'a str>,
    /// The texts after each `--range`; `None` for one that is the last word.
    pub ranges: Vec<Option<&'a str>>,
}

impl<'a> Asked<'a> {
    /// Returns the request without arguments.
    fn nothing(alloc: Global) -> Asked<'a> {
        Asked {
            options: Options {
                help: false,
                listing: Listing::Ordered,
                json: false,
                reverse: false,
                loose: false,
                include_prerelease: false,
                coerce: false,
                rtl: false,
                explain: false,
            },
            increment: None,
            identifier: None,
            base: IdentifierBase::Zero,
            versions: Vec::new(alloc),
            ranges: Vec::new(alloc),
        }
    }

    /// Adds the argument that begins with this name, and takes its value from the words. The value is the next word whole,
    /// so `--range=>=1.2` has the range `>=1.2`. A name that is no option is a version, whatever it is.
    fn add(&mut self, name: &'a str, words: &mut Words<'a>) -> Result<(), AllocError> {
        match name {
            "-r" | "--range" => self.ranges.push(words.take())?,
            "-i" | "--inc" | "--increment" => self.increment = Some(words.take_level()),
            "--preid" => self.identifier = words.take(),
            "-n" => self.base = base_of(words.take()),
            "-v" | "--version" => {
                if let Some(version) = words.take() {
                    self.versions.push(version)?;
                }
            }
            _ => {
                if !self.options.set(name) {
                    self.versions.push(name)?;
                }
            }
        }
        Ok(())
    }
}

/// The number that a new prerelease begins with, by the text after `-n`.
fn base_of(text: Option<&str>) -> IdentifierBase {
    match text {
        Some("false") => IdentifierBase::Absent,
        Some("1") => IdentifierBase::One,
        Some(_) | None => IdentifierBase::Zero,
    }
}

/// Returns the request of the words after the program's name.
///
/// Of two values of an option the last one counts, but each version and each range does.
///
/// # Errors
///
/// Returns `AllocError` if an allocation fails.
///
/// # Memory
///
/// Allocates the lists of versions and of ranges. The texts stay in the words.
pub fn read_arguments<'a>(alloc: Global, words: &'a [String]) -> Result<Asked<'a>, AllocError> {
    let mut asked = Asked::nothing(alloc);
    let mut left = Words {
        first: None,
        rest: words,
    };
    for _ in 0..u64::MAX {
        let Some(name) = left.take_name() else {
            break;
        };
        asked.add(name, &mut left)?;
    }
    Ok(asked)
}
