//! Errors of the arguments.
use command_lines::Quoted;
use thiserror::Error;

/// An error of the arguments, with the word that it is about.
#[derive(Clone, Copy, Debug, Drop, Error)]
pub enum ArgumentError<'a> {
    /// More words than are read.
    #[error("more than 1000 arguments; --help lists the options")]
    TooMany,
    /// An option that is not known.
    #[error("no such option: {0}; --help lists the options")]
    UnknownOption(Quoted<'a>),
    /// A second word that is no option.
    #[error("more than one SPEC: {0} is the second; --help shows what is read")]
    SecondSpec(Quoted<'a>),
    /// An option that has a value is the last word.
    #[error("{0} has no value; --help lists the options")]
    NoValue(Quoted<'a>),
    /// The value of `--format` is no format.
    #[error("--format takes text or json, and not {0}; --help lists the options")]
    Format(Quoted<'a>),
    /// No packument is named.
    #[error("--packument FILE is missing; --help lists the options")]
    NoPackument,
    /// No folder of packuments is named.
    #[error("--packuments FOLDER is missing, which {0} takes; --help lists the options")]
    NoPackuments(&'static str),
    /// No lock file is named.
    #[error("--lock FILE is missing, which --outdated takes; --help lists the options")]
    NoLock,
    /// Neither a manifest nor a lock file is named.
    #[error("--manifest FILE or --lock FILE is missing, which --keep takes; --help lists the options")]
    NoManifest,
    /// `--outdated` and `--keep`.
    #[error("--outdated and --keep are not done at once; --help shows what is read")]
    TwoTasks,
    /// A version, a tag or a range after an option that allows none.
    #[error("{0} takes no SPEC, and not {1}; --help shows what is read")]
    NoSpec(&'static str, Quoted<'a>),
}
