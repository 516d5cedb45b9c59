//! Errors of the arguments.
use command_lines::Quoted;
use thiserror::Error;

/// An error of the arguments, with the word that it is about.
#[derive(Clone, Copy, Debug, Drop, Error)]
pub enum ArgumentError<'a> {
    /// More words than are read.
    #[error("more than 1000 arguments; --help lists the options")]
    TooMany,
    /// A word that is no option, or an option that is not known.
    #[error("no such option: {0}; --help lists the options")]
    UnknownOption(Quoted<'a>),
    /// An option that has a value is the last word.
    #[error("{0} has no value; --help lists the options")]
    NoValue(Quoted<'a>),
    /// The value of `--format` is no format.
    #[error("--format takes text, json or lock, and not {0}; --help lists the options")]
    Format(Quoted<'a>),
    /// The value of `--omit` is no group.
    #[error("--omit takes dev, optional or peer, and not {0}; --help lists the options")]
    Omit(Quoted<'a>),
    /// An option that has no meaning for a tree.
    #[error("{0} takes --flat or --peers; --help lists the options")]
    NotOfTrees(&'static str),
    /// The folder of this manifest is not that of a workspace.
    #[error("--manifest {0}: the folder of a workspace is below that of the first manifest, in no node_modules, and has one manifest; --help lists the options")]
    NoWorkspace(Quoted<'a>),
    /// A lock file is asked for, and dependencies of versions do not count.
    #[error("--format lock takes no --peers: with it dependencies of versions are not selected; --help lists the options")]
    LockNotFlat,
    /// A lock file is asked for, and a group is left out.
    #[error("--format lock takes no --omit: a lock file has all groups; --help lists the options")]
    LockOmits,
    /// A lock file is asked for, and several manifests are named.
    #[error("--format lock with --flat takes one --manifest; --help lists the options")]
    LockOfManifests,
    /// No manifest is named.
    #[error("--manifest FILE is missing; --help lists the options")]
    NoManifest,
    /// No folder of packuments is named.
    #[error("--packuments FOLDER is missing; --help lists the options")]
    NoPackuments,
    /// The value of `--steps` is no number.
    #[error("--steps takes a number below 18446744073709551616, and not {0}; --help lists the options")]
    Steps(Quoted<'a>),
}
