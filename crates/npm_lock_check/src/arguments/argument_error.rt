//! What is wrong with the arguments, beside what `clap` says of each.
use command_lines::Quoted;
use thiserror::Error;

/// What is wrong with the arguments, with the word that it is about.
#[derive(Clone, Copy, Debug, Drop, Error)]
pub enum ArgumentError<'a> {
    /// `-` is given twice.
    #[error("standard input is read once, and - is given twice; --help shows what is read")]
    SecondInput,
    /// A manifest is given for several lock files.
    #[error("--manifest goes with one FILE, and {0} is another; --help shows what is read")]
    ManyFiles(Quoted<'a>),
    /// The value of `--node` is no version.
    #[error("--node takes a version, as 20 or 20.11.1, and not {0}; --help lists the options")]
    NodeVersion(Quoted<'a>),
}
