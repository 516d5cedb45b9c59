//! What a line says, and why it is true.

use crate::Demand;

/// What several demands have in common: their name, maybe their range, and maybe that they need the name.
///
/// A wish without a range is one of any range.
#[derive(Clone, Copy, Debug, PartialEq, Eq, Drop)]
pub struct Wish {
    pub name: usize,
    pub range: Option<usize>,
    pub needed: bool,
}

/// What may be selected of a name.
#[derive(Clone, Copy, Debug, PartialEq, Eq, Drop)]
pub enum Term {
    /// A candidate of the name with a demand that makes the wish.
    Making(usize, Wish),
    /// Of the name of the wish, a candidate that its range does not allow, or none where the wish needs one.
    Against(Wish),
}

/// Why a line is true.
#[derive(Drop)]
pub enum Source {
    /// The root has this demand.
    Root(Demand),
    /// Candidates of the name have demands that make the wish.
    Candidates(usize, Wish),
    /// Whatever is selected of the name, one of the lines with these numbers rules it out. The numbers begin with 0.
    Lines(usize, Vec<usize>),
}

/// A line of an explanation: its terms never hold together.
#[derive(Drop)]
pub struct Reason {
    pub source: Source,
    pub terms: Vec<Term>,
}
