//! What a search returns.

/// The candidate that is chosen for a name.
#[derive(Clone, Copy, Debug, PartialEq, Eq, Drop)]
pub struct Choice {
    pub name: usize,
    pub candidate: usize,
}

/// What a search found.
#[derive(Drop)]
pub enum Outcome {
    /// The selection, in the order in which the choices were made.
    Selected(Vec<Choice>),
    /// No selection fits.
    NoSelection,
    /// The steps were used up before either was known.
    Undecided,
}
