//! What a search says of its answer, to be checked.
use crate::Choice;

/// Why values of a name are ruled out.
#[derive(Clone, Copy, Drop)]
pub enum Step {
    /// A demand of the root, by its place, does not allow them.
    Ask(usize),
    /// What these candidates of the name demand cannot hold.
    Own(usize),
    /// No candidate that is left of the first name allows them, which are of the second name.
    Forward(usize, usize),
    /// They are of the first name, and allow nothing that is left of the second name.
    Backward(usize, usize),
    /// The lesson with this number rules them out, which are of this name.
    Learnt(usize, usize),
}

/// A set of values of a name: whether it has that none is selected, and whether it has each candidate. It has no candidate past the end.
#[derive(Drop)]
pub struct Values {
    pub none: bool,
    pub candidates: Vec<bool>,
}

/// A name, and some of its values.
#[derive(Drop)]
pub struct Term {
    pub name: usize,
    pub values: Values,
}

/// Values of several names that are never selected together, and the steps that say so.
#[derive(Drop)]
pub struct Lesson {
    pub terms: Vec<Term>,
    pub steps: Vec<Step>,
}

/// A step, or a choice.
#[derive(Clone, Copy, Drop)]
pub enum Move {
    Step(Step),
    Choose(Choice),
}

/// What a search found.
#[derive(Drop)]
pub enum Claim {
    /// Choices, and what rules out better ones.
    Selected(Vec<Move>),
    /// Choices in any order.
    Fitting(Vec<Choice>),
    /// The last lesson has no terms.
    NoSelection,
    /// The steps were used up.
    Undecided,
}
