//! What is asked of names, as texts.

/// A demand of a name, with the text of its range.
#[derive(Clone, Copy, Debug, PartialEq, Eq, Drop)]
pub struct Ask<'v> {
    pub name: &'v str,
    pub spec: &'v str,
    /// The name must be selected. Else the demand only limits it.
    pub needed: bool,
}

/// A candidate, as what it asks.
#[derive(Drop)]
pub struct Asker<'v> {
    pub asks: Vec<Ask<'v>>,
}

/// A name and its candidates, the best first.
#[derive(Drop)]
pub struct Listed<'v> {
    pub name: &'v str,
    pub candidates: Vec<Asker<'v>>,
}
