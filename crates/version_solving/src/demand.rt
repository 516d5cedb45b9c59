//! What a root or a candidate demands of a name.

/// A demand of a name: a selected candidate of the name is one that the range allows.
///
/// A needed name must be selected. If the name is not needed, the demand only limits it: it holds where the name is not
/// selected, too.
#[derive(Clone, Copy, Debug, PartialEq, Eq, Drop)]
pub struct Demand {
    pub name: usize,
    pub range: usize,
    pub needed: bool,
}
