//! What cannot be met together, and why.

use version_solving::Ask;

/// What manifests ask for that cannot be met together, and without any one of which the others can.
#[derive(Drop)]
pub struct Conflict<'v> {
    pub culprits: Vec<Culprit<'v>>,
    /// Why the culprits cannot be met together: lines each of which is true, or follows from lines above it. The last one has no terms.
    /// `None` if it takes more steps than it may to find them.
    pub reasons: Option<Vec<Reason<'v>>>,
}

/// One of what cannot be met together.
#[derive(Clone, Copy, Debug, PartialEq, Eq, Drop)]
pub struct Culprit<'v> {
    pub ask: Ask<'v>,
    /// The first version of the name, outside the range that is asked for, with which all else that the manifests ask for can be met.
    /// `None` if there is no such version, or if it takes more steps than it may to find it.
    pub would_fit: Option<&'v str>,
}

/// A line: its terms never hold together.
#[derive(Drop)]
pub struct Reason<'v> {
    pub source: Source<'v>,
    pub terms: Vec<Term<'v>>,
}

/// Why a line is true.
#[derive(Drop)]
pub enum Source<'v> {
    /// The culprits have this wish.
    Root(Wish<'v>),
    /// Versions of the name ask for the wish: these, the preferred first.
    Versions(&'v str, Wish<'v>, Vec<&'v str>),
    /// Whatever is selected of the name, one of the lines with these numbers rules it out. The numbers begin with 0.
    Lines(&'v str, Vec<usize>),
}

/// What may be selected of a name.
#[derive(Clone, Copy, Debug, PartialEq, Eq, Drop)]
pub enum Term<'v> {
    /// A version of the name that asks for the wish.
    Asking(&'v str, Wish<'v>),
    /// Of the name of the wish, a version that its spec does not allow, or none where the wish needs one.
    Outside(Wish<'v>),
}

/// What several asks have in common: their name, maybe their spec, and maybe that they need the name.
#[derive(Clone, Copy, Debug, PartialEq, Eq, Drop)]
pub struct Wish<'v> {
    pub name: &'v str,
    /// `None` if it is a wish of any spec.
    pub spec: Option<&'v str>,
    pub needed: bool,
}
