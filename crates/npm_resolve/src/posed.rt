//! A problem of `version_solving`, and the texts that its numbers stand for.

use crate::instance::Offer;
use version_solving::{Ask, Demand, Documents, Listed, Wanted};

/// What is asked of the root, by texts and by numbers, and what numbers stand for.
#[derive(Drop)]
pub(crate) struct Posed<'v> {
    pub(crate) wishes: Vec<Ask<'v>>,
    pub(crate) offers: Vec<Offer<'v>>,
    /// The names by their numbers. Those of the offers are first.
    pub(crate) names: Vec<Listed<'v>>,
    /// The specs by the numbers of their ranges.
    pub(crate) ranges: Vec<Wanted<'v>>,
    pub(crate) root: Vec<Demand>,
    pub(crate) documents: Documents,
}
