//! Values of names: none, or a candidate.
ghost use Rattle.std.specs.Prelude.{◌≡◌, [], IsTrue};
ghost use Rattle.version_solving.specs.Documents.{problem_of};
ghost use Rattle.version_solving.specs.Private.Values.{IsBarredBy, IsHopeless, against, has};

use crate::certificate::Values;
use crate::{Demand, Documents};

impl Values {
    /// Returns `true` if a set has a value.
    pub fn has(&self, value: Option<usize>) -> bool
        ensures { result ≡ has self.now value }
    {
        match value {
            None => self.none,
            Some(candidate) => match self.candidates.get(candidate) {
                Some(is_there) => *is_there,
                None => false,
            },
        }
    }
}

/// Returns `true` if a demand does not allow a value of its name.
pub fn against(documents: &Documents, demand: Demand, value: Option<usize>) -> bool
    ensures { result ≡ against (problem_of [] documents.now) demand value }
{
    match value {
        None => demand.needed,
        Some(candidate) => !documents.allows(demand.range, candidate),
    }
}

/// Returns `true` if one of the demands is of a name, and does not allow a value of it.
pub fn is_barred(
    documents: &Documents,
    demands: &[Demand],
    name: usize,
    value: Option<usize>,
) -> bool
    ensures { IsTrue result → IsBarredBy (problem_of [] documents.now) demands.now name value }
{
    for demand in demands {
        if demand.name == name && against(documents, *demand, value) {
            return true;
        }
    }
    false
}

/// Returns `true` if a demand of a candidate cannot hold together with the candidate.
pub(crate) fn is_hopeless(
    documents: &Documents,
    name: usize,
    candidate: usize,
    demand: Demand,
) -> bool
    ensures { IsTrue result → IsHopeless (problem_of [] documents.now) name candidate demand }
{
    if demand.name == name {
        return !documents.allows(demand.range, candidate);
    }
    demand.needed && documents.count(demand.name) == 0
}
