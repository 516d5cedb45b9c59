//! The demands of the root and of the choices so far.
ghost use Rattle.std.specs.Prelude.{◌≡◌, ◌≤◌, [], length, take, IsTrue, ◌↔◌, All, IfNone, IfSome, MatchOption, None, Some};
ghost use Rattle.version_solving.specs.Documents.{problem_of};
ghost use Rattle.version_solving.specs.Solving.{first_open, is_open};
ghost use Rattle.version_solving.specs.Private.Paths.{Allows, in_table};

use crate::{Demand, Documents};

/// Returns the candidate that is chosen for a name.
pub fn chosen(table: &[Option<usize>], name: usize) -> Option<usize>
    ensures { result ≡ in_table table.now name }
{
    match table.get(name) {
        Some(candidate) => *candidate,
        None => None,
    }
}

/// Returns `true` if the name of a demand is not chosen, or has a candidate that the demand allows.
fn allows(documents: &Documents, demand: Demand, table: &[Option<usize>]) -> bool
    ensures { IsTrue result ↔ Allows (problem_of [] documents.now) (in_table table.now) demand }
{
    match chosen(table, demand.name) {
        Some(candidate) => documents.allows(demand.range, candidate),
        None => true,
    }
}

/// Returns `true` if a demand needs a name that is not chosen.
fn is_open(demand: Demand, table: &[Option<usize>]) -> bool
    ensures { result ≡ is_open (in_table table.now) demand }
{
    demand.needed && chosen(table, demand.name).is_none()
}

/// A name that is needed and not chosen, and the place of the demand that needs it.
#[derive(Clone, Copy, Drop)]
pub struct Open {
    pub name: usize,
    pub place: usize,
}

/// Returns the name of the first open demand. The demands before `from` are not open.
pub fn first_open(demands: &[Demand], table: &[Option<usize>], from: usize) -> Option<Open>
    requires { first_open (in_table table.now) (take from demands.now) ≡ None }
    ensures name { MatchOption result (first_open (in_table table.now) demands.now ≡ None) (λ found. first_open (in_table table.now) demands.now ≡ Some found.name) }
    ensures within { IfSome result (λ found. found.place ≤ length demands.now) }
    ensures place { IfSome result (λ found. first_open (in_table table.now) (take found.place demands.now) ≡ None) }
{
    for place in from..demands.len() {
        let demand = demands[place];
        if is_open(demand, table) {
            return Some(Open {
                name: demand.name,
                place,
            });
        }
    }
    None
}

/// Returns the first demand that does not allow what is chosen.
pub fn first_violated(
    documents: &Documents,
    demands: &[Demand],
    table: &[Option<usize>],
) -> Option<Demand>
    ensures { IfNone result (All (Allows (problem_of [] documents.now) (in_table table.now)) demands.now) }
{
    for demand in demands {
        if !allows(documents, *demand, table) {
            return Some(*demand);
        }
    }
    None
}
