//! What is of a term.
ghost use Rattle.std.specs.Prelude.{◌≡◌, ◌↔◌, [], Contains, IsTrue};
ghost use Rattle.version_solving.specs.Documents.{problem_of};
ghost use Rattle.version_solving.specs.Wishes.{IsAgainst, IsOf, Makes, SomeMakes, name_of};

use crate::{Demand, Documents, Term, Wish};

/// Returns `true` if a demand makes a wish.
pub fn makes(wish: Wish, demand: Demand) -> bool
    ensures { IsTrue result ↔ Makes wish demand }
{
    let in_range = match wish.range {
        Some(range) => demand.range == range,
        None => true,
    };
    demand.name == wish.name && in_range && (demand.needed || !wish.needed)
}

/// Returns `true` if a demand of a candidate makes a wish.
fn some_makes(documents: &Documents, name: usize, candidate: usize, wish: Wish) -> bool
    ensures { IsTrue result ↔ SomeMakes (problem_of [] documents.now) name candidate wish }
{
    let demands = documents.demands(name, candidate);
    for demand in demands {
        if makes(wish, *demand) {
            return true;
        }
    }
    false
}

/// Returns `true` if what is selected of the name of a wish is against it.
fn is_against(documents: &Documents, wish: Wish, selected: Option<usize>) -> bool
    ensures { IsTrue result ↔ IsAgainst (problem_of [] documents.now) wish selected }
{
    let Some(candidate) = selected else {
        return wish.needed;
    };
    match wish.range {
        Some(range) => !documents.allows(range, candidate),
        None => false,
    }
}

/// Returns `true` if what is selected of the name of a term is of the term.
pub fn is_of(documents: &Documents, term: Term, selected: Option<usize>) -> bool
    ensures { IsTrue result ↔ IsOf (problem_of [] documents.now) term selected }
{
    match term {
        Term::Making(name, wish) => match selected {
            Some(candidate) => some_makes(documents, name, candidate, wish),
            None => false,
        },
        Term::Against(wish) => is_against(documents, wish, selected),
    }
}

/// Returns the name that a term is of.
pub fn name_of(term: Term) -> usize
    ensures { result ≡ name_of term }
{
    match term {
        Term::Making(name, _) => name,
        Term::Against(wish) => wish.name,
    }
}

/// Returns `true` if a term is among these.
pub fn has_term(terms: &[Term], term: Term) -> bool
    ensures { IsTrue result ↔ Contains terms.now term }
{
    terms.contains(&term)
}
