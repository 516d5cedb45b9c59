//! Whether lines are reasons.
ghost use Rattle.std.specs.Prelude.{◌≡◌, ◌<◌, ◌↔◌, ℕ, [], Contains, IsSomeAnd, IsTrue, Some, slice_get};
ghost use Rattle.version_solving.specs.Documents.{problem_of};
ghost use Rattle.version_solving.specs.Solving.{NoneFits};
ghost use Rattle.version_solving.specs.Reasons.{AreJustified, AreKept, AreRuledOut, Follows, IsJustified, IsKept, IsLastEmpty, IsMetBy, IsProof, IsRuledOut, KeepsOthers, RulesOut, wish_of};

use crate::reasoning::terms::{has_term, is_of, name_of};
use crate::{Demand, Documents, Reason, Source, Term, Wish};

/// Returns `true` if a term is of a name, or among these.
fn is_kept(term: Term, name: usize, terms: &[Term]) -> bool
    ensures { IsTrue result ↔ IsKept name terms.now term }
{
    name_of(term) == name || has_term(terms, term)
}

/// Returns `true` if the terms of other names in a line are among these.
fn keeps_others(reason: &Reason, name: usize, terms: &[Term]) -> bool
    ensures { IsTrue result ↔ KeepsOthers name terms.now reason.now }
{
    for term in &reason.terms {
        if !is_kept(*term, name, terms) {
            return false;
        }
    }
    true
}

/// Returns `true` if a line is above, and its terms of other names are among these.
fn is_line_kept(above: &[Reason], line: usize, name: usize, terms: &[Term]) -> bool
    ensures { IsTrue result ↔ IsSomeAnd (slice_get above.now line) (KeepsOthers name terms.now) }
{
    match above.get(line) {
        Some(reason) => keeps_others(reason, name, terms),
        None => false,
    }
}

/// Returns `true` if each of the lines is above, and its terms of other names are among these.
fn are_lines_kept(above: &[Reason], lines: &[usize], name: usize, terms: &[Term]) -> bool
    ensures { IsTrue result ↔ AreKept above.now lines.now name terms.now }
{
    for line in lines {
        if !is_line_kept(above, *line, name, terms) {
            return false;
        }
    }
    true
}

/// Returns `true` if a term has what is selected, if it is of the name.
fn is_met_by(documents: &Documents, term: Term, name: usize, selected: Option<usize>) -> bool
    ensures { IsTrue result ↔ IsMetBy (problem_of [] documents.now) name selected term }
{
    name_of(term) != name || is_of(documents, term, selected)
}

/// Returns `true` if a line rules out what is selected of a name.
fn rules_out(documents: &Documents, reason: &Reason, name: usize, selected: Option<usize>) -> bool
    ensures { IsTrue result ↔ RulesOut (problem_of [] documents.now) name selected reason.now }
{
    for term in &reason.terms {
        if !is_met_by(documents, *term, name, selected) {
            return false;
        }
    }
    true
}

/// Returns `true` if a line is above, and rules out what is selected of a name.
fn does_line_rule_out(
    documents: &Documents,
    above: &[Reason],
    line: usize,
    name: usize,
    selected: Option<usize>,
) -> bool
    ensures { IsTrue result ↔ IsSomeAnd (slice_get above.now line) (RulesOut (problem_of [] documents.now) name selected) }
{
    match above.get(line) {
        Some(reason) => rules_out(documents, reason, name, selected),
        None => false,
    }
}

/// Returns `true` if one of the lines rules out what is selected of a name.
pub fn is_ruled_out(
    documents: &Documents,
    above: &[Reason],
    name: usize,
    lines: &[usize],
    selected: Option<usize>,
) -> bool
    ensures { IsTrue result ↔ IsRuledOut (problem_of [] documents.now) above.now name lines.now selected }
{
    for line in lines {
        if does_line_rule_out(documents, above, *line, name, selected) {
            return true;
        }
    }
    false
}

/// Returns `true` if each candidate of a name is ruled out by one of the lines.
fn are_candidates_ruled_out(
    documents: &Documents,
    above: &[Reason],
    name: usize,
    lines: &[usize],
) -> bool
    ensures { IsTrue result ↔ ((candidate : ℕ) → candidate < (problem_of [] documents.now).count name → IsRuledOut (problem_of [] documents.now) above.now name lines.now (Some candidate)) }
{
    let count = documents.count(name);
    for candidate in 0..count {
        if !is_ruled_out(documents, above, name, lines, Some(candidate)) {
            return false;
        }
    }
    true
}

/// Returns `true` if the lines rule out whatever is selected of a name.
fn are_ruled_out(documents: &Documents, above: &[Reason], name: usize, lines: &[usize]) -> bool
    ensures { IsTrue result ↔ AreRuledOut (problem_of [] documents.now) above.now name lines.now }
{
    is_ruled_out(documents, above, name, lines, None)
        && are_candidates_ruled_out(documents, above, name, lines)
}

/// Returns `true` if the terms follow from the lines.
fn follows(
    documents: &Documents,
    above: &[Reason],
    name: usize,
    lines: &[usize],
    terms: &[Term],
) -> bool
    ensures { IsTrue result ↔ Follows (problem_of [] documents.now) above.now name lines.now terms.now }
{
    are_lines_kept(above, lines, name, terms) && are_ruled_out(documents, above, name, lines)
}

/// Returns the whole demand as a wish.
pub fn wish_of(demand: Demand) -> Wish
    ensures { result ≡ wish_of demand }
{
    Wish {
        name: demand.name,
        range: Some(demand.range),
        needed: demand.needed,
    }
}

/// Returns `true` if a demand is among these.
fn has_demand(demands: &[Demand], demand: Demand) -> bool
    ensures { IsTrue result ↔ Contains demands.now demand }
{
    demands.contains(&demand)
}

/// Returns `true` if a line is true of the root or of the documents, or follows from lines above it.
fn is_justified(root: &[Demand], documents: &Documents, above: &[Reason], reason: &Reason) -> bool
    ensures { IsTrue result ↔ IsJustified (problem_of root.now documents.now) above.now reason.now.source reason.now.terms.items }
{
    match &reason.source {
        Source::Root(demand) => {
            has_demand(root, *demand) && has_term(&reason.terms, Term::Against(wish_of(*demand)))
        }
        Source::Candidates(name, wish) => {
            has_term(&reason.terms, Term::Making(*name, *wish))
                && has_term(&reason.terms, Term::Against(*wish))
        }
        Source::Lines(name, lines) => follows(documents, above, *name, lines, &reason.terms),
    }
}

/// Returns `true` if each line is justified by those above it.
fn are_justified(root: &[Demand], documents: &Documents, lines: &[Reason]) -> bool
    ensures { IsTrue result ↔ AreJustified (problem_of root.now documents.now) lines.now }
{
    for place in 0..lines.len() {
        if !is_justified(root, documents, &lines[..place], &lines[place]) {
            return false;
        }
    }
    true
}

/// Returns `true` if the last line has no terms: it says that nothing fits.
fn is_last_empty(lines: &[Reason]) -> bool
    ensures { IsTrue result ↔ IsLastEmpty lines.now }
{
    match lines.last() {
        Some(reason) => reason.terms.is_empty(),
        None => false,
    }
}

/// Returns `true` if each line is true of the root or of the documents or follows from lines above it, and the last line says that
/// nothing fits.
///
/// No selection fits where this is `true`.
pub fn is_proof(root: &[Demand], documents: &Documents, lines: &[Reason]) -> bool
    ensures decides { IsTrue result ↔ IsProof (problem_of root.now documents.now) lines.now }
    ensures sound { IsTrue result → NoneFits (problem_of root.now documents.now) [] }
{
    is_last_empty(lines) && are_justified(root, documents, lines)
}
