//! Lines of reasons in names, specs and versions.
ghost use Rattle.std.specs.Prelude.{◌≡◌, IfOk, map};
ghost use Rattle.std.specs.List.{AllZip};
ghost use Rattle.npm_resolve.specs.Explanations as Explanations;
ghost use Rattle.npm_resolve.specs.Explanations.{AreKeysOf, IsReasonOf, IsSource, IsTerm, IsWish};
ghost use Rattle.npm_resolve.specs.Texts.{text};

use crate::Result;
use crate::conflict::{Reason, Source, Term, Wish};
use crate::posed::Posed;
use std::alloc::Global;
use version_solving::is_of;

/// The lines in names, specs and versions, one after the other.
pub(crate) fn all_explained<'v>(
    alloc: Global,
    posed: &Posed<'v>,
    lines: &[version_solving::Reason],
) -> Result<Vec<Reason<'v>>>
    ensures { IfOk result (λ reasons. AllZip (IsReasonOf posed.now) lines.now reasons.items) }
{
    let mut reasons = Vec::with_capacity(alloc, lines.len())?;
    for line in lines {
        reasons.push(Reason {
            source: source_of(alloc, posed, &line.source)?,
            terms: terms_of(alloc, posed, &line.terms)?,
        })?;
    }
    Ok(reasons)
}

/// The source of a line.
fn source_of<'v>(
    alloc: Global,
    posed: &Posed<'v>,
    source: &version_solving::Source,
) -> Result<Source<'v>>
    ensures { IfOk result (λ found. IsSource posed.now source.now found) }
{
    match source {
        version_solving::Source::Root(demand) => {
            let wish = version_solving::Wish {
                name: demand.name,
                range: Some(demand.range),
                needed: demand.needed,
            };
            Ok(Source::Root(wish_of(posed, wish)))
        }
        version_solving::Source::Candidates(name, wish) => {
            let keys = keys_of(alloc, posed, *name, *wish)?;
            Ok(Source::Versions(name_of(posed, *name), wish_of(posed, *wish), keys))
        }
        version_solving::Source::Lines(name, lines) => {
            let numbers = Vec::from_slice(alloc, lines)?;
            Ok(Source::Lines(name_of(posed, *name), numbers))
        }
    }
}

/// The terms of a line.
fn terms_of<'v>(
    alloc: Global,
    posed: &Posed<'v>,
    terms: &[version_solving::Term],
) -> Result<Vec<Term<'v>>>
    ensures { IfOk result (λ found. AllZip (IsTerm posed.now) terms.now found.items) }
{
    let mut found = Vec::with_capacity(alloc, terms.len())?;
    for term in terms {
        found.push(term_of(posed, *term))?;
    }
    Ok(found)
}

/// A term.
fn term_of<'v>(posed: &Posed<'v>, term: version_solving::Term) -> Term<'v>
    ensures { IsTerm posed.now term result }
{
    match term {
        version_solving::Term::Making(name, wish) => {
            Term::Asking(name_of(posed, name), wish_of(posed, wish))
        }
        version_solving::Term::Against(wish) => Term::Outside(wish_of(posed, wish)),
    }
}

/// A wish.
fn wish_of<'v>(posed: &Posed<'v>, wish: version_solving::Wish) -> Wish<'v>
    ensures { IsWish posed.now wish result }
{
    let spec = match wish.range {
        Some(range) => Some(spec_of(posed, range)),
        None => None,
    };
    Wish {
        name: name_of(posed, wish.name),
        spec,
        needed: wish.needed,
    }
}

/// The name with this number.
fn name_of<'v>(posed: &Posed<'v>, number: usize) -> &'v str
    ensures { result.now ≡ Explanations.name_of posed.now number }
{
    match posed.names.get(number) {
        Some(one) => one.name,
        None => "",
    }
}

/// The spec of the range with this number.
fn spec_of<'v>(posed: &Posed<'v>, number: usize) -> &'v str
    ensures { result.now ≡ Explanations.spec_of posed.now number }
{
    match posed.ranges.get(number) {
        Some(wanted) => wanted.spec,
        None => "",
    }
}

/// The keys of the candidates of a name that ask for a wish, in their order.
fn keys_of<'v>(
    alloc: Global,
    posed: &Posed<'v>,
    name: usize,
    wish: version_solving::Wish,
) -> Result<Vec<&'v str>>
    ensures { IfOk result (λ keys. AreKeysOf posed.now name wish (map text keys.items)) }
{
    let term = version_solving::Term::Making(name, wish);
    let mut keys = Vec::new(alloc);
    for candidate in 0..posed.documents.count(name) {
        if is_of(&posed.documents, term, Some(candidate)) {
            keys.push(key_of(posed, name, candidate))?;
        }
    }
    Ok(keys)
}

/// The key of a candidate of a name.
pub(crate) fn key_of<'v>(posed: &Posed<'v>, name: usize, candidate: usize) -> &'v str
    ensures { result.now ≡ Explanations.key_at posed.now name candidate }
{
    match posed.offers.get(name) {
        Some(offer) => crate::chosen::key_of(offer, candidate),
        None => "",
    }
}
