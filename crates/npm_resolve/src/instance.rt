//! The problem that documents pose.
ghost use Rattle.std.specs.Prelude.{◌≡◌, IfOk};
ghost use Rattle.std.specs.List.{AllZip};
ghost use Rattle.npm_packages.specs.Rules.{rule_at};
ghost use Rattle.npm_resolve.specs.Meanings.{MeaningValue, Means};
ghost use Rattle.npm_resolve.specs.Instance as Posing;
ghost use Rattle.npm_resolve.specs.Instance.{AreAllowed, AreListed, AreRanges, IsAllowed, IsListedFor, IsMeaningFor, IsOffer, IsRangeFor};

use crate::Result;
use crate::candidates::{
    Candidate, Meaning, Omits, Options, Owner, Reach, asks_of, meaning_of, offered_of,
};
use crate::documents::Document;
use npm_packages::Rules;
use npm_texts::registry_spec;
use serde_json::Value;
use std::alloc::Global;
use version_solving::{Asker, Listed, Range, Wanted};

/// A name and its candidates, the locked one and then the best first.
#[derive(Drop)]
pub(crate) struct Offer<'v> {
    pub(crate) name: &'v str,
    pub(crate) package: &'v str,
    pub(crate) packument: &'v Value,
    pub(crate) candidates: Vec<Candidate<'v>>,
}

/// The candidates of all documents.
pub(crate) fn offers_of<'v>(
    alloc: Global,
    documents: &'v [Document],
    options: &Options<'_>,
) -> Result<Vec<Offer<'v>>>
    ensures { IfOk result (λ offers. AllZip (IsOffer options.now) documents.now offers.items) }
{
    let mut offers = Vec::with_capacity(alloc, documents.len())?;
    for document in documents {
        offers.push(offer_of(alloc, document, options)?)?;
    }
    Ok(offers)
}

/// The candidates of a document.
fn offer_of<'v>(alloc: Global, document: &'v Document, options: &Options<'_>) -> Result<Offer<'v>>
    ensures { IfOk result (IsOffer options.now document.now) }
{
    Ok(Offer {
        name: document.name.as_str(),
        package: document.package.as_str(),
        packument: &document.packument,
        candidates: offered_of(alloc, document.name.as_str(), &document.packument, options)?,
    })
}

/// What the candidates of all names ask.
pub(crate) fn lists_of<'v>(
    alloc: Global,
    offers: &[Offer<'v>],
    reach: Reach,
    rules: &Rules<'v>,
    omits: Omits,
) -> Result<Vec<Listed<'v>>>
    ensures { IfOk result (λ listed. AllZip (IsListedFor reach (rule_at rules.now) omits) offers.now listed.items) }
{
    let mut lists = Vec::with_capacity(alloc, offers.len())?;
    for offer in offers {
        lists.push(Listed {
            name: offer.name,
            candidates: askers_of(alloc, &offer.candidates, reach, rules, omits)?,
        })?;
    }
    Ok(lists)
}

/// What candidates ask.
fn askers_of<'v>(
    alloc: Global,
    candidates: &[Candidate<'v>],
    reach: Reach,
    rules: &Rules<'v>,
    omits: Omits,
) -> Result<Vec<Asker<'v>>>
    ensures { IfOk result (λ askers. AreListed reach (rule_at rules.now) omits candidates.now askers.items) }
{
    let mut askers = Vec::with_capacity(alloc, candidates.len())?;
    for candidate in candidates {
        let owner = Owner::Version(reach);
        let found = asks_of(alloc, candidate.manifest, owner, rules, omits)?;
        askers.push(Asker { asks: found.asks })?;
    }
    Ok(askers)
}

/// Which candidates ranges allow.
pub(crate) fn ranges_of(
    alloc: Global,
    offers: &[Offer<'_>],
    wanted: &[Wanted<'_>],
    before: Option<i128>,
) -> Result<Vec<Range>>
    ensures { IfOk result (λ ranges. AreRanges before offers.now wanted.now ranges.items) }
{
    let mut ranges = Vec::with_capacity(alloc, wanted.len())?;
    for one in wanted {
        ranges.push(range_of(alloc, offers, *one, before)?)?;
    }
    Ok(ranges)
}

/// Which candidates of its name a range allows.
fn range_of(
    alloc: Global,
    offers: &[Offer<'_>],
    wanted: Wanted<'_>,
    before: Option<i128>,
) -> Result<Range>
    ensures { IfOk result (IsRangeFor before offers.now wanted.entry) }
{
    match offers.get(wanted.name) {
        Some(offer) => allowed_of(alloc, offer, wanted.spec, before),
        None => Ok(Range {
            allowed: Vec::new(alloc),
        }),
    }
}

/// Which candidates a spec allows.
fn allowed_of(alloc: Global, offer: &Offer<'_>, spec: &str, before: Option<i128>) -> Result<Range>
    ensures { IfOk result (λ range. IsAllowed before spec.now range offer.now) }
{
    let meaning = meaning_for(alloc, offer, spec, before)?;
    let allowed = allowed_by(alloc, &meaning, &offer.candidates)?;
    Ok(Range { allowed })
}

/// Whether each candidate is allowed.
fn allowed_by(alloc: Global, meaning: &Meaning, candidates: &[Candidate<'_>]) -> Result<Vec<bool>>
    ensures { IfOk result (λ allowed. (value : MeaningValue) → Means meaning.now value
        → AreAllowed value candidates.now allowed.items) }
{
    let mut allowed = Vec::with_capacity(alloc, candidates.len())?;
    for candidate in candidates {
        allowed.push(meaning.allows(candidate))?;
    }
    Ok(allowed)
}

/// What a spec means for a name. An alias of another package than that of the name allows nothing. A spec for the name itself allows
/// versions whichever package has the name, as npm does.
fn meaning_for(
    alloc: Global,
    offer: &Offer<'_>,
    spec: &str,
    before: Option<i128>,
) -> Result<Meaning>
    ensures { IfOk result (λ meaning. (value : MeaningValue) × IsMeaningFor before offer.now spec.now value × Means meaning value) }
{
    let Some(request) = registry_spec(offer.name, spec) else {
        return Ok(Meaning::Nothing);
    };
    if is_for(request.name, offer) {
        meaning_of(alloc, offer.packument, before, request.text)
    } else {
        Ok(Meaning::Nothing)
    }
}

/// Returns `true` if a spec for this package is met by versions of the package of a name: it is for that package, or for the name itself.
fn is_for(asked: &str, offer: &Offer<'_>) -> bool
    ensures { result ≡ Posing.is_for asked.now offer.now }
{
    asked == offer.package || asked == offer.name
}
