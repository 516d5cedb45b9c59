//! The versions that choices stand for.
ghost use Rattle.std.specs.Prelude.{◌≡◌, IfOk, map};
ghost use Rattle.npm_resolve.specs.Answers as Answers;
ghost use Rattle.npm_resolve.specs.Answers.{chosen_value};
ghost use Rattle.npm_resolve.specs.Instance as Instance;

use crate::Result;
use crate::answer::Chosen;
use crate::instance::Offer;
use std::alloc::Global;
use version_solving::Choice;

/// The versions that choices stand for, one after the other.
pub(crate) fn all_chosen<'v>(
    alloc: Global,
    offers: &[Offer<'v>],
    choices: &[Choice],
) -> Result<Vec<Chosen<'v>>>
    ensures { IfOk result (λ chosen. map chosen_value chosen.items ≡ map (Answers.chosen_of offers.now) choices.now) }
{
    let mut chosen = Vec::with_capacity(alloc, choices.len())?;
    for choice in choices {
        chosen.push(chosen_of(offers, *choice))?;
    }
    Ok(chosen)
}

/// The version that a choice stands for.
fn chosen_of<'v>(offers: &[Offer<'v>], choice: Choice) -> Chosen<'v>
    ensures { chosen_value result ≡ Answers.chosen_of offers.now choice }
{
    match offers.get(choice.name) {
        Some(offer) => Chosen {
            name: offer.name,
            package: offer.package,
            key: key_of(offer, choice.candidate),
        },
        None => Chosen {
            name: "",
            package: "",
            key: "",
        },
    }
}

/// The key of a candidate.
pub(crate) fn key_of<'v>(offer: &Offer<'v>, candidate: usize) -> &'v str
    ensures { result.now ≡ Instance.key_of offer.now candidate }
{
    match offer.candidates.get(candidate) {
        Some(candidate) => candidate.key,
        None => "",
    }
}
