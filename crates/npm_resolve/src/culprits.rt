//! What cannot be met together, and what would fit in its place.
ghost use Rattle.std.specs.Prelude.{◌≡◌, IfOk, All, Contains, length, option_map};
ghost use Rattle.std.specs.List.{AllZip};
ghost use Rattle.version_solving.specs.Documents.{problem_of};
ghost use Rattle.version_solving.specs.Fitting.{IsChange};
ghost use Rattle.version_solving.specs.Naming.{IsAskOf};
ghost use Rattle.npm_resolve.specs.Explanations.{IsCulprit, fitting_key};
ghost use Rattle.npm_resolve.specs.Texts.{text};

use crate::Result;
use crate::conflict::Culprit;
use crate::explained::key_of;
use crate::posed::Posed;
use std::alloc::Global;
use version_solving::{Ask, Change, Demand, blamed_asks, changes};

/// What these demands of the root ask for, and what would fit in place of each.
pub(crate) fn culprits_of<'v>(
    alloc: Global,
    posed: &mut Posed<'v>,
    demands: &[Demand],
    steps: u64,
) -> Result<Vec<Culprit<'v>>>
    requires length { length posed.old.wishes.items ≡ length posed.old.root.items }
    requires within { All (Contains posed.old.root.items) demands.now }
    ensures { IfOk result (λ culprits. AllZip (IsCulprit posed.old) demands.now culprits.items) }
{
    let asks = blamed_asks(alloc, &posed.wishes, &posed.root, demands)?;
    let changes = changes(alloc, &posed.root, &mut posed.documents, demands, steps)?;
    all_told(alloc, posed, demands, &asks, &changes)
}

/// What each demand asks for, and the version of its change.
fn all_told<'v>(
    alloc: Global,
    posed: &Posed<'v>,
    demands: &[Demand],
    asks: &[Ask<'v>],
    changes: &[Change],
) -> Result<Vec<Culprit<'v>>>
    requires asks { AllZip (IsAskOf posed.now.wishes.items posed.now.root.items) demands.now asks.now }
    requires changes { AllZip (IsChange (problem_of posed.now.root.items posed.now.documents)) demands.now changes.now }
    ensures { IfOk result (λ culprits. AllZip (IsCulprit posed.now) demands.now culprits.items) }
{
    let mut culprits = Vec::with_capacity(alloc, demands.len())?;
    for (place, demand) in demands.iter().enumerate() {
        culprits.push(Culprit {
            ask: asks[place],
            would_fit: fitting_of(posed, *demand, changes[place]),
        })?;
    }
    Ok(culprits)
}

/// The version of a change of a demand, if it has one.
fn fitting_of<'v>(posed: &Posed<'v>, demand: Demand, change: Change) -> Option<&'v str>
    ensures { option_map text result ≡ fitting_key posed.now demand change }
{
    match change {
        Change::First(candidate) => Some(key_of(posed, demand.name, candidate)),
        Change::Nothing | Change::Undecided => None,
    }
}
