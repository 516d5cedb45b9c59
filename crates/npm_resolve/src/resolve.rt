//! The versions that fit together.
ghost use Rattle.std.specs.Prelude.{◌≡◌, [], IfOk, IfSome, length};
ghost use Rattle.version_solving.specs.Documents.{problem_of};
ghost use Rattle.version_solving.specs.Solving.{NoneFits};
ghost use Rattle.npm_resolve.specs.Answers.{IsAnswer, IsResolution};
ghost use Rattle.npm_resolve.specs.Explanations.{AreReasons, IsConflict};

use crate::Result;
use crate::absent::{Named, with_absent};
use crate::answer::{Answer, Resolution};
use crate::candidates::{Asks, Omits, Options, Reach};
use crate::chosen::all_chosen;
use crate::conflict::{Conflict, Reason};
use crate::culprits::culprits_of;
use crate::documents::Document;
use crate::explained::all_explained;
use crate::instance::{lists_of, offers_of, ranges_of};
use crate::optional::{root_demands, unmet_names};
use crate::posed::Posed;
use crate::rules::{rules_of, unread_among};
use crate::wishes::wishes_of;
use serde_json::Value;
use std::alloc::Global;
use version_solving::{Demand, Documents, Numbered, Outcome, by_number, culprits, reasons, solve};

/// Returns versions that fit together: of the names that manifests need, and of those that their versions need, one version each, so
/// that all that is asked for is met. A version needs its peers and, by `Reach::Dependencies`, its `dependencies`. A name without a
/// document has no versions; one that a version needs is told in the answer. An optional dependency of the root that no version meets only
/// limits, and is told too.
///
/// `overrides` of the first manifest, which is the root, change what the manifests and the versions ask for. Those of other manifests
/// do not count. A rule that is not read changes nothing, and is told in the answer.
///
/// If no selection fits, it returns what the manifests ask for that cannot be met together, and why. For each of these it returns the
/// first version outside the range that is asked for with which all else that the manifests ask for can be met, if it finds one.
///
/// Names are chosen in the order in which they are first needed. Each choice is the first of the versions of its name with which a
/// selection that fits exists, the earlier choices kept: the version that `npm_pick` would pick, where it fits.
///
/// # Errors
///
/// An allocation failed.
///
/// # Memory
///
/// Allocates an entry for each version of each document, for each name that it asks for and for each range, and what `solve` takes. If
/// no selection fits, the memory grows with the steps that the search for the reasons takes.
pub fn resolved<'v>(
    alloc: Global,
    manifests: &'v [Value],
    documents: &'v [Document],
    options: &Options<'_>,
    reach: Reach,
    omits: Omits,
    steps: u64,
) -> Result<Answer<'v>>
    ensures { IfOk result (IsAnswer manifests.now documents.now options.now reach omits) }
{
    let rules = rules_of(alloc, manifests)?;
    let Asks { asks, left_out } = wishes_of(alloc, manifests, &rules, omits)?;
    let offers = offers_of(alloc, documents, options)?;
    let listed = lists_of(alloc, &offers, reach, &rules, omits)?;
    let Named { names, missing } = with_absent(alloc, &asks, listed)?;
    let unread = unread_among(alloc, &rules, &names)?;
    let Numbered {
        root: demands,
        packages,
        ranges: wanted,
    } = by_number(alloc, &asks, &names)?;
    let ranges = ranges_of(alloc, &offers, &wanted, options.before)?;
    let unmet = unmet_names(alloc, manifests, &names, &ranges, &demands)?;
    let root = root_demands(alloc, manifests, &names, &ranges, &demands)?;
    let mut posed = Posed {
        wishes: asks,
        offers,
        names,
        ranges: wanted,
        root,
        documents: Documents { packages, ranges },
    };
    let resolution = resolution_of(alloc, &mut posed, steps)?;
    Ok(Answer {
        resolution,
        left_out,
        unread,
        unmet,
        missing,
    })
}

/// Solves a problem, and names what it says.
fn resolution_of<'v>(alloc: Global, posed: &mut Posed<'v>, steps: u64) -> Result<Resolution<'v>>
    requires { length posed.old.wishes.items ≡ length posed.old.root.items }
    ensures { IfOk result (IsResolution posed.old) }
{
    match solve(alloc, &posed.root, &posed.documents, steps)? {
        Outcome::Selected(choices) => Ok(Resolution::Selected(all_chosen(
            alloc,
            &posed.offers,
            &choices,
        )?)),
        Outcome::NoSelection => Ok(Resolution::NoSelection(conflict_of(alloc, posed, steps)?)),
        Outcome::Undecided => Ok(Resolution::Undecided),
    }
}

/// What cannot be met together, and why, where no selection fits.
fn conflict_of<'v>(alloc: Global, posed: &mut Posed<'v>, steps: u64) -> Result<Option<Conflict<'v>>>
    requires length { length posed.old.wishes.items ≡ length posed.old.root.items }
    requires none { NoneFits (problem_of posed.old.root.items posed.old.documents) [] }
    ensures { IfOk result (λ found. IfSome found (IsConflict posed.old)) }
{
    match culprits(alloc, &posed.root, &posed.documents, steps)? {
        Some(demands) => Ok(Some(Conflict {
            reasons: reasons_of(alloc, posed, &demands, steps)?,
            culprits: culprits_of(alloc, posed, &demands, steps)?,
        })),
        None => Ok(None),
    }
}

/// Why demands of the root cannot be met together.
fn reasons_of<'v>(
    alloc: Global,
    posed: &Posed<'v>,
    demands: &[Demand],
    steps: u64,
) -> Result<Option<Vec<Reason<'v>>>>
    ensures { IfOk result (λ found. IfSome found (λ reasons. AreReasons posed.now demands.now reasons.items)) }
{
    match reasons(alloc, demands, &posed.documents, steps)? {
        Some(lines) => Ok(Some(all_explained(alloc, posed, &lines)?)),
        None => Ok(None),
    }
}
