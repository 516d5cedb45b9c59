//! What the manifests of a root ask for.
ghost use Rattle.std.specs.Prelude.{IfOk, OnOk, map};
ghost use Rattle.serde_json.specs.View.{view};
ghost use Rattle.npm_packages.specs.Rules.{rule_at};
ghost use Rattle.npm_resolve.specs.Asks.{AskValue, ask_value};
ghost use Rattle.npm_resolve.specs.Wishes.{AreWishes};
ghost use Rattle.npm_resolve.specs.Private.Wishing.{AreWishesAdded};

use crate::Result;
use crate::candidates::{Asks, Omits, Owner, asks_of};
use npm_packages::Rules;
use serde_json::Value;
use std::alloc::Global;

/// What these manifests ask a registry for, one manifest after the other, and what is left out.
pub(crate) fn wishes_of<'v>(
    alloc: Global,
    manifests: &'v [Value],
    rules: &Rules<'v>,
    omits: Omits,
) -> Result<Asks<'v>>
    ensures { IfOk result (λ found. AreWishes (rule_at rules.now) omits manifests.now (map ask_value found.asks.items)
        (map ask_value found.left_out.items)) }
{
    let mut wishes = Asks {
        asks: Vec::new(alloc),
        left_out: Vec::new(alloc),
    };
    for manifest in manifests {
        add_wishes(alloc, &mut wishes, manifest, rules, omits)?;
    }
    Ok(wishes)
}

/// Adds what one manifest asks for.
fn add_wishes<'v>(
    alloc: Global,
    wishes: &mut Asks<'v>,
    manifest: &'v Value,
    rules: &Rules<'v>,
    omits: Omits,
) -> Result<()>
    ensures { OnOk result (AreWishesAdded (rule_at rules.now) omits (view manifest.now) wishes.old wishes.new) }
{
    let found = asks_of(alloc, manifest, Owner::Root, rules, omits)?;
    wishes.asks.extend_from_slice(&found.asks)?;
    wishes.left_out.extend_from_slice(&found.left_out)?;
    Ok(())
}
