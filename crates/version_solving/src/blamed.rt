//! The asks that demands stand for.
ghost use Rattle.std.specs.Prelude.{◌≡◌, ◌<◌, IfOk, Some, All, Contains, length, slice_get};
ghost use Rattle.std.specs.List.{AllZip};
ghost use Rattle.version_solving.specs.Naming.{IsAskOf};

use crate::ask::Ask;
use crate::{Demand, Result};
use std::alloc::Global;

/// Returns an ask for each of these demands, which are some of all demands: the first one whose demand it is.
///
/// # Memory
///
/// Allocates the list.
pub fn blamed_asks<'v>(
    alloc: Global,
    asks: &[Ask<'v>],
    demands: &[Demand],
    some: &[Demand],
) -> Result<Vec<Ask<'v>>>
    requires length { length asks.now ≡ length demands.now }
    requires within { All (Contains demands.now) some.now }
    ensures { IfOk result (λ blamed. AllZip (IsAskOf asks.now demands.now) some.now blamed.items) }
{
    let mut blamed = Vec::new(alloc);
    for demand in some {
        let place = place_of(demands, *demand);
        blamed.push(asks[place])?;
    }
    Ok(blamed)
}

/// The first place of a demand that is one of them.
pub(crate) fn place_of(demands: &[Demand], wanted: Demand) -> usize
    requires { Contains demands.now wanted }
    ensures inside { result < length demands.now }
    ensures there { slice_get demands.now result ≡ Some wanted }
{
    for (place, demand) in demands.iter().enumerate() {
        if *demand == wanted {
            return place;
        }
    }
    unreachable!()
}
