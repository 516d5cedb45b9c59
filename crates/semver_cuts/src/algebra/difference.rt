//! The difference of two lists of spans: the part of one list outside the other.
ghost use Rattle.std.specs.Prelude.{◌≡◌, ◌++◌, List, OnOk};
ghost use Rattle.semver_cuts.specs.Ends.{Ends};
ghost use Rattle.semver_cuts.specs.Difference.{AreDifference, ArePieces};

use crate::Span;
use crate::algebra::Gather;
use crate::algebra::merged::MergedSpans;
use std::alloc::AllocError;

impl<'a, 'p, T: Ord> MergedSpans<'a, 'p, T> {
    /// Subtracts this list from `ones`, and passes the difference to `into`: for each span of `ones`, its greatest
    /// pieces that lie in no span of this list, in ascending order.
    ///
    /// A cut lies in one of the pieces of a span exactly if it lies in the span and in none of this list. No two pieces
    /// of a span touch. The pieces of an earlier span come first, and those of one span lowest first. A span that
    /// shares no cut with this list is its own piece. A span whose cuts all lie in this list has no piece.
    ///
    /// A piece begins and ends where its span does, or at an end of a span of this list. If several spans of this list
    /// have an end at that cut, the reference to that of the first one is passed.
    ///
    /// # Errors
    ///
    /// Returns `AllocError` if a call of `into` fails.
    ///
    /// # Memory
    ///
    /// Does not allocate, apart from what `into` allocates.
    ///
    /// # Examples
    ///
    /// 5 to 6 and 2 to 3, subtracted from 1 to 9, leave 1 to 2, 3 to 5 and 6 to 9. 0 to 5 and 5 to 9, subtracted from 1
    /// to 9, leave nothing.
    pub fn subtract_from<S: Gather<'a, T>>(
        &self,
        ones: &'a [Span<T>],
        into: &mut S,
    ) -> Result<(), AllocError>
        ensures difference { OnOk result ((spans : List (Ends T)) × AreDifference T.cmp ones.now self.now.list spans
            × (S.gathered into.new ≡ S.gathered into.old ++ spans)) }
    {
        let _others = self.spans();
        for one in ones {
            add_pieces(one, self, into)?;
        }
        Ok(())
    }
}

// Passes the pieces of one span to `into`, lowest first.
fn add_pieces<'a, T: Ord, S: Gather<'a, T>>(
    one: &'a Span<T>,
    others: &MergedSpans<'a, '_, T>,
    into: &mut S,
) -> Result<(), AllocError>
    ensures { OnOk result ((pieces : List (Ends T)) × ArePieces T.cmp others.now.list one.now pieces
        × (S.gathered into.new ≡ S.gathered into.old ++ pieces)) }
{
    let (mut low, high) = one.ends();
    for number in others.first_above(low)..others.len() {
        let (lower, upper) = others.ends(number);
        if *lower >= *high {
            break;
        }
        if *low < *lower {
            into.gather(low, lower)?;
        }
        if *upper >= *high {
            return Ok(());
        }
        low = upper;
    }
    into.gather(low, high)
}
