//! The intersection of two lists of spans.
ghost use Rattle.std.specs.Prelude.{◌≡◌, ◌++◌, OnOk};
ghost use Rattle.semver_cuts.specs.Joined.{AreMerged};
ghost use Rattle.semver_cuts.specs.CommonSpans.{common_of, common_spans, common_with};

use crate::Span;
use crate::algebra::Gather;
use crate::algebra::merged::MergedSpans;
use crate::algebra::near::first_near;
use std::alloc::AllocError;

// If the merged list has fewer spans than this, each pair of spans is tried.
const FEW_SPANS: usize = 3;

impl<'a, 'p, T: Ord> MergedSpans<'a, 'p, T> {
    /// Passes the intersection of `ones` and this list to `into`: for each span of `ones` and each span of this list,
    /// the span from the greater of their lower ends up to the lesser of their upper ends, if it contains a cut.
    ///
    /// The pairs of the first span of `ones` come first, in the order of this list. If two lower ends are equal, the
    /// reference to this list's is passed. If two upper ends are equal, the reference to that of `ones` is passed.
    ///
    /// # Errors
    ///
    /// Returns `AllocError` if an allocation or a call of `into` fails.
    ///
    /// # Memory
    ///
    /// Does not allocate, apart from what `into` allocates.
    ///
    /// # Examples
    ///
    /// Take a list of `Before(0)` up to `Before(1)` and `Before(3)` up to `Before(5)`. Its intersection with `After(0)`
    /// up to `Before(4)` is `After(0)` up to `Before(1)` and `Before(3)` up to `Before(4)`. Its intersection with
    /// `Before(1)` up to `Before(3)` is empty.
    pub fn common_with<S: Gather<'a, T>>(
        &self,
        ones: &'a [Span<T>],
        into: &mut S,
    ) -> Result<(), AllocError>
        ensures spans { OnOk result
            (S.gathered into.new ≡ S.gathered into.old ++ common_spans T.cmp ones.now self.now.list) }
    {
        let others = self.spans();
        if let ([this], [that]) = (ones, others) {
            return common_of(this, that, into);
        }
        if others.len() < FEW_SPANS || !self.is_list_merged() {
            return common_of_all(ones, others, into);
        }
        common_ascending(ones, others, into)
    }
}

// Passes the intersection of each span with each span, pair by pair.
fn common_of_all<'a, T: Ord, S: Gather<'a, T>>(
    ones: &'a [Span<T>],
    others: &'a [Span<T>],
    into: &mut S,
) -> Result<(), AllocError>
    ensures { OnOk result (S.gathered into.new ≡ S.gathered into.old ++ common_spans T.cmp ones.now others.now) }
{
    for one in ones {
        common_with(one, others, into)?;
    }
    Ok(())
}

// Passes the intersection of each span with each span, if the others are apart: for each span, the walk begins near
// the place where the walk for the one before it began.
fn common_ascending<'a, T: Ord, S: Gather<'a, T>>(
    ones: &'a [Span<T>],
    others: &'a [Span<T>],
    into: &mut S,
) -> Result<(), AllocError>
    requires { AreMerged T.cmp others.now }
    ensures { OnOk result (S.gathered into.new ≡ S.gathered into.old ++ common_spans T.cmp ones.now others.now) }
{
    let mut place = 0;
    for one in ones {
        place = common_along(one, others, place, into)?;
    }
    Ok(())
}

// Passes the intersection of two spans, if it contains a cut. `inline(always)`: it is the body of the inner loops.
#[inline(always)]
fn common_of<'a, T: Ord, S: Gather<'a, T>>(
    one: &'a Span<T>,
    other: &'a Span<T>,
    into: &mut S,
) -> Result<(), AllocError>
    ensures { OnOk result (S.gathered into.new ≡ S.gathered into.old ++ common_of T.cmp one.now other.now) }
{
    match one.ends_in_common(other) {
        Some((lower, upper)) => into.gather(lower, upper),
        None => Ok(()),
    }
}

// Passes the intersection of one span with each of the others. `inline(always)`: it is the inner loop of
// `common_of_all`.
#[inline(always)]
fn common_with<'a, T: Ord, S: Gather<'a, T>>(
    one: &'a Span<T>,
    others: &'a [Span<T>],
    into: &mut S,
) -> Result<(), AllocError>
    ensures { OnOk result (S.gathered into.new ≡ S.gathered into.old ++ common_with T.cmp one.now others.now) }
{
    for other in others {
        common_of(one, other, into)?;
    }
    Ok(())
}

// Passes the intersection of one span with each of the others, which are apart. Begins at the first of them that ends
// above where the span begins, which it looks for near `place`, and returns its place. `inline(never)`: it is one call
// for each span, and the loop over the spans stays small.
#[inline(never)]
fn common_along<'a, T: Ord, S: Gather<'a, T>>(
    one: &'a Span<T>,
    others: &'a [Span<T>],
    place: usize,
    into: &mut S,
) -> Result<usize, AllocError>
    requires { AreMerged T.cmp others.now }
    ensures { OnOk result (S.gathered into.new ≡ S.gathered into.old ++ common_with T.cmp one.now others.now) }
{
    let first = first_near(others, place, one.lower());
    common_until(one, &others[first..], into)?;
    Ok(first)
}

// Passes the intersection of one span with the others, up to the first that begins where the span ends or above.
// `inline`: it has one caller.
#[inline]
fn common_until<'a, T: Ord, S: Gather<'a, T>>(
    one: &'a Span<T>,
    others: &'a [Span<T>],
    into: &mut S,
) -> Result<(), AllocError>
    requires { AreMerged T.cmp others.now }
    ensures { OnOk result (S.gathered into.new ≡ S.gathered into.old ++ common_with T.cmp one.now others.now) }
{
    for other in others {
        if *one.upper() <= *other.lower() {
            return Ok(());
        }
        common_of(one, other, into)?;
    }
    Ok(())
}
