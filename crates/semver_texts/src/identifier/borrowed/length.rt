//! The number of identifiers that a text writes, and copies of the list that borrow the same text.
ghost use Rattle.std.specs.Prelude.{◌≡◌, ◌+◌, ◌≤◌, ⊤, length};
ghost use Rattle.semver_texts.specs.IdentifierText.{IsListed, identifiers_of};

use crate::Identifiers;
use crate::parse::listed::split_first;
use std::alloc::AllocError;

impl<'a> Identifiers<'a> {
    /// Returns the number of identifiers that `next` has not returned yet.
    ///
    /// Goes over the text once.
    ///
    /// # Examples
    ///
    /// 2 for those of `alpha.1`, 0 if there are none.
    pub fn len(&self) -> usize
        ensures { result ≡ length self.now }
    {
        count_of(self.text)
    }
}

/// Returns a second list of the same identifiers, as `copy` does. Always returns `Ok`.
impl<'a> Clone for Identifiers<'a> {
    ghost is_clone = { λ i copy. copy ≡ i };

    ghost is_infallible = { λ i. ⊤ };

    #[inline]
    fn clone(&self) -> Result<Identifiers<'a>, AllocError> {
        Ok(self.copy())
    }
}

// The number of identifiers.
fn count_of(text: &[u8]) -> usize
    requires { IsListed text.now }
    ensures { result ≡ length (identifiers_of text.now) }
{
    let mut count: usize = 0;
    let mut rest = text;
    'identifiers: while !rest.is_empty() {
        (_, rest) = split_first(rest);
        count += 1;
    }
    count
}
