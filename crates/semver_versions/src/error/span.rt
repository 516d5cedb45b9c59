//! The place of a fault.
ghost use Rattle.std.specs.Prelude.{◌≡◌};
ghost use Rattle.semver_versions.specs.ErrorParts.{span_offset, span_len};

/// A place in a text: a byte offset and a length in bytes.
///
/// Two places are equal exactly if both numbers are equal. The places in this crate's errors have length 0: each is
/// before the byte at its offset, or at the end of the text.
///
/// # Examples
///
/// The errors of the versions `1.2` and `3.4` have equal places. Those of `1.2` and `1.` have different places.
#[derive(Clone, Copy, Debug, PartialEq, Eq)]
pub struct SourceSpan {
    pub(super) offset: usize,
    pub(super) length: usize,
}

impl SourceSpan {
    /// Returns the byte offset of the place, counted from 0.
    ///
    /// # Examples
    ///
    /// 2 for the error of the version `1.`.
    pub fn offset(&self) -> usize
        ensures { result ≡ span_offset self.now }
    {
        self.offset
    }

    /// Returns the length of the place in bytes, which is 0 in every error.
    ///
    /// # Examples
    ///
    /// 0 for the error of the version `1.`.
    pub fn len(&self) -> usize
        ensures { result ≡ span_len self.now }
    {
        self.length
    }
}
