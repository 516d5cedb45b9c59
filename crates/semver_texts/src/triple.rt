//! The three numbers of a version.
ghost use Rattle.std.specs.Prelude.{◌≡◌, Some, refl};
ghost use Rattle.std.specs.Cmp.{po};
ghost use Rattle.semver_texts.specs.Lemmas.Order.{triple_total, triples_tie};
ghost use Rattle.semver_texts.specs.Triple.{triple_cmp};

use std::cmp::Ordering;

/// A major, a minor and a patch. Triples are ordered by the major, then by the minor, then by the patch.
///
/// # Examples
///
/// The triple of `1.9.9` is less than that of `2.0.0`.
///
/// # Source
///
/// SemVer 2.0.0, sections 2 and 11.
#[derive(Clone, Copy, Debug, PartialEq, Eq)]
pub struct Triple {
    pub major: u64,
    pub minor: u64,
    pub patch: u64,
}

impl Triple {
    /// Returns the triple of these numbers.
    // `inline(always)`: three moves.
    #[inline(always)]
    pub fn new(major: u64, minor: u64, patch: u64) -> Triple
        ensures { result ≡ record { major = major; minor = minor; patch = patch } }
    {
        Triple {
            major,
            minor,
            patch,
        }
    }
}

impl PartialOrd for Triple {
    ghost partial_cmp = { λ t u. Some (triple_cmp t u) };

    ghost laws = { po triple_total triples_tie };

    #[inline(always)]
    fn partial_cmp(&self, other: &Triple) -> Option<Ordering> {
        Some(self.cmp(other))
    }
}

// `Ord` is written by hand, since the derived one takes more instructions. `inline(always)`: the usual result is that
// of one comparison.
impl Ord for Triple {
    ghost cmp = { triple_cmp };

    ghost total = { triple_total };

    ghost matches_partial_cmp = { λ t u. refl };

    ghost matches_eq = { triples_tie };

    #[inline(always)]
    fn cmp(&self, other: &Triple) -> Ordering {
        if self.major != other.major {
            return self.major.cmp(&other.major);
        }
        if self.minor != other.minor {
            return self.minor.cmp(&other.minor);
        }
        if self.patch != other.patch {
            return self.patch.cmp(&other.patch);
        }
        Ordering::Equal
    }
}
