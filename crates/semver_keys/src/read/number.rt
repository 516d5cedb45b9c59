//! The numbers that keys begin with.
ghost use Rattle.std.specs.Prelude.{◌≡◌, ◌∷◌, ◌≤◌, IfNone, IfSome, length};
ghost use Rattle.semver_keys.specs.NumberKey.{lowest_bytes};
ghost use Rattle.semver_keys.specs.Lemmas.NumberOrder.{Fits};
ghost use Rattle.semver_keys.specs.Private.Reading.{BeginsWithNoNumber, IsNumberRead};

use crate::number::{SHORT_NUMBERS, byte_count};

// The number whose key the bytes begin with, and the rest. `inline`: most numbers are one byte.
#[inline]
pub(crate) fn read_number(key: &[u8]) -> Option<(u64, &[u8])>
    ensures read { IfSome result (λ r. IsNumberRead key.now r.0 r.1.now) }
    ensures none { IfNone result (BeginsWithNoNumber key.now) }
{
    let Some((first, rest)) = key.split_first() else {
        return None;
    };
    let first = *first;
    if u64::from(first) < SHORT_NUMBERS {
        return Some((u64::from(first), rest));
    }
    read_long_number(first, rest)
}

// The number whose key is not one byte, and the rest. `inline(never)`: few numbers are so large.
#[inline(never)]
fn read_long_number(first: u8, rest: &[u8]) -> Option<(u64, &[u8])>
    requires { 240 ≤ first }
    ensures read { IfSome result (λ r. IsNumberRead (first ∷ rest.now) r.0 r.1.now) }
    ensures none { IfNone result (BeginsWithNoNumber (first ∷ rest.now)) }
{
    let count = first - 240;
    if count > 8 {
        return None;
    }
    let Some((bytes, others)) = rest.split_at_checked(usize::from(count)) else {
        return None;
    };
    let n = number_of(bytes);
    if n < SHORT_NUMBERS {
        return None;
    }
    if byte_count(n, 8) != count {
        return None;
    }
    Some((n, others))
}

// The number with these bytes, the highest first.
fn number_of(bytes: &[u8]) -> u64
    requires { length bytes.now ≤ 8 }
    ensures fits { Fits (length bytes.now) result }
    ensures bytes { lowest_bytes (length bytes.now) result ≡ bytes.now }
{
    let mut n = 0u64;
    'bytes: for byte in bytes {
        n = n * 256 + u64::from(*byte);
    }
    n
}
