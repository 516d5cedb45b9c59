//! The keys of numbers.
ghost use Rattle.std.specs.Prelude.{◌≡◌, ◌++◌, ◌<◌, ◌≤◌, ◌↔◌, IsTrue, OnErr, OnOk};
ghost use Rattle.semver_keys.specs.NumberKey as Keys;
ghost use Rattle.semver_keys.specs.Private.Grown.{IsGrown};

use std::alloc::AllocError;

// Numbers below this one are one byte.
pub(crate) const SHORT_NUMBERS: u64 = 240;

// Appends the key of a number. `inline`: most numbers are one byte.
#[inline]
#[tactic(auto, using(crate::proofs::NumberRules::key_rules))]
pub(crate) fn add_number(key: &mut Vec<u8>, n: u64) -> Result<(), AllocError>
    ensures added { OnOk result (key.new.items ≡ key.old.items ++ Keys.number_key n) }
    ensures grown { OnErr result (IsGrown key.old.items key.new.items) }
{
    if n < SHORT_NUMBERS {
        key.push(n as u8)?;
        Ok(())
    } else {
        add_long_number(key, n)
    }
}

// Appends the key of a number that is not one byte. `inline(never)`: few numbers are so large.
#[inline(never)]
#[tactic(auto, using(crate::proofs::NumberRules::bytes_rules))]
fn add_long_number(key: &mut Vec<u8>, n: u64) -> Result<(), AllocError>
    ensures added { OnOk result (key.new.items ≡ key.old.items ++ Keys.long_number_key n) }
    ensures grown { OnErr result (IsGrown key.old.items key.new.items) }
{
    let count = byte_count(n, 8);
    key.push(240 + count)?;
    add_bytes(key, n, count)
}

// The fewest bytes that hold a number, or the limit if it needs more: 0 for 0, 1 for 255, 2 for 256.
#[tactic(auto, using(crate::proofs::NumberRules::count_rules))]
pub(crate) fn byte_count(n: u64, limit: u8) -> u8
    ensures count { result ≡ Keys.byte_count limit n }
    ensures bound { result ≤ limit }
{
    if limit == 0 || n == 0 {
        return 0;
    }
    byte_count(n / 256, limit - 1) + 1
}

// Appends the lowest bytes of a number, so many of them, the highest first.
#[tactic(auto, using(crate::proofs::NumberRules::bytes_rules))]
fn add_bytes(key: &mut Vec<u8>, n: u64, count: u8) -> Result<(), AllocError>
    ensures added { OnOk result (key.new.items ≡ key.old.items ++ Keys.lowest_bytes count n) }
    ensures grown { OnErr result (IsGrown key.old.items key.new.items) }
{
    if count == 0 {
        return Ok(());
    }
    add_bytes(key, n / 256, count - 1)?;
    key.push((n % 256) as u8)?;
    Ok(())
}
