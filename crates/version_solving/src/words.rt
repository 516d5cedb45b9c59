//! Sets of values of a name, in words of 64 bits: bit 0 is that none is selected, and bit `i + 1` is candidate `i`.
//!
//! What lies outside a list is 0, so nothing here can fail.

/// The word at a place.
pub(crate) fn word(words: &[u64], at: usize) -> u64 {
    match words.get(at) {
        Some(word) => *word,
        None => 0,
    }
}

/// Writes a word.
pub(crate) fn put(words: &mut [u64], at: usize, word: u64) {
    if let Some(place) = words.get_mut(at) {
        *place = word;
    }
}

/// The number at a place.
pub(crate) fn number(numbers: &[usize], at: usize) -> usize {
    match numbers.get(at) {
        Some(number) => *number,
        None => 0,
    }
}

/// Writes a number.
pub(crate) fn put_number(numbers: &mut [usize], at: usize, number: usize) {
    if let Some(place) = numbers.get_mut(at) {
        *place = number;
    }
}

/// A word with one bit.
fn bit(value: usize) -> u64 {
    1_u64 << (value % 64)
}

/// Returns `true` if a set, which begins at a place, has a value.
pub(crate) fn has(words: &[u64], first: usize, value: usize) -> bool {
    word(words, first.wrapping_add(value / 64)) & bit(value) != 0
}

/// Adds a value to a set.
pub(crate) fn add(words: &mut [u64], first: usize, value: usize) {
    let at = first.wrapping_add(value / 64);
    let old = word(words, at);
    put(words, at, old | bit(value));
}

/// Takes a value out of a set.
pub(crate) fn remove(words: &mut [u64], first: usize, value: usize) {
    let at = first.wrapping_add(value / 64);
    let old = word(words, at);
    put(words, at, old & !bit(value));
}

/// Returns `true` if two sets of so many words share a value.
pub(crate) fn meets(left: &[u64], first: usize, right: &[u64], other: usize, width: usize) -> bool {
    for k in 0..width {
        let shared = word(left, first.wrapping_add(k)) & word(right, other.wrapping_add(k));
        if shared != 0 {
            return true;
        }
    }
    false
}

/// Returns `true` if a set of so many words is within another.
pub(crate) fn within(
    left: &[u64],
    first: usize,
    right: &[u64],
    other: usize,
    width: usize,
) -> bool {
    for k in 0..width {
        let outside = word(left, first.wrapping_add(k)) & !word(right, other.wrapping_add(k));
        if outside != 0 {
            return false;
        }
    }
    true
}

/// Replaces a set of so many words by another.
pub(crate) fn copy(into: &mut [u64], first: usize, from: &[u64], other: usize, width: usize) {
    for k in 0..width {
        let new = word(from, other.wrapping_add(k));
        put(into, first.wrapping_add(k), new);
    }
}

/// Adds the values of another set.
pub(crate) fn join(into: &mut [u64], first: usize, from: &[u64], other: usize, width: usize) {
    for k in 0..width {
        let at = first.wrapping_add(k);
        let new = word(into, at) | word(from, other.wrapping_add(k));
        put(into, at, new);
    }
}

/// Keeps the values of another set alone.
pub(crate) fn keep(into: &mut [u64], first: usize, from: &[u64], other: usize, width: usize) {
    for k in 0..width {
        let at = first.wrapping_add(k);
        let new = word(into, at) & word(from, other.wrapping_add(k));
        put(into, at, new);
    }
}

/// Takes the values of another set out.
pub(crate) fn drop_all(into: &mut [u64], first: usize, from: &[u64], other: usize, width: usize) {
    for k in 0..width {
        let at = first.wrapping_add(k);
        let new = word(into, at) & !word(from, other.wrapping_add(k));
        put(into, at, new);
    }
}

/// Empties a set.
pub(crate) fn clear(into: &mut [u64], first: usize, width: usize) {
    for k in 0..width {
        put(into, first.wrapping_add(k), 0);
    }
}

/// Returns `true` if a set has no value.
pub(crate) fn is_empty(words: &[u64], first: usize, width: usize) -> bool {
    for k in 0..width {
        if word(words, first.wrapping_add(k)) != 0 {
            return false;
        }
    }
    true
}

/// The least value of a set, or 0 if it has none.
pub(crate) fn least(words: &[u64], first: usize, width: usize) -> usize {
    for k in 0..width {
        let here = word(words, first.wrapping_add(k));
        if here != 0 {
            return k
                .wrapping_mul(64)
                .wrapping_add(here.trailing_zeros() as usize);
        }
    }
    0
}

/// The greatest value of a set, or 0 if it has none.
pub(crate) fn greatest(words: &[u64], first: usize, width: usize) -> usize {
    let mut found = 0;
    for k in 0..width {
        let here = word(words, first.wrapping_add(k));
        if here != 0 {
            let bit = 63_usize.wrapping_sub(here.leading_zeros() as usize);
            found = k.wrapping_mul(64).wrapping_add(bit);
        }
    }
    found
}
