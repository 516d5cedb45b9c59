//! Lines that are longer than one read, and bytes where one read ends.
use super::outcome::{Outcome, WHOLE, gives, outcome_of};
use std::alloc::{AllocError, Global};

/// A text, a piece repeated so many times, and the rest.
fn repeated(
    alloc: Global,
    prefix: &[u8],
    piece: &[u8],
    times: usize,
    rest: &[u8],
) -> Result<Vec<u8>, AllocError> {
    let mut input = prefix.to_vec(alloc)?;
    for _ in 0..times {
        input.extend_from_slice(piece)?;
    }
    input.extend_from_slice(rest)?;
    Ok(input)
}

/// Returns `true` if a repeated text gives this output, with reads of so many bytes.
fn repeated_gives(
    alloc: Global,
    row: &(&[u8], &[u8], usize, &[u8]),
    output: &[u8],
    most: usize,
) -> bool {
    match &repeated(alloc, row.0, row.1, row.2, row.3) {
        Ok(input) => gives(&outcome_of(alloc, input, (most, usize::MAX), WHOLE), output),
        Err(_) => false,
    }
}

/// A text, a piece repeated so many times, and the rest; and the output.
const LONG: &[((&[u8], &[u8], usize, &[u8]), &[u8])] = &[
    ((b"", b">=1.0.0 ", 10_000, b"\n1.0.0\n"), b"yes\n"),
    (
        (b"", b">=1.0.0 ", 10_000, b"<1.0.0\n1.0.0\n"),
        b"bad range\n",
    ),
    // 4,096 bytes up to the carriage return.
    ((b"", b">=1.0.0 ", 511, b"\nv1.0.0\r\n"), b"yes\n"),
    (
        (b">=1.0.0\n1.0.0+", b"a", 70_000, b"\n1"),
        b"bad version\nmissing version\n",
    ),
    ((b"1\n", b"\xff", 70_000, b""), b"bad version\n"),
    // Range lines of 4,095, 4,096, 4,097, 8,192 and 100,000 bytes.
    ((b"1", b" ", 4_094, b"\n1.0.0\n"), b"yes\n"),
    ((b"1", b" ", 4_095, b"\n1.0.0\n"), b"yes\n"),
    ((b"1", b" ", 4_096, b"\n1.0.0\n"), b"yes\n"),
    ((b"1", b" ", 8_191, b"\n1.0.0\n1\n2.0.0\n"), b"yes\nno\n"),
    ((b"1", b" ", 99_999, b"\r\n1.0.0\n"), b"yes\n"),
    ((b"1", b" ", 99_999, b""), b"missing version\n"),
    // Version lines of the same lengths.
    (
        (b"1\nv", b" ", 4_089, b"1.0.0\n1\n1.0.0\n"),
        b"bad version\nyes\n",
    ),
    (
        (b"1\nv", b" ", 4_090, b"1.0.0\n1\n1.0.0\n"),
        b"bad version\nyes\n",
    ),
    (
        (b"1\nv", b" ", 4_091, b"1.0.0\n1\n1.0.0\n"),
        b"bad version\nyes\n",
    ),
    (
        (b"1\nv", b" ", 8_186, b"1.0.0\n1\n2.0.0\n"),
        b"bad version\nno\n",
    ),
    ((b"1\nv", b" ", 99_994, b"1.0.0"), b"bad version\n"),
];

/// How many bytes a read returns of long lines.
const READS: &[usize] = &[4095, 4096, 4097];

#[test]
fn answers_long_lines_with_ample_memory(rt: HostRuntime) {
    for (row, output) in LONG {
        for most in READS {
            assert!(rt; repeated_gives(rt.alloc(), row, output, *most), "{}", row.2);
        }
    }
}

/// The bytes after a range line that is filled up, and their output.
const PAST: &[(&[u8], &[u8])] = &[
    (b"\n1.0.0\n1\n2.0.0\n", b"yes\nno\n"),
    (b"\r\n1.0.0\r\n1\n2.0.0\n", b"yes\nno\n"),
    // The word `\r2` is ignored. Without its carriage return it would be a range.
    (b"\r2\n1.0.0\n1\n2.0.0\n", b"yes\nno\n"),
    (b"\n1.0.0\r2\n1\n2.0.0\n", b"bad version\nno\n"),
    (b"\n1.0.0\r\r\n", b"bad version\n"),
    (b"\n1.0.0\r", b"bad version\n"),
    (b"\n1.0.0", b"yes\n"),
    (b"\n1.0.0\n\n", b"yes\nmissing version\n"),
    (b"\n\n\n\n", b"bad version\nbad range\n"),
];

#[test]
fn ends_lines_anywhere_around_the_end_of_a_read(rt: HostRuntime) {
    for (rest, output) in PAST {
        for spaces in 4080..4100 {
            let row = (&b"1"[..], &b" "[..], spaces, *rest);
            assert!(rt; repeated_gives(rt.alloc(), &row, output, 4096), "{spaces}");
        }
    }
}

/// Returns `true` if the output for so many pairs with a bad range is written in so many writes.
fn bad_ranges_give(alloc: Global, pairs: usize, writes: usize) -> bool {
    match &repeated(alloc, b"", b"\n\n", pairs, b"") {
        Ok(input) => {
            let outcome = outcome_of(alloc, input, WHOLE, WHOLE);
            outcome.writes == writes && says_bad_ranges(alloc, &outcome, pairs)
        }
        Err(_) => false,
    }
}

/// Returns `true` if the output is `bad range` for so many pairs.
fn says_bad_ranges(alloc: Global, outcome: &Outcome, pairs: usize) -> bool {
    match &repeated(alloc, b"", b"bad range\n", pairs, b"") {
        Ok(output) => gives(outcome, output),
        Err(_) => false,
    }
}

/// The number of pairs with a bad range, and the number of writes for their output.
const BAD_RANGES: &[(usize, usize)] = &[(409, 1), (410, 2), (1_000, 3)];

#[test]
fn writes_more_answers_than_wait_at_once(rt: HostRuntime) {
    for (pairs, writes) in BAD_RANGES {
        assert!(rt;
            bad_ranges_give(rt.alloc(), *pairs, *writes),
            "{pairs} pairs"
        );
    }
}
