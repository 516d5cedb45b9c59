mod long;
mod outcome;
mod stepwise;

use crate::exit::ending;
use crate::run_error::RunError;
use outcome::{WHOLE, gives, leaves_both_alone, outcome_of};
use std::alloc::Global;

/// Inputs and their outputs.
const ROWS: &[(&[u8], &[u8])] = &[
    // Two lines.
    (b">=1.2.3 <2.0.0\n1.9.0\n", b"yes\n"),
    (b">=1.2.3-rc.4 <2.0.0\n1.2.3-rc.5\n", b"yes\n"),
    (b">=1.2.3-rc.4 <2.0.0\n1.2.4-rc.6\n", b"no\n"),
    (b">4.0.0 <3.0.0\n1.0.0\n", b"bad range\n"),
    (b"foo >= v 1.0.0\n1.2\n", b"bad version\n"),
    (b"=1.2.3+a\n1.2.3+b\n", b"yes\n"),
    (b"1 || 3\n2.0.0\n", b"no\n"),
    (b">=1.2.3-a >=1.2.3-b\n1.2.3-c\n", b"yes\n"),
    (b"1.2.3\n1.2.3\n", b"yes\n"),
    // A bad range is reported before a bad version.
    (b"foo\nbar\n", b"bad range\n"),
    // The end of the input ends a line, and an empty line is a line.
    (b"", b""),
    (b"1\n1.0.0", b"yes\n"),
    (b"\n\n", b"bad range\n"),
    (b"1\n\n", b"bad version\n"),
    // A single last line, whatever it contains.
    (b"\n", b"missing version\n"),
    (b"1", b"missing version\n"),
    (b"foo\n", b"missing version\n"),
    (b"\xff", b"missing version\n"),
    (b"1\n1.0.0\n\n", b"yes\nmissing version\n"),
    // One carriage return just before a newline is ignored, and no other one.
    (b"1\r\n1.0.0\r\n", b"yes\n"),
    (b"1\r\r\n1.0.0\n", b"bad range\n"),
    (b"1\n1.0.0\r", b"bad version\n"),
    (b"\r\n", b"missing version\n"),
    (b"1\r1\n1.0.0\n", b"bad range\n"),
    // Lines that are not UTF-8.
    (b"\xff\n1.0.0\n", b"bad range\n"),
    (b"1\n\xff\n", b"bad version\n"),
    (b"1\n1.0.0-\xc5", b"bad version\n"),
    (b"1\n1.0.0-\xc5\xa1\n", b"bad version\n"),
    // More than one pair, and each kind of output.
    (PAIRS, b"yes\nbad range\nbad version\nmissing version\n"),
    (
        b"1\n1.0.0\n1\n2.0.0\n\n\n1\n1.0.0",
        b"yes\nno\nbad range\nyes\n",
    ),
    // The same range line again, and others that are nearly it.
    (b"1\n1.0.0\n1\nbad\n1\n2.0.0\n", b"yes\nbad version\nno\n"),
    (b"foo\n1.0.0\nfoo\n1.0.0\n", b"bad range\nbad range\n"),
    (b"1\n1.0.0\n2\n1.0.0\n1\n1.0.0\n", b"yes\nno\nyes\n"),
    (b"1\n1.0.0\n11\n1.0.0\n1\n1.0.0\n", b"yes\nno\nyes\n"),
    (b"1\n1.0.0\n1\r\n1.0.0\r\n1\n1.0.0", b"yes\nyes\nyes\n"),
    (b"1\n1.0.0\n1\n", b"yes\nmissing version\n"),
    (b"1\n1.0.0\n1", b"yes\nmissing version\n"),
];

/// How many bytes a reader returns and a writer takes in one call.
const STEPS: &[(usize, usize)] = &[
    (usize::MAX, usize::MAX),
    (1, 1),
    (7, 5),
    (4095, usize::MAX),
    (4096, usize::MAX),
    (4097, 1),
];

const PAIRS: &[u8] = b"^1.2.3-rc.4\n1.2.3-rc.5\nfoo\n1.0.0\n1\nbad\n1\n";

/// Returns `true` if an input gives this output with each of these steps.
fn gives_by_steps(alloc: Global, input: &[u8], output: &[u8]) -> bool {
    for (read, write) in STEPS {
        let outcome = outcome_of(alloc, input, (*read, usize::MAX), (*write, usize::MAX));
        if !gives(&outcome, output) {
            return false;
        }
    }
    true
}

#[test]
fn answers_each_pair_with_ample_memory(rt: HostRuntime) {
    for (input, output) in ROWS {
        assert!(rt;
            gives_by_steps(rt.alloc(), input, output),
            "{}",
            input.escape_ascii()
        );
    }
}

/// The output for the first bytes of the four pairs, if the input ends there.
fn output_up_to(count: usize) -> &'static [u8] {
    match count {
        0 => b"",
        1..=12 => b"missing version\n",
        // `1.2.3` is a version, and so are `1.2.3-r` and `1.2.3-rc`, which are less than `1.2.3-rc.4`.
        17 | 22 | 23 => b"yes\n",
        19 | 20 => b"no\n",
        13..=23 => b"bad version\n",
        24..=27 => b"yes\nmissing version\n",
        28..=33 => b"yes\nbad range\n",
        34 | 35 => b"yes\nbad range\nmissing version\n",
        36..=39 => b"yes\nbad range\nbad version\n",
        _ => b"yes\nbad range\nbad version\nmissing version\n",
    }
}

/// The output for the pairs whose version line has its newline among these bytes.
fn answers_up_to(count: usize) -> &'static [u8] {
    match count {
        0..=22 => b"",
        23..=32 => b"yes\n",
        33..=38 => b"yes\nbad range\n",
        _ => b"yes\nbad range\nbad version\n",
    }
}

/// How many bytes a read returns in the tests of each end and each failure.
const READS: &[usize] = &[1, 7, 4096];

#[test]
fn answers_what_was_read_up_to_any_end(rt: HostRuntime) {
    for most in READS {
        for count in 0..=PAIRS.len() {
            let outcome = outcome_of(rt.alloc(), &PAIRS[..count], (*most, usize::MAX), WHOLE);
            assert!(rt; gives(&outcome, output_up_to(count)), "{count} bytes");
        }
    }
}

/// Returns `true` if the last of so many reads, after so many bytes, fails, and exactly the output for the pairs that
/// were completely read is written.
fn stops_at_a_read(alloc: Global, most: usize, count: usize, reads: usize) -> bool {
    let outcome = outcome_of(alloc, PAIRS, (most, count), WHOLE);
    // No output is missing.
    let is_answered = outcome.text() == answers_up_to(count);
    is_answered && outcome.has_stopped_reading() && outcome.reads == reads
}

#[test]
fn stops_at_a_read_that_fails(rt: HostRuntime) {
    for most in READS {
        for count in 0..=PAIRS.len() {
            // The failed read is the last one.
            let reads = count.div_ceil(*most) + 1;
            assert!(rt;
                stops_at_a_read(rt.alloc(), *most, count, reads),
                "after {count}"
            );
        }
    }
}

/// Returns `true` if a write fails after so many bytes, with two bytes a write, and exactly these bytes are written.
fn stops_at_a_write(alloc: Global, count: usize) -> bool {
    let outcome = outcome_of(alloc, PAIRS, WHOLE, (2, count));
    let is_written = output_up_to(PAIRS.len()).get(..count) == Some(outcome.text());
    // The failed write is the last one.
    is_written && outcome.has_stopped_writing() && outcome.writes == count.div_ceil(2) + 1
}

/// Returns `true` if the first write that takes no byte fails.
fn stops_where_no_byte_is_taken(alloc: Global) -> bool {
    let outcome = outcome_of(alloc, PAIRS, WHOLE, (0, usize::MAX));
    outcome.has_stopped_writing() && outcome.writes == 1
}

#[test]
fn stops_at_a_write_that_fails(rt: HostRuntime) {
    for count in 0..output_up_to(PAIRS.len()).len() {
        assert!(rt; stops_at_a_write(rt.alloc(), count), "after {count}");
    }
    assert!(rt;
        stops_where_no_byte_is_taken(rt.alloc()),
        "no byte is taken"
    );
}

/// Inputs, how many bytes a read returns, and the number of writes.
const WRITES: &[(&[u8], usize, usize)] = &[
    // The output for the last line is written after the end was read.
    (PAIRS, usize::MAX, 2),
    (b"", usize::MAX, 0),
    (PAIRS, 1, 4),
];

fn writes_made(alloc: Global, input: &[u8], most: usize) -> usize {
    outcome_of(alloc, input, (most, usize::MAX), WHOLE).writes
}

/// Returns `true` if the output for the first pair is written before more is read: it has 23 bytes, so four reads of
/// seven, and no further one.
fn answers_before_it_reads_on(alloc: Global) -> bool {
    let outcome = outcome_of(alloc, PAIRS, (7, usize::MAX), (usize::MAX, 0));
    let is_written = outcome.text().is_empty() && outcome.reads == 4;
    is_written && outcome.has_stopped_writing()
}

#[test]
fn writes_what_one_read_gave_at_once(rt: HostRuntime) {
    for (input, most, writes) in WRITES {
        let made = writes_made(rt.alloc(), input, *most);
        assert!(rt; made == *writes, "{made} writes");
    }
    assert!(rt; answers_before_it_reads_on(rt.alloc()));
}

/// Whether the reader's gauge had failed, and whether the writer's had.
const FAILED: &[(bool, bool)] = &[(true, false), (false, true), (true, true)];

#[test]
fn leaves_both_alone_where_a_gauge_had_failed(rt: HostRuntime) {
    for (has_read, has_written) in FAILED {
        assert!(rt; leaves_both_alone(rt.alloc(), PAIRS, *has_read, *has_written));
    }
}

/// `tests/memory` has each allocation of the program fail in turn, and `rt try --test --fail-alloc N` makes one of this
/// test fail.
#[test]
fn answers_or_says_that_memory_is_out(rt: HostRuntime) {
    let outcome = outcome_of(rt.alloc(), PAIRS, (7, usize::MAX), WHOLE);
    let output = output_up_to(PAIRS.len());
    let is_out = outcome.is_out_of_memory() && output.starts_with(outcome.text());
    assert!(rt; is_out || gives(&outcome, output));
}

/// Outcomes, with the exit status and the line on standard error.
const ENDS: &[(Option<Result<(), RunError>>, u8, &str)] = &[
    (Some(Ok(())), 0, ""),
    (Some(Err(RunError::Read)), 1, "semver_pairs: read failed"),
    (Some(Err(RunError::Write)), 1, "semver_pairs: write failed"),
    (
        Some(Err(RunError::Memory)),
        1,
        "semver_pairs: out of memory",
    ),
    (
        Some(Err(RunError::Endless)),
        1,
        "semver_pairs: input does not end",
    ),
    (None, 2, "semver_pairs: takes no arguments"),
];

#[test]
fn ends_with_a_status_and_a_line(rt: HostRuntime) {
    for (outcome, wanted, line) in ENDS {
        let (status, said) = ending(outcome.as_ref());
        assert_eq!(rt; status, *wanted, "{line}");
        assert_eq!(rt; said, *line);
    }
}

/// Errors and their texts.
const MESSAGES: &[(RunError, &str)] = &[
    (RunError::Read, "read failed"),
    (RunError::Write, "write failed"),
    (RunError::Memory, "out of memory"),
    (RunError::Endless, "input does not end"),
];

#[test]
fn tells_why_it_stopped(rt: HostRuntime) {
    for (error, text) in MESSAGES {
        assert!(rt; tells(rt.alloc(), error, text), "{text}");
    }
}

fn tells(alloc: Global, error: &RunError, text: &str) -> bool {
    match &error.to_string(alloc) {
        Ok(message) => message.as_str() == text,
        Err(_) => false,
    }
}
