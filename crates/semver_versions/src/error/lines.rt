//! Newlines before a fault.
ghost use Rattle.std.specs.Prelude.{◌≡◌, count_by, length};
ghost use Rattle.std.specs.List.{after_last};
ghost use Rattle.semver_versions.specs.ErrorLocation.{column_at, is_newline, lines_before};

// The line and the column of an offset in a text, both counted from 0.
pub(crate) fn location_in(text: &[u8], offset: usize) -> (usize, usize)
    ensures line { result.0 ≡ lines_before text.now offset }
    ensures column { result.1 ≡ column_at text.now offset }
{
    let prefix = &text[..offset.min(text.len())];
    (newlines(prefix), last_line_length(prefix))
}

// The number of newline bytes.
fn newlines(prefix: &[u8]) -> usize
    ensures { result ≡ count_by is_newline prefix.now }
{
    let mut count: usize = 0;
    'bytes: for byte in prefix {
        if *byte == b'\n' {
            count += 1;
        }
    }
    count
}

// The number of bytes after the last newline, or of all bytes if there is none.
fn last_line_length(prefix: &[u8]) -> usize
    ensures { result ≡ length (after_last is_newline prefix.now) }
{
    let mut start = prefix.len();
    'line: while start > 0 && prefix[start - 1] != b'\n' {
        start -= 1;
    }
    prefix.len() - start
}
