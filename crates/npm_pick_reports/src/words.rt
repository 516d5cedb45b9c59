//! Words of a command line.

/// Returns the name of the option that a word may be, the value that the option would have, and the words after both. The value is
/// the text behind the first `=`, as in `--node=20`, or else the next word, whatever that is; `None` if there is none.
pub fn parts_of<'a>(word: &'a str, rest: &'a [String]) -> (&'a str, Option<&'a str>, &'a [String]) {
    if let Some((name, value)) = word.split_once('=') {
        return (name, Some(value), rest);
    }
    match rest.split_first() {
        Some((value, after)) => (word, Some(value.as_str()), after),
        None => (word, None, rest),
    }
}
