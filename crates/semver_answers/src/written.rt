//! How results are written.
use crate::borrowed::prints_alike;
use named_calls::{CallError, Written};
use node_semver::{JsonError, SemverError};
use semver_cuts::{Cut, Span};
use std::alloc::{AllocError, Global};
use std::cmp::Ordering;
use std::fmt::Display;

pub(crate) fn put(out: &mut String, value: &impl Display) -> Written {
    Ok(write!(out, "{value}")?)
}

type Made<T> = Result<T, AllocError>;

pub(crate) fn put_made<T: Display + Drop>(out: &mut String, made: Made<T>) -> Written {
    put(out, &made?)
}

pub(crate) fn put_if_any<T: Display + Drop>(out: &mut String, found: Made<Option<T>>) -> Written {
    match &found? {
        Some(found) => put(out, found),
        None => Ok(out.push_str("nothing")?),
    }
}

type Read<T> = Result<T, SemverError>;

/// What is read of a text, or the error, which holds the text.
pub(crate) fn put_read<T: Display + Drop>(out: &mut String, text: &str, found: Read<T>) -> Written {
    match &found {
        Ok(found) => put(out, found),
        Err(error) => put_refusal(out, text, error),
    }
}

/// The kind, byte offset, line and column of an error. One that an allocation failed holds no text.
pub(crate) fn put_refusal(out: &mut String, text: &str, error: &SemverError) -> Written {
    let (kind, offset, span) = (error.kind(), error.offset(), error.span());
    if error.is_out_of_memory() && error.input().is_empty() && offset == 0 {
        return Err(AllocError.into());
    }
    are_alike(error.input() == text && span.offset() == offset && span.len() == 0)?;
    let (line, column) = error.location();
    Ok(write!(out, "{kind:?} at {offset} ({line}, {column})")?)
}

type OfJson<T> = Result<T, JsonError>;

pub(crate) fn put_read_of_json<T: Display + Drop>(out: &mut String, found: OfJson<T>) -> Written {
    match &found {
        Ok(found) => put(out, found),
        Err(JsonError::Semver(error)) if error.is_out_of_memory() => Err(AllocError.into()),
        Err(JsonError::Semver(error)) => {
            let (kind, offset) = (error.kind(), error.offset());
            Ok(write!(out, "{kind:?} at {offset}: {error}")?)
        }
        Err(error) => put(out, error),
    }
}

/// An error if forms of one call differ.
pub(crate) fn are_alike(are: bool) -> Written {
    if are { Ok(()) } else { Err(CallError::Forms) }
}

/// What all forms of one call return.
pub(crate) fn alike<T: PartialEq + Copy>(found: T, forms: &[T]) -> Result<T, CallError> {
    for form in forms {
        are_alike(*form == found)?;
    }
    Ok(found)
}

pub(crate) fn put_truth(out: &mut String, found: bool, forms: &[bool]) -> Written {
    put(out, &alike(found, forms)?)
}

pub(crate) fn put_order(out: &mut String, found: Ordering, forms: &[Ordering]) -> Written {
    let word = match alike(found, forms)? {
        Ordering::Less => "less",
        Ordering::Equal => "equal",
        Ordering::Greater => "greater",
    };
    Ok(out.push_str(word)?)
}

/// The print of a value, which looks at no width, no fill and no other form.
pub(crate) fn put_one_way(alloc: Global, out: &mut String, one: &impl Display) -> Written {
    are_alike(prints_alike(alloc, one, one))?;
    put(out, one)
}

/// Appends what stands between items, if there is an item already.
pub(crate) fn separate(out: &mut String, separator: &str) -> Result<(), AllocError> {
    out.push_str(if out.is_empty() { "" } else { separator })
}

/// The end of a list.
pub(crate) fn end_list(out: &mut String) -> Written {
    Ok(out.push_str(if out.is_empty() { "nothing" } else { "" })?)
}

pub(crate) fn put_bytes(out: &mut String, bytes: &[u8]) -> Written {
    for byte in bytes {
        separate(out, " ")?;
        write!(out, "{byte}")?;
    }
    end_list(out)
}

/// The two ends of each span.
pub(crate) fn put_spans<T: Ord + Display>(out: &mut String, spans: &[Span<T>]) -> Written {
    for span in spans {
        separate(out, "; ")?;
        put_ends(out, Some(span.ends()))?;
    }
    end_list(out)
}

type Ends<'a, T> = Option<(&'a Cut<T>, &'a Cut<T>)>;

pub(crate) fn put_ends<T: Ord + Display>(out: &mut String, ends: Ends<'_, T>) -> Written {
    let Some((lower, upper)) = ends else {
        return Ok(out.push_str("nothing")?);
    };
    cut(out, lower)?;
    out.push_str(" to ")?;
    cut(out, upper)
}

fn cut<T: Ord + Display>(out: &mut String, cut: &Cut<T>) -> Written {
    Ok(match cut {
        Cut::Start => out.push_str("start"),
        Cut::Before(value) => write!(out, "before {value}"),
        Cut::After(value) => write!(out, "after {value}"),
        Cut::End => out.push_str("end"),
    }?)
}
