//! How results are written.
use named_calls::{CallError, Written};
use std::alloc::AllocError;
use std::fmt::Display;

pub(crate) fn put(out: &mut String, value: &impl Display) -> Written {
    Ok(write!(out, "{value}")?)
}

pub(crate) fn put_if_any<T: Display + Drop>(out: &mut String, found: Option<T>) -> Written {
    match &found {
        Some(found) => put(out, found),
        None => Ok(out.push_str("nothing")?),
    }
}

/// What a check finds. Where a lock file or a manifest is refused, its fault is the answer.
macro_rules! found_of {
    ($out:ident, $checked:expr) => {
        match $checked {
            Ok(found) => found,
            Err(npm_lock::CheckError::Refused(fault)) => return $crate::written::put($out, &fault),
            Err(npm_lock::CheckError::Memory) => return Err(std::alloc::AllocError.into()),
        }
    };
}

pub(crate) use found_of;

/// The fault that was looked for.
pub(crate) fn put_fault<F: Display + Drop>(out: &mut String, fault: Option<F>) -> Written {
    match &fault {
        Some(fault) => put(out, fault),
        None => Ok(out.push_str("no fault")?),
    }
}

/// Appends an item of a list.
pub(crate) fn put_item(out: &mut String, item: &impl Display) -> Result<(), AllocError> {
    write!(out, "{item}\t")
}

/// The end of a list.
pub(crate) fn end_list(out: &mut String) -> Written {
    Ok(out.push_str(if out.is_empty() { "nothing" } else { "" })?)
}

pub(crate) fn put_texts(out: &mut String, texts: &[&str]) -> Written {
    for text in texts {
        put_item(out, text)?;
    }
    end_list(out)
}
