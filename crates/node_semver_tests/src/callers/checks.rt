//! What the tests check of a result.
use std::alloc::Global;
use std::fmt::Display;

// Returns `true` if a value was found that prints as this text, or if none was found and none is expected.
pub(crate) fn is_found<T: Display, E>(
    alloc: Global,
    answer: &Result<Option<T>, E>,
    text: Option<&str>,
) -> bool {
    match answer {
        Ok(Some(value)) => prints(alloc, value, text),
        Ok(None) => text.is_none(),
        Err(_) => false,
    }
}

pub(crate) fn prints<T: Display>(alloc: Global, value: &T, text: Option<&str>) -> bool {
    match &value.to_string(alloc) {
        Ok(print) => text == Some(print.as_str()),
        Err(_) => false,
    }
}
