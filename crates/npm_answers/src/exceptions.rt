//! Files of exceptions to advisories, and days.
use crate::Call;
use crate::written::{end_list, put, put_if_any, put_item};
use named_calls::words::text_at;
use named_calls::{CallError, Written};
use npm_lock_reports::{Exception, day_at, read_exceptions};

pub(crate) fn answer(call: &Call<'_>, out: &mut String) -> Written {
    let text = text_at(call, 0);
    match call.name {
        "npm_lock_reports::read_exceptions" => match &read_exceptions(call.alloc, text) {
            Ok(list) => put_exceptions(out, list),
            Err(error) => put(out, error),
        },
        "npm_lock_reports::day_at" => {
            let seconds = text.parse::<u64>().ok().ok_or(CallError::Words)?;
            put_if_any(out, day_at(seconds))
        }
        _ => Err(CallError::Words),
    }
}

fn put_exceptions(out: &mut String, list: &[Exception]) -> Written {
    for exception in list {
        put_item(out, &exception.id)?;
        put_item(out, &exception.name)?;
        put_item(out, &exception.reason)?;
        match exception.until {
            Some(day) => put_item(out, &day)?,
            None => put_item(out, &"none")?,
        }
    }
    end_list(out)
}
