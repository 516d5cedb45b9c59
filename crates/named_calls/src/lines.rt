//! The lines of standard input, and the answers.
use crate::call::{Call, CallError, Calls, Written, words_of};
use crate::list_of;
use serde_json::Value;
use std::alloc::{AllocError, Global};
use std::io::{BufRead, BufReader};

/// Writes the answer of each line.
pub(crate) fn write<C: Calls>(rt: &HostRuntime) -> Written {
    for line in BufReader::new(rt.alloc(), rt.stdin())?.lines(rt.alloc()) {
        let answer = answer_of_line::<C>(rt.alloc(), &line?)?;
        println!(rt; "{answer}")?;
    }
    Ok(())
}

/// The answer of a line, as JSON.
fn answer_of_line<C: Calls>(alloc: Global, line: &str) -> Result<Value, AllocError> {
    let mut out = String::new(alloc);
    if let Err(error) = push_answer::<C>(alloc, line, &mut out) {
        out.clear();
        write!(out, "{error}")?;
    }
    Ok(Value::String(out))
}

fn push_answer<C: Calls>(alloc: Global, line: &str, out: &mut String) -> Written {
    let texts = texts_of(alloc, line)?;
    let [name, texts @ ..] = texts.as_slice() else {
        return Err(CallError::Words);
    };
    let words = words_of::<C>(alloc, texts)?;
    let call = Call {
        alloc,
        name,
        words: &words,
        asks_forms: true,
    };
    C::answer(&call, out)
}

/// The strings of a JSON array.
fn texts_of(alloc: Global, line: &str) -> Result<Vec<String>, CallError> {
    let Ok(value) = &Value::from_str(alloc, line) else {
        return Err(CallError::Words);
    };
    let items = value.as_array().ok_or(CallError::Words)?;
    Ok(
        list_of!(alloc, items, item => String::from_str(alloc, item.as_str().ok_or(CallError::Words)?)?),
    )
}
