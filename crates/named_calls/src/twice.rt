//! A call that is made twice.
use crate::call::{Call, CallError, Calls, Written, words_of};
use crate::list_of;
use std::alloc::Global;
use std::io::{BufRead, BufReader};

/// More allocations than any call makes, including its arguments.
const MANY: usize = 9999;
/// The bytes of room for an answer. A call that does not allocate has a shorter one.
const ROOM: usize = 4096;

/// Makes the call that the lines name twice.
pub(crate) fn write<C: Calls>(rt: &HostRuntime) -> Written {
    let read = BufReader::new(rt.alloc(), rt.stdin())?.lines(rt.alloc());
    let lines = list_of!(rt.alloc(), read, line => line?);
    let [count, name, texts @ ..] = lines.as_slice() else {
        return Err(CallError::Words);
    };
    let Ok(count) = count.parse::<usize>() else {
        return Err(CallError::Words);
    };
    let words = words_of::<C>(rt.alloc(), texts)?;
    let call = Call {
        alloc: rt.alloc(),
        name,
        words: &words,
        asks_forms: false,
    };
    write_answers::<C>(rt, count, &call)
}

/// Makes the call twice, and writes the number of allocations that succeeded before it, its answer, the number that succeeded
/// after it, and the second answer.
fn write_answers<C: Calls>(rt: &HostRuntime, count: usize, call: &Call<'_, C::Word>) -> Written {
    let mut first = String::with_capacity(rt.alloc(), ROOM)?;
    let mut second = String::with_capacity(rt.alloc(), ROOM)?;
    let before = granted(rt.alloc(), count);
    push_answer::<C>(call, &mut first)?;
    let after = granted(rt.alloc(), MANY);
    push_answer::<C>(call, &mut second)?;
    println!(rt; "{before}\n{first}\n{after}\n{second}")?;
    Ok(())
}

/// Makes the call, and appends its answer, or that it is out of memory.
fn push_answer<C: Calls>(call: &Call<'_, C::Word>, out: &mut String) -> Written {
    match C::answer(call, out) {
        Err(CallError::Memory(_)) => {
            out.clear();
            Ok(out.push_str("out of memory")?)
        }
        written => written,
    }
}

/// Makes so many allocations, up to the first that fails, and returns the number that succeeded.
fn granted(alloc: Global, count: usize) -> usize {
    for made in 0..count {
        if Box::new(alloc, 0u8).is_err() {
            return made;
        }
    }
    count
}
