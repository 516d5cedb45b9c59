//! Calls by name, as other languages make them: of the name of a call and its JSON text, the text of the answer or of the refusal.
use crate::Call;
use named_calls::words::text_at;
use named_calls::{CallError, Written};
use npm_calls::CallError as NotMade;
use std::alloc::AllocError;

pub(crate) fn answer(call: &Call<'_>, out: &mut String) -> Written {
    if call.name != "npm_calls::call" {
        return Err(CallError::Words);
    }
    match npm_calls::call(call.alloc, text_at(call, 0), text_at(call, 1)) {
        Ok(text) => Ok(out.push_str(text.as_str())?),
        Err(NotMade::Refused(refusal)) => Ok(out.push_str(refusal.text(call.alloc)?.as_str())?),
        Err(NotMade::Memory) => Err(AllocError.into()),
    }
}
