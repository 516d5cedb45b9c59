//! The version that is picked of a document, and the versions that are kept. The options are `tag`, `before`, `avoid`, `avoidStrict`,
//! `includeStaged`, `node` and `npm`, and for those that are kept `all`.
use crate::Call;
use crate::written::{end_list, put_if_any, put_texts};
use named_calls::members::{is_set, text_if_any};
use named_calls::words::{text_at, value_at};
use named_calls::{CallError, Written, list_of};
use node_semver::VersionRef;
use npm_pick::{Options, PickError, Picked, keep, parse_time, pick};
use serde_json::Value;
use std::alloc::AllocError;

pub(crate) fn answer(call: &Call<'_>, out: &mut String) -> Written {
    if call.name == "npm_pick::parse_time" {
        return put_if_any(out, parse_time(text_at(call, 0)));
    }
    let (document, given, text) = (value_at(call, 0)?, value_at(call, 1)?, text_at(call, 2));
    let options = &options_of(given);
    match call.name {
        "npm_pick::pick" => picked(out, pick(call.alloc, document, text, options), false),
        "npm_pick::pick, in full" => picked(out, pick(call.alloc, document, text, options), true),
        "npm_pick::keep" => {
            let texts = text.split(',');
            let wanted = list_of!(call.alloc, texts, text => String::from_str(call.alloc, text)?);
            let all = is_set(given, "all");
            put_texts(out, &keep(call.alloc, document, &wanted, options, all)?)
        }
        _ => Err(CallError::Words),
    }
}

type Found<'v> = Result<Picked<'v>, PickError>;

/// The key, and in full a word for a version that should be avoided or replaces another one, or the name of the error.
fn picked(out: &mut String, found: Found<'_>, in_full: bool) -> Written {
    match &found {
        Ok(picked) => {
            let mark = if in_full { mark_of(picked) } else { "" };
            Ok(write!(out, "{}{mark}", picked.key)?)
        }
        Err(PickError::Memory) => Err(AllocError.into()),
        Err(error) if in_full => Ok(write!(out, "{error:?}")?),
        Err(_) => end_list(out),
    }
}

fn mark_of(picked: &Picked<'_>) -> &'static str {
    match (picked.is_avoided, picked.is_outside, picked.is_major) {
        (false, false, false) => "",
        (true, false, false) => " avoided",
        (false, true, false) => " outside",
        (false, true, true) => " major",
        _ => " odd",
    }
}

fn options_of(given: &Value) -> Options<'_> {
    Options {
        default_tag: text_if_any(given, "tag").unwrap_or("latest"),
        before: text_if_any(given, "before").and_then(|text| parse_time(text)),
        avoid: text_if_any(given, "avoid"),
        avoid_strict: is_set(given, "avoidStrict"),
        include_staged: is_set(given, "includeStaged"),
        node: version_in(given, "node"),
        npm: version_in(given, "npm"),
    }
}

fn version_in<'v>(given: &'v Value, name: &str) -> Option<VersionRef<'v>> {
    VersionRef::parse(text_if_any(given, name)?).ok()
}
