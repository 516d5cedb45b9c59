//! Calls of `npm_packages` on packages and their dependencies.
use crate::Call;
use crate::written::{end_list, found_of, put, put_fault, put_if_any, put_texts};
use named_calls::words::{text_at, value_at};
use named_calls::{CallError, Written};
use npm_packages::{
    Aliases, Asked, Dependents, Edge, Lock, accepted_of, asked_of, check_package, check_specs,
    edges_of, has_text_version, is_optional_peer, linked_folders, lock_of, members_of, overridden,
    rules_of,
};
use serde_json::Value;
use std::alloc::Global;

pub(crate) fn answer(call: &Call<'_>, out: &mut String) -> Written {
    let (alloc, value, text) = (call.alloc, value_at(call, 0)?, text_at(call, 1));
    match call.name {
        "npm_packages::is_optional_peer" => put(out, &is_optional_peer(value, text)),
        "npm_packages::accepted_of" => put_if_any(out, accepted_of(value, text)),
        "npm_packages::has_text_version" => put(out, &has_text_version(value)),
        "npm_packages::check_package" => put_fault(out, check_package(value).err()),
        "npm_packages::check_specs" => put_fault(out, check_specs(value).err()),
        "npm_packages::lock_of" => put_fault(out, lock_of(alloc, value).err()),
        "npm_packages::members_of" => match members_of(value) {
            Some(members) => put(out, &members.len()),
            None => end_list(out),
        },
        // (of an installed package, if the text is `installed`)
        "npm_packages::asked_of" => {
            for (name, asked) in asked_of(alloc, value, text == "installed")?.iter() {
                write!(out, "{name} ")?;
                push_asked(out, *asked)?;
                out.push('\t')?;
            }
            end_list(out)
        }
        "npm_packages::overridden" => match lock_of(alloc, value) {
            Ok(lock) => changed(call, out, lock),
            Err(fault) => put(out, &fault),
        },
        "npm_packages::linked_folders" => put_texts(out, &linked_folders(alloc, value)?),
        // (of the package in the folder at the third place)
        "Dependents::of_lock" => {
            let dependents = found_of!(out, Dependents::of_lock(alloc, value));
            put_texts(out, dependents.texts(text_at(call, 2)).unwrap_or(&[]))
        }
        "npm_packages::edges_of" => edges(call.alloc, out, value),
        "Aliases::of_edges" => alias(call.alloc, out, value, text_at(call, 1)),
        _ => Err(CallError::Words),
    }
}

/// How a dependency or an edge differs from one that is needed.
macro_rules! push_marks {
    ($out:ident, $of:ident) => {{
        $out.push_str(if $of.is_needed { "" } else { " optional" })?;
        $out.push_str(if $of.is_peer { " peer" } else { "" })?;
        $out.push_str(if $of.is_dev { " dev" } else { "" })?;
        $out.push_str(if $of.is_overridden { " overridden" } else { "" })?;
    }};
}

fn push_asked(out: &mut String, asked: Asked<'_>) -> Written {
    out.push_str(asked.spec)?;
    push_marks!(out, asked);
    Ok(())
}

/// What a dependency that is needed asks for with the rules of the lock file, of a folder, a name, and a spec.
fn changed(call: &Call<'_>, out: &mut String, lock: Lock<'_>) -> Written {
    let asked = Asked {
        spec: text_at(call, 3),
        is_needed: true,
        is_peer: false,
        is_dev: false,
        is_overridden: false,
    };
    let rules = rules_of(lock)?;
    let asked = overridden(&rules, text_at(call, 1), text_at(call, 2), asked);
    push_asked(out, asked)
}

/// The alias of the package in a folder.
fn alias<'v>(alloc: Global, out: &mut String, lock: &'v Value, folder: &'v str) -> Written {
    let edges = found_of!(out, edges_of(alloc, lock));
    let aliases = Aliases::of_edges(alloc, &edges)?;
    put_if_any(out, aliases.name(folder))
}

fn edges(alloc: Global, out: &mut String, lock: &Value) -> Written {
    let edges = found_of!(out, edges_of(alloc, lock));
    for edge in &edges {
        push_edge(out, edge)?;
    }
    end_list(out)
}

/// The folder and the version that are found, by the name.
fn push_edge(out: &mut String, edge: &Edge<'_>) -> Written {
    let (from, name, spec) = (edge.from, edge.name, edge.spec);
    let (to, version) = (edge.to.unwrap_or("-"), edge.version.unwrap_or("-"));
    write!(out, "{from}>{name} {spec} {to} {version}")?;
    push_marks!(out, edge);
    Ok(out.push('\t')?)
}
