//! Lines, as they are given and as text.
//!
//! A wish is an array of a name, a range or `null` for any, and whether it needs the name. A term is an array of a name and the wish that
//! its candidates make, or of `null` and a wish that it is against. A line is an array of its source and its terms: a source is an array of
//! `root` and a demand; of `makes`, a name and a wish; or of `by`, a name and the numbers of lines.
//!
//! As text a wish is `name:range`, with `*` for any range and `!` after it if it needs the name. A term is `name>wish` of the candidates
//! that make it, and `-wish` of what is against it. A line is ` | root wish`, ` | name makes wish` or ` | name by` and the numbers
//! of lines, and then ` :` and its terms.
use crate::solving::demand_of;
use named_calls::list_of;
use named_calls::members::{is_true_at, items_at, items_of, number_at, number_of};
use serde_json::Value;
use std::alloc::{AllocError, Global};
use version_solving::{Reason, Source, Term, Wish};

pub(crate) fn lines_of(alloc: Global, list: &Value) -> Result<Vec<Reason>, AllocError> {
    let lines = items_of(list);
    Ok(list_of!(alloc, lines, line => line_of(alloc, line)?))
}

fn line_of(alloc: Global, line: &Value) -> Result<Reason, AllocError> {
    let terms = items_at(line, 1);
    let terms = list_of!(alloc, terms, term => term_of(term));
    let source = source_of(alloc, line.get(0).unwrap_or(line))?;
    Ok(Reason { source, terms })
}

fn source_of(alloc: Global, source: &Value) -> Result<Source, AllocError> {
    let (word, name) = (source.get(0).and_then(Value::as_str), number_at(source, 1));
    match (word, source.get(1), source.get(2)) {
        (Some("root"), Some(demand), _) => Ok(Source::Root(demand_of(demand))),
        (Some("makes"), _, Some(wish)) => Ok(Source::Candidates(name, wish_of(wish))),
        _ => {
            let numbers = items_at(source, 2);
            Ok(Source::Lines(
                name,
                list_of!(alloc, numbers, number => number_of(number).unwrap_or(0)),
            ))
        }
    }
}

fn term_of(term: &Value) -> Term {
    let wish = wish_of(term.get(1).unwrap_or(term));
    match term.get(0).and_then(Value::as_u64) {
        Some(_) => Term::Making(number_at(term, 0), wish),
        None => Term::Against(wish),
    }
}

fn wish_of(wish: &Value) -> Wish {
    let has_range = wish.get(1).and_then(Value::as_u64).is_some();
    Wish {
        name: number_at(wish, 0),
        range: if has_range {
            Some(number_at(wish, 1))
        } else {
            None
        },
        needed: is_true_at(wish, 2),
    }
}

/// Appends the texts of lines.
pub(crate) fn push_lines(out: &mut String, lines: &[Reason]) -> Result<(), AllocError> {
    for line in lines {
        push_source(out, &line.source)?;
        out.push_str(" :")?;
        for term in &line.terms {
            push_term(out, *term)?;
        }
    }
    Ok(())
}

fn push_source(out: &mut String, source: &Source) -> Result<(), AllocError> {
    match source {
        Source::Root(demand) => {
            let end = if demand.needed { "!" } else { "" };
            write!(out, " | root {}:{}{end}", demand.name, demand.range)
        }
        Source::Candidates(name, wish) => {
            write!(out, " | {name} makes ")?;
            push_wish(out, *wish)
        }
        Source::Lines(name, lines) => {
            write!(out, " | {name} by")?;
            for line in lines {
                write!(out, " {line}")?;
            }
            Ok(())
        }
    }
}

fn push_term(out: &mut String, term: Term) -> Result<(), AllocError> {
    match term {
        Term::Making(name, wish) => {
            write!(out, " {name}>")?;
            push_wish(out, wish)
        }
        Term::Against(wish) => {
            out.push_str(" -")?;
            push_wish(out, wish)
        }
    }
}

fn push_wish(out: &mut String, wish: Wish) -> Result<(), AllocError> {
    let end = if wish.needed { "!" } else { "" };
    match wish.range {
        Some(range) => write!(out, "{}:{range}{end}", wish.name),
        None => write!(out, "{}:*{end}", wish.name),
    }
}
