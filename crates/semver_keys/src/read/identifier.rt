//! The identifiers that keys begin with.
ghost use Rattle.std.specs.Prelude.{IfNone, IfOk, IfSome};
ghost use Rattle.semver_texts.specs.Identifier.{value_of};
ghost use Rattle.semver_keys.specs.Private.Reading.{BeginsWithNoIdentifier, IsIdentifierOf, IsOfNoIdentifier, IsPart, IsPartRead};

use crate::read::number::read_number;
use crate::read::text::{read_text, text_of};
use node_semver::Identifier;
use std::alloc::{AllocError, Global};

/// An identifier of a key.
#[derive(Clone, Copy)]
pub(crate) enum Part<'a> {
    /// a number
    Number(u64),
    /// a text as it is written, without the 0 that ends it
    Text(&'a [u8]),
}

// The identifier whose key the bytes begin with, and the rest.
pub(crate) fn read_part(key: &[u8]) -> Option<(Part<'_>, &[u8])>
    ensures read { IfSome result (λ r. IsPartRead key.now r.0 r.1.now) }
    ensures none { IfNone result (BeginsWithNoIdentifier key.now) }
{
    let Some((mark, rest)) = key.split_first() else {
        return None;
    };
    match *mark {
        1 => match read_number(rest) {
            Some((n, others)) => Some((Part::Number(n), others)),
            None => None,
        },
        2 => match read_text(rest) {
            Some((bytes, others)) => Some((Part::Text(bytes), others)),
            None => None,
        },
        _ => None,
    }
}

// The identifier with this key.
pub(crate) fn identifier_of(alloc: Global, part: Part<'_>) -> Result<Option<Identifier>, AllocError>
    requires { IsPart part }
    ensures identifier { IfOk result (λ found. IfSome found (λ x. IsIdentifierOf part.entry (value_of x))) }
    ensures none { IfOk result (λ found. IfNone found (IsOfNoIdentifier part.entry)) }
{
    match part {
        Part::Number(n) => Ok(Some(Identifier::Numeric(n))),
        Part::Text(bytes) => match text_of(alloc, bytes)? {
            Some(text) => Ok(Some(Identifier::AlphaNumeric(text))),
            None => Ok(None),
        },
    }
}

// How many keys of identifiers the bytes begin with.
pub(crate) fn part_count(key: &[u8]) -> usize {
    let mut count = 0;
    let mut rest = key;
    'parts: while let Some((_, others)) = read_part(rest) {
        count += 1;
        rest = others;
    }
    count
}
