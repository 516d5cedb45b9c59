//! A line of the reasons, as a sentence for a person, in printable ASCII.
//!
//! The words have no clauses: rows test them. That the lines are true is a clause of `npm_resolve::resolved`.

use crate::text::has_document;
use command_lines::write_shown;
use npm_resolve::{Document, Reason, Source, Term, Wish};
use npm_texts::filled;
use std::fmt;

/// So many specs of a name are not said one by one.
const MANY: usize = 4;

/// A line of the reasons.
#[derive(Clone, Copy)]
pub(crate) struct Sentence<'a> {
    pub(crate) documents: &'a [Document],
    pub(crate) reason: &'a Reason<'a>,
    /// What versions of a name ask for in these lines is said in one sentence: `cacache 18.0.3 needs tar and fs-minipass ^3`.
    pub(crate) together: &'a [Reason<'a>],
    /// The numbers of the lines from which it follows.
    pub(crate) numbers: &'a [usize],
    /// Whether many specs of a name are not said one by one.
    pub(crate) is_short: bool,
}

/// The places of the lines from which a reason follows.
pub(crate) fn lines_of<'r>(reason: &'r Reason<'_>) -> &'r [usize] {
    match &reason.source {
        Source::Lines(_, lines) => lines.as_slice(),
        Source::Root(_) | Source::Versions(..) => &[],
    }
}

/// Prints `so react ^15 is needed (by 1 and 2)`. Format options such as a width are ignored.
impl fmt::Display for Sentence<'_> {
    fn fmt<W: fmt::Write>(&self, f: &mut fmt::Formatter<W>) -> fmt::Result {
        match &self.reason.source {
            Source::Root(wish) => {
                f.write_str("the root")?;
                write_asks(f, *wish)
            }
            Source::Versions(name, _, _) => write_asked(f, self.together, name),
            Source::Lines(name, _) => {
                let is_found = has_document(self.documents, name);
                write_lead(f, is_found, name)?;
                write_terms(f, name, &self.reason.terms, self.is_short)?;
                write_numbers(f, self.numbers, self.is_short)
            }
        }
    }
}

// ---- wishes

/// Prints `react ^15`, and `react` of a wish of any spec.
fn write_wish<W: fmt::Write>(f: &mut fmt::Formatter<W>, wish: Wish<'_>) -> fmt::Result {
    write_shown(f, wish.name.as_bytes())?;
    match wish.spec {
        Some(spec) => {
            f.write_str(" ")?;
            write_shown(f, filled(spec).as_bytes())
        }
        None => Ok(()),
    }
}

/// Prints a wish that one has.
fn write_asks<W: fmt::Write>(f: &mut fmt::Formatter<W>, wish: Wish<'_>) -> fmt::Result {
    f.write_str(verb(None, wish.needed, true, false))?;
    write_wish(f, wish)
}

/// What stands before a wish, by whether the one before it needs its name.
fn verb(before: Option<bool>, needed: bool, is_alone: bool, is_plural: bool) -> &'static str {
    match before {
        Some(was) if was == needed => " and ",
        Some(_) => further_verb(needed, is_plural),
        None => first_verb(needed, is_alone, is_plural),
    }
}

/// What stands before a wish after one of the other kind.
fn further_verb(needed: bool, is_plural: bool) -> &'static str {
    match (needed, is_plural) {
        (true, false) => " and needs ",
        (true, true) => " and need ",
        (false, false) => " and allows only ",
        (false, true) => " and allow only ",
    }
}

/// What stands before the first wish.
fn first_verb(needed: bool, is_alone: bool, is_plural: bool) -> &'static str {
    if !needed {
        return if is_plural {
            ", allow only "
        } else {
            " allows only "
        };
    }
    match (is_alone, is_plural) {
        (true, false) => " asks for ",
        (true, true) => ", ask for ",
        (false, false) => " needs ",
        (false, true) => ", need ",
    }
}

// ---- what versions ask for

/// Prints what versions of a name ask for in some lines: `react-hot 4.13.1 asks for react ^17; 4.1.0 asks for react ^16`.
fn write_asked<'r, W: fmt::Write>(
    f: &mut fmt::Formatter<W>,
    reasons: &'r [Reason<'r>],
    name: &str,
) -> fmt::Result {
    let mut is_first = true;
    for (place, reason) in reasons.iter().enumerate() {
        if let Source::Versions(asker, wish, keys) = &reason.source {
            if *asker != name || is_asked_before(reasons, place, name, *wish, keys) {
                continue;
            }
            f.write_str(if is_first { "" } else { "; " })?;
            let shown = if is_first { Some(name) } else { None };
            write_part(f, reasons, name, shown, *wish, keys)?;
            is_first = false;
        }
    }
    Ok(())
}

/// Prints what some versions ask for: maybe one name by many specs.
fn write_part<'r, W: fmt::Write>(
    f: &mut fmt::Formatter<W>,
    reasons: &'r [Reason<'r>],
    name: &str,
    shown: Option<&str>,
    wish: Wish<'_>,
    keys: &[&str],
) -> fmt::Result {
    let specs = specs_of(reasons, name, wish);
    if specs.count < MANY {
        write_versions(f, shown, keys)?;
        return write_wishes_of_versions(f, reasons, name, keys);
    }
    let versions = specs.versions;
    write!(f, "{versions} versions")?;
    write_of(f, shown)?;
    write_examples(f, specs.first_key, specs.last_key)?;
    f.write_str(verb(None, wish.needed, true, true))?;
    write_specs(f, wish.name, " in one of ", specs)
}

/// Prints `react-hot 4.1.0`, or `12 versions of react-hot, 4.13.1 to 4.1.0`. The name is left out if there is none.
fn write_versions<W: fmt::Write>(
    f: &mut fmt::Formatter<W>,
    name: Option<&str>,
    keys: &[&str],
) -> fmt::Result {
    match keys {
        [] => {
            f.write_str("no version")?;
            write_of(f, name)
        }
        [key] => {
            if let Some(name) = name {
                write_shown(f, name.as_bytes())?;
                f.write_str(" ")?;
            }
            write_shown(f, key.as_bytes())
        }
        [first, .., last] => {
            let count = keys.len();
            write!(f, "{count} versions")?;
            write_of(f, name)?;
            f.write_str(", ")?;
            write_shown(f, first.as_bytes())?;
            f.write_str(if count == 2 { " and " } else { " to " })?;
            write_shown(f, last.as_bytes())
        }
    }
}

/// Prints ` of react-hot`, if there is a name.
fn write_of<W: fmt::Write>(f: &mut fmt::Formatter<W>, name: Option<&str>) -> fmt::Result {
    match name {
        Some(name) => {
            f.write_str(" of ")?;
            write_shown(f, name.as_bytes())
        }
        None => Ok(()),
    }
}

/// Prints `no version of react-hot`.
fn write_none<W: fmt::Write>(f: &mut fmt::Formatter<W>, name: &str) -> fmt::Result {
    f.write_str("no version")?;
    write_of(f, Some(name))
}

/// Prints what these versions ask for in some lines, unless it is said with other specs of its name.
fn write_wishes_of_versions<'r, W: fmt::Write>(
    f: &mut fmt::Formatter<W>,
    reasons: &'r [Reason<'r>],
    name: &str,
    keys: &[&str],
) -> fmt::Result {
    let mut count = 0_usize;
    for reason in reasons {
        if wish_of_versions(reasons, reason, name, keys).is_some() {
            count = count.saturating_add(1);
        }
    }
    let mut before = None;
    for reason in reasons {
        if let Some(wish) = wish_of_versions(reasons, reason, name, keys) {
            f.write_str(verb(before, wish.needed, count == 1, 1 < keys.len()))?;
            write_wish(f, wish)?;
            before = Some(wish.needed);
        }
    }
    Ok(())
}

/// What a line says that these versions ask for, if it is about them, and is not said with other specs of its name.
fn wish_of_versions<'r>(
    reasons: &'r [Reason<'r>],
    reason: &'r Reason<'r>,
    name: &str,
    keys: &[&str],
) -> Option<Wish<'r>> {
    match &reason.source {
        Source::Versions(other, wish, others) if *other == name && are_same(others, keys) => {
            if specs_of(reasons, name, *wish).count < MANY {
                Some(*wish)
            } else {
                None
            }
        }
        Source::Versions(..) | Source::Root(_) | Source::Lines(..) => None,
    }
}

/// Returns `true` if a line before this place says what this one does, in the same sentence.
fn is_asked_before<'r>(
    reasons: &'r [Reason<'r>],
    place: usize,
    name: &str,
    wish: Wish<'_>,
    keys: &[&str],
) -> bool {
    let is_one_of_many = MANY <= specs_of(reasons, name, wish).count;
    for (other, before) in reasons.iter().enumerate() {
        if place <= other {
            return false;
        }
        let is_said = if is_one_of_many {
            asked_alike(before, name, wish).is_some()
        } else {
            wish_of_versions(reasons, before, name, keys).is_some()
        };
        if is_said {
            return true;
        }
    }
    false
}

/// Returns `true` for the same keys in the same order.
fn are_same(keys: &[&str], others: &[&str]) -> bool {
    if keys.len() != others.len() {
        return false;
    }
    for (place, key) in keys.iter().enumerate() {
        if others.get(place) != Some(key) {
            return false;
        }
    }
    true
}

// ---- many specs of a name

/// The specs by which versions ask for a name, and how many versions these are.
#[derive(Clone, Copy)]
struct Specs<'v> {
    count: usize,
    first: &'v str,
    last: &'v str,
    versions: usize,
    first_key: &'v str,
    last_key: &'v str,
}

impl<'v> Specs<'v> {
    fn new() -> Specs<'v> {
        Specs {
            count: 0,
            first: "",
            last: "",
            versions: 0,
            first_key: "",
            last_key: "",
        }
    }

    /// Adds a spec, and the versions that ask for it.
    fn add(&mut self, spec: &'v str, keys: &[&'v str]) {
        if self.count == 0 {
            self.first = spec;
        }
        self.last = spec;
        self.count = self.count.saturating_add(1);
        if let (Some(first), Some(last)) = (keys.first(), keys.last()) {
            if self.versions == 0 {
                self.first_key = *first;
            }
            self.last_key = *last;
        }
        self.versions = self.versions.saturating_add(keys.len());
    }
}

/// By which specs versions of a name ask for the name of a wish, as the wish does.
fn specs_of<'r>(reasons: &'r [Reason<'r>], name: &str, wish: Wish<'_>) -> Specs<'r> {
    let mut specs = Specs::new();
    for reason in reasons {
        if let Some((spec, keys)) = asked_alike(reason, name, wish) {
            specs.add(spec, keys);
        }
    }
    specs
}

/// The spec by which versions of a name ask for the name of a wish, as the wish does, and these versions, if the line is about that.
fn asked_alike<'r>(
    reason: &'r Reason<'r>,
    name: &str,
    wish: Wish<'_>,
) -> Option<(&'r str, &'r [&'r str])> {
    match &reason.source {
        Source::Versions(asker, asked, keys) if *asker == name && are_alike(*asked, wish) => {
            Some((asked.spec?, keys.as_slice()))
        }
        Source::Versions(..) | Source::Root(_) | Source::Lines(..) => None,
    }
}

/// Returns `true` for wishes of one name that both need it or do not, and that both have a spec or have none.
fn are_alike(wish: Wish<'_>, other: Wish<'_>) -> bool {
    wish.name == other.name
        && wish.needed == other.needed
        && wish.spec.is_some() == other.spec.is_some()
}

/// Prints `react in one of 25 ranges, such as ^17 and ^16`.
fn write_specs<W: fmt::Write>(
    f: &mut fmt::Formatter<W>,
    name: &str,
    joint: &str,
    specs: Specs<'_>,
) -> fmt::Result {
    write_shown(f, name.as_bytes())?;
    f.write_str(joint)?;
    let count = specs.count;
    write!(f, "{count} ranges")?;
    write_examples(f, filled(specs.first), filled(specs.last))
}

/// Prints `, such as ^17 and ^16`.
fn write_examples<W: fmt::Write>(
    f: &mut fmt::Formatter<W>,
    first: &str,
    last: &str,
) -> fmt::Result {
    f.write_str(", such as ")?;
    write_shown(f, first.as_bytes())?;
    f.write_str(" and ")?;
    write_shown(f, last.as_bytes())
}

// ---- what follows from lines

/// Prints why something follows from lines: maybe since a name has no document.
fn write_lead<W: fmt::Write>(f: &mut fmt::Formatter<W>, is_found: bool, name: &str) -> fmt::Result {
    if is_found {
        return f.write_str("so ");
    }
    f.write_str("since ")?;
    write_shown(f, name.as_bytes())?;
    f.write_str(" has no document, ")
}

/// Prints that terms never hold together. Those of one name are about one version.
fn write_terms<W: fmt::Write>(
    f: &mut fmt::Formatter<W>,
    name: &str,
    terms: &[Term<'_>],
    is_short: bool,
) -> fmt::Result {
    let Some(first) = terms.first() else {
        write_none(f, name)?;
        return f.write_str(" is left");
    };
    match first {
        Term::Asking(asker, _) if count_of(terms, asker) == terms.len() => {
            write_none(f, asker)?;
            f.write_str(" that")?;
            write_wishes_of_terms(f, terms, asker)?;
            f.write_str(" fits")
        }
        Term::Outside(wish) if terms.len() == 1 => write_inside(f, *wish),
        Term::Asking(..) | Term::Outside(_) => write_several(f, terms, is_short),
    }
}

/// Prints that nothing is outside a wish.
fn write_inside<W: fmt::Write>(f: &mut fmt::Formatter<W>, wish: Wish<'_>) -> fmt::Result {
    if wish.needed {
        write_wish(f, wish)?;
        f.write_str(" is needed")
    } else {
        f.write_str("only ")?;
        write_wish(f, wish)?;
        f.write_str(" fits")
    }
}

/// Prints that several terms do not hold together.
fn write_several<W: fmt::Write>(
    f: &mut fmt::Formatter<W>,
    terms: &[Term<'_>],
    is_short: bool,
) -> fmt::Result {
    f.write_str("nothing fits where ")?;
    let mut joint = "";
    for (place, term) in terms.iter().enumerate() {
        if is_said_before(terms, place, *term, is_short) {
            continue;
        }
        f.write_str(joint)?;
        write_term(f, terms, *term, is_short)?;
        joint = " and ";
    }
    Ok(())
}

/// Prints a term, with those of the same name.
fn write_term<W: fmt::Write>(
    f: &mut fmt::Formatter<W>,
    terms: &[Term<'_>],
    term: Term<'_>,
    is_short: bool,
) -> fmt::Result {
    match term {
        Term::Asking(name, _) => {
            f.write_str("a version of ")?;
            write_shown(f, name.as_bytes())?;
            write_wishes_of_terms(f, terms, name)
        }
        Term::Outside(wish) => {
            let specs = outside_of(terms, wish);
            if is_short && MANY <= specs.count {
                write_outside_many(f, wish, specs)?;
            } else {
                f.write_str(if wish.needed {
                    "no "
                } else {
                    "another version than "
                })?;
                write_wish(f, wish)?;
            }
            f.write_str(" is installed")
        }
    }
}

/// Prints `no react in any of 25 ranges, such as ^17 and ^16,`, or of a name that is not needed `a version of react outside 25 ranges,`.
fn write_outside_many<W: fmt::Write>(
    f: &mut fmt::Formatter<W>,
    wish: Wish<'_>,
    specs: Specs<'_>,
) -> fmt::Result {
    if wish.needed {
        f.write_str("no ")?;
        write_specs(f, wish.name, " in any of ", specs)?;
    } else {
        f.write_str("a version of ")?;
        write_specs(f, wish.name, " outside ", specs)?;
    }
    f.write_str(",")
}

/// The specs of a name outside which terms are, as the wish is.
fn outside_of<'v>(terms: &[Term<'v>], wish: Wish<'_>) -> Specs<'v> {
    let mut specs = Specs::new();
    for term in terms {
        if let Term::Outside(other) = term {
            if let Some(spec) = other.spec {
                if are_alike(*other, wish) {
                    specs.add(spec, &[]);
                }
            }
        }
    }
    specs
}

/// Prints what a version of a name asks for in terms.
fn write_wishes_of_terms<W: fmt::Write>(
    f: &mut fmt::Formatter<W>,
    terms: &[Term<'_>],
    name: &str,
) -> fmt::Result {
    let is_alone = count_of(terms, name) == 1;
    let mut before = None;
    for term in terms {
        if let Some(wish) = wish_of_term(*term, name) {
            f.write_str(verb(before, wish.needed, is_alone, false))?;
            write_wish(f, wish)?;
            before = Some(wish.needed);
        }
    }
    Ok(())
}

/// What a version of a name asks for in a term, if it is about one.
fn wish_of_term<'v>(term: Term<'v>, name: &str) -> Option<Wish<'v>> {
    match term {
        Term::Asking(asker, wish) if asker == name => Some(wish),
        Term::Asking(..) | Term::Outside(_) => None,
    }
}

/// The number of terms about versions of a name.
fn count_of(terms: &[Term<'_>], name: &str) -> usize {
    let mut count = 0_usize;
    for term in terms {
        if wish_of_term(*term, name).is_some() {
            count = count.saturating_add(1);
        }
    }
    count
}

/// Returns `true` if a term before this place is said together with this one.
fn is_said_before(terms: &[Term<'_>], place: usize, term: Term<'_>, is_short: bool) -> bool {
    for (other, before) in terms.iter().enumerate() {
        if place <= other {
            return false;
        }
        if are_together(terms, *before, term, is_short) {
            return true;
        }
    }
    false
}

/// Returns `true` for terms about versions of one name, and for terms outside many specs of one name.
fn are_together(terms: &[Term<'_>], before: Term<'_>, term: Term<'_>, is_short: bool) -> bool {
    match (before, term) {
        (Term::Asking(name, _), Term::Asking(other, _)) => name == other,
        (Term::Outside(wish), Term::Outside(other)) => {
            is_short && are_alike(wish, other) && MANY <= outside_of(terms, other).count
        }
        (Term::Asking(..), Term::Outside(_)) | (Term::Outside(_), Term::Asking(..)) => false,
    }
}

// ---- numbers of lines

/// Prints ` (by 1, 2 and 3)`, or ` (by 1 and 2 and 3)`.
fn write_numbers<W: fmt::Write>(
    f: &mut fmt::Formatter<W>,
    numbers: &[usize],
    has_commas: bool,
) -> fmt::Result {
    for (place, number) in numbers.iter().enumerate() {
        let is_last = place.saturating_add(1) == numbers.len();
        f.write_str(joint_at(place, has_commas && !is_last))?;
        write!(f, "{number}")?;
    }
    f.write_str(if numbers.is_empty() { "" } else { ")" })
}

/// What stands before the number at a place.
fn joint_at(place: usize, has_comma: bool) -> &'static str {
    match (place, has_comma) {
        (0, _) => " (by ",
        (_, true) => ", ",
        (_, false) => " and ",
    }
}
