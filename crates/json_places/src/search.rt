//! One pass over a JSON text, in search of what many paths lead to.
ghost use Rattle.std.specs.Prelude.{◌≡◌, IfOk, None, OnOk, Some, map, slice_set};
ghost use Rattle.json_places.specs.Places.{ArePlacesOf};

use crate::part::{Part, narrowed};
use crate::path::{Path, Step};
use crate::place::{Place, moved};
use crate::settled::settled;
use crate::taken::Taken;
use json::{Reader, Scratch, Token};
use std::alloc::{AllocError, Global};

/// Returns the place of the member or item that each path leads to, in the order of the paths, which have to be sorted. If a name
/// comes several times in an object, the last one counts, as when the text is read.
///
/// The result has `None` for a path that leads to no value, and for one that is out of order. The place of a member is that of its
/// name's quotation mark, and the place of an item that of its first byte. The text is read once.
///
/// # Errors
///
/// An allocation failed.
pub fn places_of(
    alloc: Global,
    text: &str,
    paths: &[Path<'_>],
) -> Result<Vec<Option<Place>>, AllocError>
    ensures { IfOk result (λ found. ArePlacesOf text.now paths.now found.items) }
{
    let mut scratch = Scratch::new(alloc);
    let mut reader = Reader::new(text, &mut scratch)?;
    let mut search = Search::new(alloc, text, paths)?;
    let mut offset = reader.offset();
    while let Some(token) = reader.next() {
        search.pass(text, paths, token, offset)?;
        offset = reader.offset();
    }
    settled(
        alloc,
        &mut scratch,
        text,
        paths,
        &search.seen,
        &search.taken,
    )
}

/// An object or a list that is open.
#[derive(Clone, Copy, Debug, Drop)]
struct Open {
    /// The paths that lead to it or through it.
    paths: Part,
    /// The position of a list's next item; `None` for an object.
    next: Option<usize>,
}

/// What is seen so far.
#[derive(Drop)]
struct Search {
    /// For each path the place of what its last step led to last. Of paths with the same steps only the first one has it.
    seen: Vec<Option<Place>>,
    taken: Taken,
    /// The objects and lists that are open, the innermost one last.
    open: Vec<Open>,
    /// The paths that lead to the value that comes next, or through it.
    here: Part,
    /// The place that was seen last.
    last: Place,
}

impl Search {
    ghost use Rattle.json_places.specs.Private.Searches.{IsSearch};

    fn new(alloc: Global, _text: &str, paths: &[Path<'_>]) -> Result<Search, AllocError>
        ensures { IfOk result (IsSearch _text.now) }
    {
        Ok(Search {
            seen: nothing_seen(alloc, paths)?,
            taken: Taken::new(alloc, paths)?,
            open: Vec::new(alloc),
            here: Part {
                start: 0,
                end: paths.len(),
            },
            last: Place::START,
        })
    }

    /// Goes past a token, which begins at this offset.
    fn pass(
        &mut self,
        text: &str,
        paths: &[Path<'_>],
        token: Token<'_>,
        offset: usize,
    ) -> Result<(), AllocError>
        requires { IsSearch text.now self.old }
        ensures { OnOk result (IsSearch text.now self.new) }
    {
        match token {
            Token::Key(name) => {
                self.enter(text, paths, Step::Member(name), offset);
                Ok(())
            }
            Token::BeginObject => {
                self.enter_item(text, paths, offset);
                self.begin(None)
            }
            Token::BeginArray => {
                self.enter_item(text, paths, offset);
                self.begin(Some(0))
            }
            Token::EndObject | Token::EndArray => {
                self.end();
                Ok(())
            }
            _ => {
                self.enter_item(text, paths, offset);
                Ok(())
            }
        }
    }

    /// Begins an object, or a list if its next item has a position.
    fn begin(&mut self, next: Option<usize>) -> Result<(), AllocError>
        ensures seen { OnOk result (self.new.seen ≡ self.old.seen) }
        ensures last { OnOk result (self.new.last ≡ self.old.last) }
    {
        self.open.push(Open {
            paths: self.here,
            next,
        })?;
        Ok(())
    }

    /// Ends the innermost object or list. No path goes through what comes next, until a step is entered.
    fn end(&mut self)
        ensures seen { self.new.seen ≡ self.old.seen }
        ensures last { self.new.last ≡ self.old.last }
    {
        self.open.truncate(self.open.len().saturating_sub(1));
        self.here = Part::NONE;
    }

    /// Comes to a value, which may be an item of the innermost list.
    fn enter_item(&mut self, text: &str, paths: &[Path<'_>], offset: usize)
        requires { IsSearch text.now self.old }
        ensures { IsSearch text.now self.new }
    {
        if let Some(position) = self.next_position() {
            self.enter(text, paths, Step::Item(position), offset);
        }
    }

    /// The position of the next item, if the innermost open value is a list.
    fn next_position(&mut self) -> Option<usize>
        ensures seen { self.new.seen ≡ self.old.seen }
        ensures last { self.new.last ≡ self.old.last }
    {
        match self.open.last_mut() {
            Some(
                Open {
                    next: Some(next),
                    ..
                },
            ) => {
                let position = *next;
                *next = position.saturating_add(1);
                Some(position)
            }
            _ => None,
        }
    }

    /// Comes to a member or to an item of the innermost open value. Whatever the number of paths that go through it, this takes two
    /// binary searches.
    fn enter(&mut self, text: &str, paths: &[Path<'_>], step: Step<'_>, offset: usize)
        requires { IsSearch text.now self.old }
        ensures { IsSearch text.now self.new }
    {
        let depth = self.open.len();
        let Some(open) = self.open.last() else {
            return;
        };
        self.here = narrowed(paths, open.paths, depth - 1, step);
        if self.here.start < self.here.end {
            self.taken.take(self.here.start, depth - 1, offset);
            if ends_after(paths, self.here.start, depth) {
                self.see(text, self.here.start, offset);
            }
        }
    }

    /// Comes to what the last step of the path at an index leads to. A later one counts in place of an earlier one.
    fn see(&mut self, text: &str, index: usize, offset: usize)
        requires { IsSearch text.now self.old }
        ensures { IsSearch text.now self.new }
    {
        if self.last.offset <= offset && offset <= text.len() {
            self.last = moved(text.as_bytes(), self.last, offset);
            put(&mut self.seen, index, self.last);
        }
    }
}

/// Takes the place that was seen last, in place of that of an earlier member.
fn put(seen: &mut Vec<Option<Place>>, index: usize, place: Place)
    ensures { seen.new.items ≡ slice_set seen.old.items index (Some place) }
{
    if let Some(seen) = seen.get_mut(index) {
        *seen = Some(place);
    }
}

/// Nothing is seen for each path.
fn nothing_seen(alloc: Global, paths: &[Path<'_>]) -> Result<Vec<Option<Place>>, AllocError>
    ensures { IfOk result (λ seen. seen.items ≡ map (λ _. None) paths.now) }
{
    paths.iter().map(|_| None).collect(alloc)
}

/// Whether the path at this index has so many steps.
fn ends_after(paths: &[Path<'_>], index: usize, count: usize) -> bool {
    match paths.get(index) {
        Some(path) => path.steps.len() == count,
        None => false,
    }
}
