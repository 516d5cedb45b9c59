//! Texts by number.

use crate::Result;
use std::alloc::Global;
use std::collections::BTreeMap;

/// Names and specs, each with a number.
#[derive(Drop)]
pub(crate) struct Texts<'v> {
    all: Vec<&'v str>,
    numbers: BTreeMap<&'v str, usize>,
}

impl<'v> Texts<'v> {
    pub(crate) fn new(alloc: Global) -> Texts<'v> {
        Texts {
            all: Vec::new(alloc),
            numbers: BTreeMap::new(alloc),
        }
    }

    /// Returns the number of a text. A new text gets the next one.
    pub(crate) fn number(&mut self, text: &'v str) -> Result<usize> {
        if let Some(number) = self.numbers.get(&text) {
            return Ok(*number);
        }
        let number = self.all.len();
        self.all.push(text)?;
        self.numbers.insert(text, number)?;
        Ok(number)
    }

    /// Returns the text with a number.
    pub(crate) fn text(&self, number: usize) -> &'v str {
        match self.all.get(number) {
            Some(text) => *text,
            None => "",
        }
    }
}
