//! Members that are texts, marks, numbers and lists of texts.

use crate::asked::Asked;
use crate::call_error::CallError;
use crate::fault::Fault;
use crate::text::add;
use serde_json::Value;

impl<'t> Asked<'t> {
    /// Takes a text, if there is one.
    pub(crate) fn text_if_any(&mut self, name: &str) -> Result<Option<String>, CallError> {
        match self.take(name) {
            Some(Value::String(text)) => Ok(Some(text)),
            Some(_) => Err(self.refused(Fault::Text, name)),
            None => Ok(None),
        }
    }

    /// Takes a mark, which is `false` if it is absent.
    pub(crate) fn mark(&mut self, name: &str) -> Result<bool, CallError> {
        match self.take(name) {
            Some(Value::Bool(mark)) => Ok(mark),
            Some(_) => Err(self.refused(Fault::Mark, name)),
            None => Ok(false),
        }
    }

    /// Takes a whole number, if there is one.
    pub(crate) fn count_if_any(&mut self, name: &str) -> Result<Option<u64>, CallError> {
        match self.take(name) {
            Some(value) => match value.as_u64() {
                Some(count) => Ok(Some(count)),
                None => Err(self.refused(Fault::Count, name)),
            },
            None => Ok(None),
        }
    }

    /// Takes a list of values, which is empty if it is absent.
    pub(crate) fn list(&mut self, name: &str) -> Result<Vec<Value>, CallError> {
        match self.take(name) {
            Some(Value::Array(items)) => Ok(items),
            Some(_) => Err(self.refused(Fault::List, name)),
            None => Ok(Vec::new(self.alloc)),
        }
    }

    /// Takes a list of texts, which is empty if it is absent.
    pub(crate) fn texts(&mut self, name: &str) -> Result<Vec<String>, CallError> {
        let mut texts = Vec::new(self.alloc);
        for (place, item) in self.list(name)?.iter().enumerate() {
            match item.as_str() {
                Some(text) => add(&mut texts, String::from_str(self.alloc, text)?)?,
                None => return Err(self.refused_item(Fault::Text, name, place)),
            }
        }
        Ok(texts)
    }

    /// Takes a list of texts, each of which is one of these words.
    pub(crate) fn words(&mut self, name: &str, words: Words) -> Result<Vec<String>, CallError> {
        let texts = self.texts(name)?;
        for (place, text) in texts.iter().enumerate() {
            if !words.has(text.as_str()) {
                return Err(self.refused_item(Fault::Word, name, place));
            }
        }
        Ok(texts)
    }
}

/// The words that a member has.
#[derive(Clone, Copy, Drop)]
pub(crate) enum Words {
    /// The groups that a resolver leaves out.
    Groups,
    /// The groups that a check leaves out.
    PackageGroups,
    /// The kinds of problems.
    Kinds,
}

impl Words {
    /// Returns `true` if this is one of the words. No list of them is kept: a constant that holds pointers has no form in WebAssembly.
    fn has(self, text: &str) -> bool {
        match (self, text) {
            (Words::Groups, "dev" | "optional" | "peer") => true,
            (Words::PackageGroups, "dev" | "optional") => true,
            (Words::Kinds, "group" | "missing" | "invalid" | "peer-local" | "engine") => true,
            _ => false,
        }
    }
}

/// Returns `true` if this is one of the texts.
pub(crate) fn is_among(texts: &[String], wanted: &str) -> bool {
    for text in texts {
        if text.as_str() == wanted {
            return true;
        }
    }
    false
}

/// The text, or this one if there is none.
pub(crate) fn text_or<'a>(text: &'a Option<String>, other: &'a str) -> &'a str {
    match text {
        Some(text) => text.as_str(),
        None => other,
    }
}

/// The text, if there is one.
pub(crate) fn some_text(text: &Option<String>) -> Option<&str> {
    match text {
        Some(text) => Some(text.as_str()),
        None => None,
    }
}
