//! Notes about the packages of a mirror, for standard error.
use crate::mirror::KeptPackage;
use crate::mirror::asks::Ask;
use crate::mirror::in_order::put_in_order;
use crate::mirror::texts::{absent_names, lacking_texts, text_of};
use npm_texts::registry_spec;
use std::alloc::{AllocError, Global};

/// Returns the notes about these dependencies, about the packages without a document, and about installed versions that are not in
/// one: in the order of the bytes, each once.
pub fn notes_of(
    alloc: Global,
    asks: &[Ask<'_>],
    packages: &[KeptPackage],
) -> Result<Vec<String>, AllocError> {
    let mut notes = Vec::new(alloc);
    for ask in asks {
        if let Some(said) = words_about(*ask) {
            notes.push(ask_note(alloc, said, ask.name, ask.spec)?)?;
        }
    }
    for name in &absent_names(alloc, packages)? {
        notes.push(text_of(alloc, &["no document in the folder: ", name])?)?;
    }
    for text in &lacking_texts(alloc, packages)? {
        notes.push(text_of(
            alloc,
            &["installed, but not in the document: ", text.as_str()],
        )?)?;
    }
    put_in_order(&mut notes);
    Ok(notes)
}

/// Why nothing is kept for a dependency.
fn words_about(ask: Ask<'_>) -> Option<&'static str> {
    if ask.is_overridden {
        Some("overrides are not read: ")
    } else if registry_spec(ask.name, ask.spec).is_none() {
        Some("not from a registry: ")
    } else {
        None
    }
}

/// The note about a dependency.
fn ask_note<'n>(
    alloc: Global,
    said: &'n str,
    name: &'n str,
    spec: &'n str,
) -> Result<String, AllocError> {
    text_of(alloc, &[said, name, " (", spec, ")"])
}
