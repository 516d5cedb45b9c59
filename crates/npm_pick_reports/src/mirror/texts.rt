//! The packages of a mirror as texts.
use crate::mirror::KeptPackage;
use std::alloc::{AllocError, Global};

/// Returns the versions that are kept, as `a@1.2.0`.
pub fn kept_texts(alloc: Global, packages: &[KeptPackage]) -> Result<Vec<String>, AllocError> {
    let mut texts = Vec::new(alloc);
    for one in packages {
        add_versions(alloc, &mut texts, one, &one.versions)?;
    }
    Ok(texts)
}

/// Returns the installed versions that are not in the document of their package, as `a@1.2.0`.
pub fn lacking_texts(alloc: Global, packages: &[KeptPackage]) -> Result<Vec<String>, AllocError> {
    let mut texts = Vec::new(alloc);
    for one in packages {
        add_versions(alloc, &mut texts, one, &one.lacking)?;
    }
    Ok(texts)
}

/// Returns the names of the packages without a document.
pub fn absent_names<'p>(
    alloc: Global,
    packages: &'p [KeptPackage],
) -> Result<Vec<&'p str>, AllocError> {
    let mut names = Vec::new(alloc);
    for one in packages {
        if one.is_absent {
            names.push(one.name.as_str())?;
        }
    }
    Ok(names)
}

/// Adds these versions of a package.
fn add_versions(
    alloc: Global,
    texts: &mut Vec<String>,
    one: &KeptPackage,
    versions: &[String],
) -> Result<(), AllocError> {
    for version in versions {
        texts.push(text_of(alloc, &[one.name.as_str(), "@", version.as_str()])?)?;
    }
    Ok(())
}

/// A text of these pieces.
pub(crate) fn text_of(alloc: Global, pieces: &[&str]) -> Result<String, AllocError> {
    let mut text = String::new(alloc);
    for piece in pieces {
        text.push_str(piece)?;
    }
    Ok(text)
}
