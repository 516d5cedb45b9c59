//! The packages of which it is not known what all that ask for them admit.

use crate::Report;
use std::alloc::{AllocError, Global};

/// The folders of packages that a dependency asks for which is not checked, as one on a tag. If packages are left out, then not all that is
/// not checked is known, and any package may be one.
#[derive(Drop)]
pub struct Vague<'a> {
    folders: Vec<&'a str>,
    any: bool,
}

impl<'a> Vague<'a> {
    /// Returns those of a report.
    ///
    /// # Errors
    ///
    /// An allocation failed.
    ///
    /// # Memory
    ///
    /// Allocates a list as long as that of what is not checked.
    pub fn of(alloc: Global, report: &'a Report) -> Result<Vague<'a>, AllocError> {
        let mut folders = Vec::new(alloc);
        for unchecked in &report.problems.unchecked {
            if let Some(folder) = &unchecked.dependency.to {
                folders.push(folder.as_str())?;
            }
        }
        folders.sort()?;
        Ok(Vague {
            folders,
            any: report.omitted.is_some(),
        })
    }

    /// Returns `true` if the package in this folder is one. Does not allocate.
    pub fn has(&self, folder: &str) -> bool {
        self.any || self.folders.as_slice().binary_search(&folder).is_ok()
    }
}
