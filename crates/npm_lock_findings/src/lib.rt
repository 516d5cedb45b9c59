//! The report of lock files as findings: for GitHub Actions and code scanning, as a page for a browser, and as a JUnit report. And where
//! the fault of a file is.
//!
//! [`findings_of`] returns the findings of a report, with the lines and columns of the members that they are about, and [`push_findings`]
//! writes them. [`part_of`] returns the part of one lock file on a page, and [`push_page`] writes the whole of these parts and of the files
//! that were refused.
//!
//! A text leaves the program as a list of [`Piece`]s, words of the program and texts, which [`push_pieces`] writes in a [`Form`]. Its
//! contract says that no text ends a line, leaves a string or is read as markup. [`log_pieces`] and [`part_pieces`] have the message of each
//! finding once.
//!
//! [`lock_fault_place`] and [`manifest_fault_place`] return the fault of a lock file or of a manifest with the path of the member that it is
//! about, its line and its column.
#![tactic(auto)]

mod annotations;
mod draft;
mod faults;
mod finding;
mod forms;
mod github;
mod pages;
mod sarif;

pub use annotations::{AnnotationFormat, findings_of, push_findings, refused_finding};
pub use draft::{Draft, findings_in};
pub use faults::{
    FaultPath, FaultPlace, ShownPlace, ShownStep, lock_fault_path, lock_fault_place,
    manifest_fault_path, manifest_fault_place, root_fault_path,
};
pub use finding::{Finding, Level, Rule, Tool};
pub use forms::{Form, Piece, push_pieces};
pub use github::push_annotation;
pub use pages::{CheckedFile, PageFormat, part_of, part_pieces, push_page};
pub use sarif::{log_pieces, push_log};
