//! The report of lock files as a page for a browser, and as a JUnit report.
//!
//! [`part_of`] returns the part of one lock file, and [`push_page`] writes the whole of these parts and of the files that were refused.

mod counts;
mod format;
mod head;
mod junit;
mod order;
mod page;
mod part;
mod section;
mod subject;
mod whole;

pub use format::PageFormat;
pub use page::push_page;
pub use part::{part_of, part_pieces};
pub use whole::CheckedFile;
