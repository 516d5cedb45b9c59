//! A lock file of version 3 for versions of packages that fit together, one of each package.
//!
//! [`lock_of`] returns it for the manifest of a root and the packages that are installed in its `node_modules`, and [`lock_text`] its text.

mod installed;
mod lock;
mod marks;
mod members;
mod reached;
mod text;

pub use installed::Installed;
pub use lock::lock_of;
pub use marks::Marks;
pub use text::lock_text;
