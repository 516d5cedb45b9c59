//! The version of a package that npm would install: npm's `npm-pick-manifest`.
//!
//! [`pick`] reads the document of a package as a registry serves it, whole or abbreviated, and picks one of its versions.
//! [`keep`] lists those that a mirror needs, and [`keys_in_order`] puts versions in their order. [`parse_time`] reads a time of
//! [`Options`]. [`versions_of`], [`tagged`], [`is_restricted`] and [`is_published`] look up what a document says of its versions, and
//! [`engine_of`] and [`is_engine_for`] whether a version fits a version of Node or npm.
#![tactic(auto)]

mod admitted;
mod error;
mod kept;
mod key;
mod member;
mod options;
mod picked;
mod ranged;
mod rank;
mod strict;
mod time;
pub mod wanted;

pub use error::PickError;
pub use kept::keep;
pub use key::keys_in_order;
pub use member::{is_restricted, tagged, versions_of};
pub use options::Options;
pub use picked::{Picked, pick};
pub use rank::asked::{engine_of, is_engine_for};
pub use time::{is_published, parse_time};

/// The result of what fails by memory alone, if no other error is named.
type Result<T, E = std::alloc::AllocError> = std::result::Result<T, E>;
