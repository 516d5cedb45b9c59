//! How npm reads the texts of package files: what a spec of a dependency is, which version an installed package has, which
//! versions a range admits, and what counts as true.
//!
//! [`spec_of`] tells ranges and tags from URLs, repositories and folders. [`installed_version`] reads the `version` of a
//! package, and [`range_of`] the range of a dependency or of an engine.
#![tactic(auto)]

mod copy;
mod installed;
pub mod laws;
mod range;
mod registry;
mod spec;
mod text;
mod truth;
mod white;

pub use copy::{copied, put_text};
pub use installed::installed_version;
pub use range::{OF_DEPENDENCIES, OF_ENGINES, range_of};
pub use registry::{RegistrySpec, registry_spec};
pub use spec::{Spec, aliased_name, are_tag_bytes, filled, is_plain, is_tag, spec_of};
pub use text::{ends_with, rest_after, without_end};
pub use truth::{has_true, is_true};
pub use white::{is_long, is_white, trimmed, without_white_end, without_white_start};
