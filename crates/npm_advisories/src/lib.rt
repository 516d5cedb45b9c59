//! Which installed packages security advisories hit, and the least version that they do not hit.
#![tactic(auto)]

mod advisory;
mod covered;
mod each;
mod fault;
mod found;
mod halves;
mod hits;
mod id;
mod index;
mod json;
mod known;
mod lock;
mod member;
mod names;
mod offer;
mod osv;
mod read;
mod release;
mod severity;
mod spans;
mod steps;
mod unions;
mod version;
mod wanted;

pub use advisory::About;
pub use fault::{AuditError, Fault, FaultKind};
pub use found::{Found, Installed, audit};
pub use id::AdvisoryId;
pub use known::Aliases;
pub use lock::{LockError, audit_lock, audit_sound_lock};
pub use severity::Severity;
pub use steps::fault_steps;
pub use toml_datetime::Date;

/// The result of what fails by memory alone, if no other error is named.
type Result<T, E = std::alloc::AllocError> = std::result::Result<T, E>;
