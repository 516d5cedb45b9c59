//! The groups that are left out.

use crate::asked::Asked;
use crate::call_error::CallError;
use crate::member::{Words, is_among};
use npm_lock_reports::Omissions;
use npm_resolve::Omits;

/// Takes the groups that a resolver leaves out.
pub(crate) fn omits_of(asked: &mut Asked<'_>) -> Result<Omits, CallError> {
    let groups = asked.words("omit", Words::Groups)?;
    Ok(Omits {
        dev: is_among(&groups, "dev"),
        optional: is_among(&groups, "optional"),
        peer: is_among(&groups, "peer"),
    })
}

/// Takes the groups that a check leaves out.
pub(crate) fn omissions_of(asked: &mut Asked<'_>) -> Result<Omissions, CallError> {
    let groups = asked.words("omit", Words::PackageGroups)?;
    Ok(Omissions {
        dev: is_among(&groups, "dev"),
        optional: is_among(&groups, "optional"),
    })
}
