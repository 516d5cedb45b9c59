//! Handles of versions that may be empty.
ghost use Rattle.std.specs.Prelude.{◌≡◌, ℕ, MatchOption, Option, Some, None};
ghost use Rattle.semver_texts.specs.Version.{VersionValue};

use super::Opaque;
use node_semver::Version;
use std::marker::Model;

/// Borrows a version: while the borrow lasts, nobody changes or frees it. Or is empty, and its pointer is null.
#[repr(C)]
#[derive(Drop)]
pub struct OptionalVersionRef {
    at: *const Opaque,
    pub ghost value: { Option VersionValue },
    ghost life: { ℕ },
}

impl Model for OptionalVersionRef {
    ghost use Rattle.semver_versions.specs.contracts.version.Version.{the_row};
    ghost use Rattle.node_semver_c.specs.Handles.{borrows_held};

    ghost also_owns = { λ h. borrows_held the_row h.at h.life h.value };
}

impl OptionalVersionRef {
    pub(crate) fn get(&self) -> Option<&Version>
        ensures { MatchOption result (self.now.value ≡ None) (λ v. self.now.value ≡ Some v.now) }
    {
        let at = self.at;
        if at.is_null() {
            return None;
        }
        unsafe { Some(&*(at as *const Version)) }
    }
}
