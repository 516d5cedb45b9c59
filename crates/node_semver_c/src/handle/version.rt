//! Handles of versions.
ghost use Rattle.std.specs.Prelude.{◌≡◌, ℕ, IfOk, MatchOption, Option, Some, None};
ghost use Rattle.semver_texts.specs.Version.{VersionValue};

use super::Opaque;
use crate::raw_box::RawBox;
use node_semver::Version;
use std::alloc::{AllocError, Global};
use std::marker::Model;

/// Owns a version on the heap; or is empty, and its pointer is null.
#[repr(C)]
#[derive(Drop)]
pub struct VersionHandle {
    at: *mut Opaque,
    pub ghost value: { Option VersionValue },
}

impl Model for VersionHandle {
    ghost use Rattle.semver_versions.specs.contracts.version.Version.{the_row};
    ghost use Rattle.node_semver_c.specs.Handles.{owns_held};

    ghost also_owns = { λ h. owns_held the_row h.at h.value };
}

impl VersionHandle {
    pub(crate) fn on_heap(alloc: Global, version: Version) -> Result<VersionHandle, AllocError>
        ensures { IfOk result (λ h. h.value ≡ Some version) }
    {
        let version = Box::new(alloc, version)?;
        Ok(VersionHandle::of(RawBox::of(version)))
    }

    fn of(version: RawBox<Version, Global>) -> VersionHandle
        ensures { result.value ≡ Some version.value }
    {
        let RawBox { at, alloc: _ } = version;
        VersionHandle {
            at: at as *mut Opaque,
        }
    }

    pub(crate) fn free(self, alloc: Global) {
        if let Some(held) = self.into_raw_box(alloc) {
            drop(held.into_box());
        }
    }

    fn into_raw_box(self, alloc: Global) -> Option<RawBox<Version, Global>>
        ensures { MatchOption result (self.value ≡ None) (λ l. self.value ≡ Some l.value) }
    {
        if self.at.is_null() {
            return None;
        }
        let VersionHandle { at } = self;
        Some(RawBox {
            at: at as *mut Version,
            alloc,
        })
    }
}

/// Borrows a version: while the borrow lasts, nobody changes or frees it.
#[repr(C)]
#[derive(Drop)]
pub struct VersionRef {
    at: *const Opaque,
    pub ghost value: { VersionValue },
    ghost life: { ℕ },
}

impl Model for VersionRef {
    ghost use Rattle.semver_versions.specs.contracts.version.Version.{the_row};
    ghost use Rattle.node_semver_c.specs.Handles.{borrows};

    ghost also_owns = { λ h. borrows the_row h.at h.life h.value };
}

impl VersionRef {
    // Returns the borrowed version. `inline(always)`: nothing is computed.
    #[inline(always)]
    pub(crate) fn get(&self) -> &Version
        ensures { result.now ≡ self.now.value }
    {
        unsafe { &*(self.at as *const Version) }
    }
}
