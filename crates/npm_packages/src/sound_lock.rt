//! Lock files without a fault.
ghost use Rattle.std.specs.Prelude.{◌≡◌, ◌↔◌, IfOk, IsErrOf, None, OnOk, Some, codes};
ghost use Rattle.serde_json.specs.Data.{Data};
ghost use Rattle.serde_json.specs.Find.{get};
ghost use Rattle.serde_json.specs.View.{view};
ghost use Rattle.npm_packages.specs.Faults.{lock_fault};
ghost use Rattle.npm_packages.specs.Index.{IsIndexOf};
ghost use Rattle.npm_packages.specs.PackageValue.{packages_data};
ghost use Rattle.npm_packages.specs.Rules.{AreRules};
ghost use Rattle.npm_packages.specs.declared.fault.Fault.{Fault};

use crate::Result;
use crate::fault::{CheckError, lock_of};
use crate::index::Index;
use crate::overrides::{Rules, rules_of};
use crate::place::Lock;
use serde_json::Value;
use std::alloc::Global;
use std::marker::Model;

/// A lock file without a fault, with the index of its packages and the rules of its `overrides`. Whoever has one need not look
/// for faults again. A contract sees the value of the file.
#[derive(Drop)]
pub struct SoundLock<'v> {
    file: &'v Value,
    packages: Lock<'v>,
    index: Index<'v>,
    rules: Rules<'v>,
}

impl<'v> Model for SoundLock<'v> {
    ghost use Rattle.serde_json.specs.contracts.value.Value as value;
    ghost use Rattle.serde_json.specs.declared.value.Value.{Value as FileValue};
    ghost use Rattle.npm_packages.specs.Private.SoundLock.{IsPrepared};

    ghost Value = { FileValue };

    ghost coded = { value.the_row.coded };

    ghost view = { λ lock. lock.file.now };

    ghost invariant = { λ lock. IsPrepared lock.file.now lock.packages lock.index lock.rules };
}

impl<'v> SoundLock<'v> {
    /// Returns a lock file, if it has no fault. The members of `packages` are read once to find a fault, and once more for the index.
    ///
    /// # Errors
    ///
    /// - `Refused`: the value is no lock file of version 2 or 3, or a member that counts has the wrong type. The fault is that of
    ///   [`lock_of`](crate::lock_of).
    /// - `Memory`: an allocation failed.
    ///
    /// # Memory
    ///
    /// Allocates an [`Index`] and [`Rules`]. The file is borrowed.
    ///
    /// # Examples
    ///
    /// For `{"lockfileVersion": 3, "packages": {}}` a lock file without packages. `{}` is refused, with `Version`.
    pub fn of(alloc: Global, file: &'v Value) -> Result<SoundLock<'v>, CheckError>
        ensures file { IfOk result (λ lock. lock ≡ file.now) }
        ensures sound { OnOk result (lock_fault (view file.now) ≡ None) }
        ensures refused { (fault : Fault) → IsErrOf result (CheckError.Refused fault)
            ↔ (lock_fault (view file.now) ≡ Some fault) }
    {
        let packages = match lock_of(alloc, file) {
            Ok(packages) => packages,
            Err(fault) => return Err(CheckError::Refused(fault)),
        };
        match SoundLock::prepared(file, packages) {
            Ok(lock) => Ok(lock),
            Err(_) => Err(CheckError::Memory),
        }
    }

    /// A lock file that has no fault and these packages.
    fn prepared(file: &'v Value, packages: Lock<'v>) -> Result<SoundLock<'v>>
        requires sound { lock_fault (view file.now) ≡ None }
        requires packages { get (codes "packages") (view file.now) ≡ Some (packages_data packages) }
        ensures { IfOk result (λ lock. lock ≡ file.now) }
    {
        let index = Index::of_lock(packages)?;
        let rules = rules_of(packages)?;
        Ok(SoundLock {
            file,
            packages,
            index,
            rules,
        })
    }

    /// Returns the value of the file. Does not allocate.
    pub fn file(&self) -> &'v Value
        ensures file { result.now ≡ self.now }
        ensures sound { lock_fault (view self.now) ≡ None }
    {
        self.file
    }

    /// Returns the packages. Does not allocate.
    pub fn packages(&self) -> Lock<'v>
        ensures { get (codes "packages") (view self.now) ≡ Some (packages_data result) }
    {
        self.packages
    }

    /// Returns the index of the packages, for [`Lock::find`]. Does not allocate.
    pub fn index(&self) -> &Index<'v>
        ensures { (packages : Data) → get (codes "packages") (view self.now) ≡ Some packages → IsIndexOf packages result.now }
    {
        &self.index
    }

    /// Returns the rules of `overrides`, for [`overridden`](crate::overridden). Does not allocate.
    pub fn rules(&self) -> &Rules<'v>
        ensures { (packages : Data) → get (codes "packages") (view self.now) ≡ Some packages → AreRules packages result.now }
    {
        &self.rules
    }
}
