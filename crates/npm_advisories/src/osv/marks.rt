//! Where faults of a range are introduced, where they end, and the limits.
ghost use Rattle.std.specs.Prelude.{◌≡◌, [], IfOk, OnOk};
ghost use Rattle.npm_advisories.specs.Private.OsvReading.{AreInOrder, HasSameMarks, IsMarked};

use crate::Result;
use node_semver::Version;
use semver_cuts::Cut;
use std::alloc::Global;

/// Where a fault is introduced, where one ends, or where the range ends.
#[derive(Drop)]
pub(crate) enum Mark {
    Introduced(Cut<Version>),
    Ended(Cut<Version>),
    Limited(Cut<Version>),
}

/// The marks of a range, by their kinds.
#[derive(Drop)]
pub(crate) struct Marks {
    pub(crate) starts: Vec<Cut<Version>>,
    pub(crate) ends: Vec<Cut<Version>>,
    pub(crate) limits: Vec<Cut<Version>>,
}

impl Marks {
    pub(crate) fn new(alloc: Global) -> Marks
        ensures starts { result.starts.items ≡ [] }
        ensures ends { result.ends.items ≡ [] }
        ensures limits { result.limits.items ≡ [] }
    {
        Marks {
            starts: Vec::new(alloc),
            ends: Vec::new(alloc),
            limits: Vec::new(alloc),
        }
    }

    /// Adds a mark.
    pub(crate) fn add(&mut self, mark: Mark) -> Result<()>
        ensures { OnOk result (IsMarked mark self.old self.new) }
    {
        match mark {
            Mark::Introduced(cut) => self.starts.push(cut)?,
            Mark::Ended(cut) => self.ends.push(cut)?,
            Mark::Limited(cut) => self.limits.push(cut)?,
        }
        Ok(())
    }

    /// The same marks in the order of cuts.
    pub(crate) fn sorted(self) -> Result<Marks>
        ensures same { IfOk result (HasSameMarks self) }
        ensures sorted { IfOk result AreInOrder }
    {
        let Marks {
            mut starts,
            mut ends,
            mut limits,
        } = self;
        starts.sort()?;
        ends.sort()?;
        limits.sort()?;
        Ok(Marks {
            starts,
            ends,
            limits,
        })
    }
}
