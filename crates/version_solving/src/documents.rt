//! The packages that candidates are chosen from.
ghost use Rattle.std.specs.Prelude.{◌≡◌};
ghost use Rattle.version_solving.specs.Documents.{problem_of};
ghost use Rattle.std.specs.Prelude.{[]};

use crate::Demand;

/// A version of a package.
#[derive(Drop)]
pub struct Candidate {
    pub demands: Vec<Demand>,
}

/// The versions of a package, the best first.
#[derive(Drop)]
pub struct Package {
    pub candidates: Vec<Candidate>,
}

/// A set of candidates of one name: whether it has each, in the order of the package.
#[derive(Drop)]
pub struct Range {
    pub allowed: Vec<bool>,
}

/// Packages by name, and ranges. A name past the end has no candidates, and a range past the end allows none.
#[derive(Drop)]
pub struct Documents {
    pub packages: Vec<Package>,
    pub ranges: Vec<Range>,
}

impl Documents {
    /// Returns how many candidates a name has.
    pub fn count(&self, name: usize) -> usize
        ensures { result ≡ (problem_of [] self.now).count name }
    {
        match self.packages.get(name) {
            Some(package) => package.candidates.len(),
            None => 0,
        }
    }

    /// Returns the demands of a candidate.
    pub fn demands(&self, name: usize, candidate: usize) -> &[Demand]
        ensures { result.now ≡ (problem_of [] self.now).demands name candidate }
    {
        match self.packages.get(name) {
            Some(package) => match package.candidates.get(candidate) {
                Some(candidate) => candidate.demands.as_slice(),
                None => &[],
            },
            None => &[],
        }
    }

    /// Returns `true` if a range allows a candidate.
    pub fn allows(&self, range: usize, candidate: usize) -> bool
        ensures { result ≡ (problem_of [] self.now).allows range candidate }
    {
        match self.ranges.get(range) {
            Some(range) => match range.allowed.get(candidate) {
                Some(allowed) => *allowed,
                None => false,
            },
            None => false,
        }
    }
}
