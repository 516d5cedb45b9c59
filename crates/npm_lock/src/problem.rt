//! What is wrong with a dependency, or not known of it, and its JSON object.
ghost use Rattle.std.specs.Prelude.{◌≡◌, [], ◌∷◌, OnOk, None, option_map};
ghost use Rattle.npm_lock.specs.Findings.{IsReport, of_dependency, of_package};
ghost use Rattle.npm_lock.specs.Outcomes.{kind_text, problem_value, unchecked_value};
ghost use Rattle.npm_lock.specs.Private.Adding.{Adds};

use crate::Result;
use crate::json::{Member, object_of};
use serde_json::Value;
use std::alloc::Global;

/// What is wrong.
#[derive(Clone, Copy, Debug, PartialEq, Eq, Drop)]
pub enum Kind {
    /// A dependency is found nowhere, and is not optional.
    Missing,
    /// The found version does not satisfy the range.
    Invalid,
    /// A peer of an installed package is installed in that package's own `node_modules`.
    PeerLocal,
    /// The version of Node does not satisfy `engines.node`.
    Engine,
}

/// The words for what is wrong, as the member `problem` of a JSON object has them: for a mismatch, and for each kind.
pub const PROBLEM_WORDS: [&str; 5] = ["group", "missing", "invalid", "peer-local", "engine"];

impl Kind {
    /// The word for it, as the JSON object has it.
    pub fn as_str(self) -> &'static str
        ensures { result.now ≡ kind_text self }
    {
        match self {
            Kind::Missing => "missing",
            Kind::Invalid => "invalid",
            Kind::PeerLocal => "peer-local",
            Kind::Engine => "engine",
        }
    }
}

/// Why a dependency is not checked.
#[derive(Clone, Copy, Debug, PartialEq, Eq, Drop)]
pub enum Reason {
    /// The spec is a tag.
    Tag,
    /// The spec is a URL, a repository, a file or a folder.
    Location,
    /// The package that was found is linked, and a pattern of `workspaces` is not read here.
    Workspace,
    /// `overrides` change the dependency in a way that is not read here.
    Override,
}

impl Reason {
    /// The word for it, as the JSON object has it.
    pub fn as_str(self) -> &'static str {
        match self {
            Reason::Tag => "tag",
            Reason::Location => "location",
            Reason::Workspace => "workspace",
            Reason::Override => "override",
        }
    }
}

/// A dependency of a package, and the package that was found for it.
#[derive(Debug, PartialEq, Eq, Drop)]
pub struct Dependency {
    /// The folder of the package that asks, `""` for the root.
    pub from: String,
    /// The version of that package.
    pub from_version: Option<String>,
    /// The name of the dependency, or `node`.
    pub name: String,
    /// The spec as it is written.
    pub spec: String,
    /// The folder of the package that was found.
    pub to: Option<String>,
    /// The version of that package, or the asked version of Node.
    pub version: Option<String>,
    /// The lock file marks the package that asks as `dev`, or the name is in `devDependencies`.
    pub dev: bool,
    /// The lock file marks the package that asks as `optional`, or the name need not be found.
    pub optional: bool,
    /// The lock file marks the package that asks as `peer`, or the name is in `peerDependencies`.
    pub peer: bool,
}

impl Dependency {
    /// Returns its JSON object, with one more member of this name.
    ///
    /// # Errors
    ///
    /// An allocation failed.
    pub fn to_json<'a>(&'a self, alloc: Global, name: &'a str, word: &'a str) -> Result<Value> {
        let members = [
            Member::Flag("dev", self.dev),
            Member::Text("from", self.from.as_str()),
            Member::Text("name", self.name.as_str()),
            Member::Flag("optional", self.optional),
            Member::Flag("peer", self.peer),
            Member::Text("spec", self.spec.as_str()),
            Member::TextIfAny("to", self.to.as_ref()),
            Member::TextIfAny("version", self.version.as_ref()),
            Member::Text(name, word),
        ];
        object_of(alloc, &members)
    }
}

/// A problem with a dependency of a package, or with its version of Node.
#[derive(Debug, PartialEq, Eq, Drop)]
pub struct Problem {
    pub kind: Kind,
    pub dependency: Dependency,
}

impl Problem {
    /// The problem as a JSON object, whose members are in the order of their names.
    pub fn to_json(&self, alloc: Global) -> Result<Value> {
        self.dependency
            .to_json(alloc, "problem", self.kind.as_str())
    }
}

/// A dependency that was found, and is not checked.
#[derive(Debug, PartialEq, Eq, Drop)]
pub struct Unchecked {
    pub reason: Reason,
    pub dependency: Dependency,
}

impl Unchecked {
    /// The dependency as a JSON object, whose members are in the order of their names.
    pub fn to_json(&self, alloc: Global) -> Result<Value> {
        self.dependency
            .to_json(alloc, "unchecked", self.reason.as_str())
    }
}

/// The problems of a lock file, and the counts.
#[derive(Debug, PartialEq, Eq, Drop)]
pub struct Problems {
    /// Packages as their folders sort by bytes; of a package first `node`, and then its dependencies by name.
    pub list: Vec<Problem>,
    /// How many packages there are. A link is none.
    pub packages: usize,
    /// How many dependencies they have.
    pub dependencies: usize,
    /// Those of them that were found and are not checked, in the same order.
    pub unchecked: Vec<Unchecked>,
}

impl Problems {
    pub(crate) fn new(alloc: Global) -> Problems
        ensures { IsReport [] result }
    {
        Problems {
            list: Vec::new(alloc),
            packages: 0,
            dependencies: 0,
            unchecked: Vec::new(alloc),
        }
    }

    /// Adds a package, and its problem with the version of Node.
    pub(crate) fn add_package(&mut self, problem: Option<Problem>) -> Result<()>
        ensures { OnOk result (Adds self.old self.new (of_package (option_map problem_value problem) ∷ [])) }
    {
        self.packages = self.packages.saturating_add(1);
        self.list.extend(problem)
    }

    /// Adds a dependency with nothing wrong.
    pub(crate) fn add_fine(&mut self)
        ensures { Adds self.old self.new (of_dependency None None ∷ []) }
    {
        self.dependencies = self.dependencies.saturating_add(1);
    }

    /// Adds a dependency, with its problem, or as one that is not checked.
    pub(crate) fn add_dependency(
        &mut self,
        problem: Option<Problem>,
        unchecked: Option<Unchecked>,
    ) -> Result<()>
        ensures { OnOk result (Adds self.old self.new
            (of_dependency (option_map problem_value problem) (option_map unchecked_value unchecked) ∷ [])) }
    {
        self.dependencies = self.dependencies.saturating_add(1);
        self.list.extend(problem)?;
        self.unchecked.extend(unchecked)
    }
}
