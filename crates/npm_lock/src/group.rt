//! Groups of dependencies, and the specs of one in the order of their names.
ghost use Rattle.std.specs.Prelude.{◌≡◌, option_map};
ghost use Rattle.serde_json.specs.Find.{get_member};
ghost use Rattle.serde_json.specs.View.{members_view, view};
ghost use Rattle.npm_lock.specs.Mismatches as Mismatches;
ghost use Rattle.npm_lock.specs.Private.GroupSpecs.{AreSorted, IsFirst, IsLeft, first_key, left_of};

use serde_json::{Map, Value};
use std::collections::btree_map::Iter;

/// A group of dependencies of a package.
#[derive(Clone, Copy, Debug, PartialEq, Eq, Drop)]
pub enum Group {
    Dependencies,
    DevDependencies,
    OptionalDependencies,
    PeerDependencies,
}

impl Group {
    /// The name of the group, as `package.json` has it.
    pub fn as_str(self) -> &'static str
        ensures { result.now ≡ Mismatches.group_text self }
    {
        match self {
            Group::Dependencies => "dependencies",
            Group::DevDependencies => "devDependencies",
            Group::OptionalDependencies => "optionalDependencies",
            Group::PeerDependencies => "peerDependencies",
        }
    }
}

/// The members of a group from a name on, in the order of their names.
#[derive(Drop)]
pub(crate) struct GroupSpecs<'v> {
    next: Option<(&'v String, &'v Value)>,
    rest: Iter<'v, String, Value>,
}

impl<'v> GroupSpecs<'v> {
    /// All members of a group.
    pub(crate) fn of_group(members: &'v Map<String, Value>) -> GroupSpecs<'v>
        ensures left { left_of result ≡ members_view members.now.entries }
        ensures sorted { AreSorted (left_of result) }
    {
        let mut rest = members.iter();
        GroupSpecs {
            next: rest.next(),
            rest,
        }
    }

    /// The first name that is left.
    pub(crate) fn name(&self) -> Option<&'v str>
        ensures { option_map (λ name. name.now) result ≡ first_key (left_of self.now) }
    {
        let (name, _) = self.next?;
        Some(name.as_str())
    }

    /// Takes the value of a name that is the first that is left, if it is there.
    pub(crate) fn take(&mut self, name: &str) -> Option<&'v Value>
        requires sorted { AreSorted (left_of self.now) }
        requires first { IsFirst name.now (left_of self.now) }
        ensures value { option_map (λ value. view value.now) result ≡ get_member name.now (left_of self.old) }
        ensures left { IsLeft name.now (left_of self.old) (left_of self.new) }
    {
        match self.next {
            Some((first, value)) if first.as_str() == name => {
                self.next = self.rest.next();
                Some(value)
            }
            _ => None,
        }
    }
}
