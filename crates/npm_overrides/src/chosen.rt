//! The rule that counts for a dependency.
ghost use Rattle.std.specs.Prelude.{◌≡◌, List, IfOk, Some, map, slice_get};
ghost use Rattle.std.specs.Option.{MatchOption};
ghost use Rattle.npm_overrides.specs.Choice.{Counts, Fits, IsFirstInside, NoneInside};
ghost use Rattle.npm_overrides.specs.Private.Steps.{FitsInside, IsStep};
ghost use Rattle.npm_overrides.specs.Rules.{RuleValue, rule_value};

use crate::Result;
use crate::meets::meets;
use crate::rule::Rule;
use crate::rules::Rules;
use std::alloc::Global;

/// What is known of a dependency after a look at one place.
#[derive(Clone, Copy, Drop)]
pub(crate) enum Step {
    /// This rule counts, or none does.
    Found(Option<usize>),
    /// What counts at this place counts.
    Around(usize),
}

impl<'d> Rules<'d> {
    /// Returns the place of the rule that counts for a dependency, by its name and its spec, of a package below which the rules at the
    /// place `counts` count. `None`: no rule counts.
    ///
    /// The nearest rule counts: one inside that place, or else that of the place itself, or else one around it.
    ///
    /// # Errors
    ///
    /// An allocation failed.
    ///
    /// # Memory
    ///
    /// Allocates ranges while it runs.
    ///
    /// # Examples
    ///
    /// For `{"a": {"b": "1"}, "b": "2"}` below `a` the rule `1` counts for `b`, and elsewhere the rule `2`.
    pub fn rule_for(
        &self,
        alloc: Global,
        counts: usize,
        name: &str,
        spec: &str,
    ) -> Result<Option<usize>>
        ensures { IfOk result (Counts (map rule_value self.now.list.items) name.now spec.now counts) }
    {
        let mut at = counts;
        loop {
            match self.step(alloc, at, name, spec)? {
                Step::Found(found) => return Ok(found),
                Step::Around(parent) => at = parent,
            }
        }
    }

    /// Looks at one place.
    fn step(&self, alloc: Global, at: usize, name: &str, spec: &str) -> Result<Step>
        ensures { IfOk result (IsStep (map rule_value self.now.list.items) name.now spec.now at) }
    {
        match self.list.get(at) {
            Some(rule) => match self.first_inside(alloc, at, name, spec)? {
                Some(found) => Ok(Step::Found(Some(found))),
                None => step_past(alloc, rule, at, name, spec),
            },
            None => Ok(Step::Found(None)),
        }
    }

    /// The place of the first rule inside a rule that fits.
    fn first_inside(
        &self,
        alloc: Global,
        parent: usize,
        name: &str,
        spec: &str,
    ) -> Result<Option<usize>>
        ensures { IfOk result (λ found. MatchOption found (NoneInside (map rule_value self.now.list.items) parent name.now spec.now)
            (IsFirstInside (map rule_value self.now.list.items) parent name.now spec.now)) }
    {
        for (at, rule) in self.list.iter().enumerate() {
            if fits_inside(alloc, rule, at, parent, name, spec)? {
                return Ok(Some(at));
            }
        }
        Ok(None)
    }
}

/// Looks at a rule, if none inside it fits.
fn step_past(alloc: Global, rule: &Rule<'_>, at: usize, name: &str, spec: &str) -> Result<Step>
    ensures { IfOk result (λ step. (rules : List RuleValue) → slice_get rules at ≡ Some (rule_value rule.now)
        → NoneInside rules at name.now spec.now → IsStep rules name.now spec.now at step) }
{
    if rule.parent >= at {
        return Ok(Step::Found(None));
    }
    if fits(alloc, rule, name, spec)? {
        Ok(Step::Found(Some(at)))
    } else {
        Ok(Step::Around(rule.parent))
    }
}

/// Returns `true` if the rule at a place is inside the one at `parent`, and fits.
fn fits_inside(
    alloc: Global,
    rule: &Rule<'_>,
    place: usize,
    parent: usize,
    name: &str,
    spec: &str,
) -> Result<bool>
    ensures { IfOk result (FitsInside (rule_value rule.now) place parent name.now spec.now) }
{
    if rule.parent != parent {
        return Ok(false);
    }
    if place <= parent {
        return Ok(false);
    }
    fits(alloc, rule, name, spec)
}

/// Returns `true` if a rule is for this name, and for this spec.
fn fits(alloc: Global, rule: &Rule<'_>, name: &str, spec: &str) -> Result<bool>
    ensures { IfOk result (Fits (rule_value rule.now) name.now spec.now) }
{
    if rule.name == name {
        meets(alloc, rule.range, spec)
    } else {
        Ok(false)
    }
}
