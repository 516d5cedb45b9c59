//! The intervals of a range, as a handle has them.
use semver_keys::KeyInterval;
use std::marker::Model;

/// The intervals of a range.
#[derive(Drop)]
pub struct Intervals {
    pub(crate) list: Vec<KeyInterval>,
}

impl Model for Intervals {
    ghost use Rattle.std.specs.Prelude.{List};
    ghost use Rattle.semver_keys.specs.Intervals.{IntervalValue};

    ghost Value = { List IntervalValue };

    ghost view = { λ i. i.list.items };
}
