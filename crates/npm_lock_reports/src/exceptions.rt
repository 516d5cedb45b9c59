//! Which advisories are excepted for a package.

use crate::advisory_exceptions::{Date, Exception};

/// Exceptions, and the day on which they are asked.
#[derive(Clone, Copy, Drop)]
pub struct Exceptions<'a> {
    pub list: &'a [Exception],
    pub today: Date,
}
