//! An exception.
ghost use Rattle.std.specs.Prelude.{◌≡◌};
ghost use Rattle.npm_lock_reports.specs.AdvisoryExceptions as Exceptions;
ghost use Rattle.npm_lock_reports.specs.AdvisoryExceptions.{exception_value};

use toml_datetime::Date;

/// An advisory that does not count for a package.
#[derive(Debug, PartialEq, Eq, Drop)]
pub struct Exception {
    /// The id of the advisory.
    pub id: String,
    /// The name of the package.
    pub name: String,
    pub reason: String,
    /// The last day on which the exception applies. `None`: it applies on each day.
    pub until: Option<Date>,
}

impl Exception {
    /// Returns `true` if the last day is before today.
    pub fn is_over(&self, today: Date) -> bool
        ensures { result ≡ Exceptions.is_over today (exception_value self.now) }
    {
        match self.until {
            Some(last) => is_before(last, today),
            None => false,
        }
    }
}

/// Returns `true` if the first day is before the second one.
fn is_before(day: Date, other: Date) -> bool
    ensures { result ≡ Exceptions.is_before day other }
{
    day.year < other.year
        || (day.year == other.year
            && (day.month < other.month || (day.month == other.month && day.day < other.day)))
}
