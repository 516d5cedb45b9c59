//! Days, as `2024-03-01`.

use npm_advisories::Date;
use toml_datetime::Datetime;

/// The day if none is said: no advisory was withdrawn by then.
pub(crate) const FIRST_DAY: Date = Date {
    year: 0,
    month: 1,
    day: 1,
};

/// The day of a text.
pub(crate) fn day_of(text: &str) -> Option<Date> {
    match text.parse::<Datetime>() {
        Ok(
            Datetime {
                date,
                time: None,
                offset: None,
            },
        ) => date,
        _ => None,
    }
}
