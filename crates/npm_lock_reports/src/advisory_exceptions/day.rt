//! The day of a time.
ghost use Rattle.std.specs.Prelude.{IfSome};
ghost use Rattle.npm_lock_reports.specs.Days.{IsDayAt};

use jiff_core::civil;
use toml_datetime::Date;

/// The seconds of a day. A leap second has none of its own.
const DAY: u64 = 86_400;

/// Returns the day in UTC of a time, in seconds after 1970 began. `None`: it is after the year 9999.
///
/// # Memory
///
/// Does not allocate.
///
/// # Source
///
/// The Gregorian calendar, as the Rust crate `jiff` has it.
pub fn day_at(seconds: u64) -> Option<Date>
    ensures { IfSome result (IsDayAt seconds) }
{
    let Ok(number) = i64::try_from(seconds / DAY) else {
        return None;
    };
    let Ok(day) = civil::Date::from_unix_epoch_day(number) else {
        return None;
    };
    let Ok(year) = u16::try_from(day.year) else {
        return None;
    };
    Some(Date {
        year,
        month: day.month,
        day: day.day,
    })
}
