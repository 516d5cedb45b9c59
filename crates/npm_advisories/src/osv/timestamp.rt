//! Times, as OSV's form writes them.
ghost use Rattle.std.specs.Prelude.{◌≡◌, option_map};
ghost use Rattle.npm_advisories.specs.Timestamps as Timestamps;

use std::str::FromStr;
use toml_datetime::{Date, Datetime};

/// Returns the day of a time in UTC: 2022-01-31 for `2022-01-31T23:59:59Z`. `None`: the text is no such time, as
/// `2022-02-30T00:00:00Z`.
pub(crate) fn day_of(text: &str) -> Option<Date>
    ensures { result ≡ Timestamps.day_of text.now }
{
    if !is_timestamp(text) {
        return None;
    }
    match Datetime::from_str(text) {
        Ok(time) => time.date,
        Err(_) => None,
    }
}

/// Returns `true` if the first day is before the second one.
pub(crate) fn is_before(day: Date, other: Date) -> bool
    ensures { result ≡ Timestamps.is_before day other }
{
    day.year < other.year
        || (day.year == other.year
            && (day.month < other.month || (day.month == other.month && day.day < other.day)))
}

/// Returns `true` for the form of a time in UTC: `2022-01-31T23:59:59Z`, with a fraction of a second or without.
fn is_timestamp(text: &str) -> bool
    ensures { result ≡ Timestamps.is_timestamp text.now }
{
    match after(b"0000-00-00T00:00:00", text.as_bytes()) {
        Some(rest) => is_time_end(rest),
        None => false,
    }
}

/// Returns `true` for `Z`, and for a fraction of a second before it.
fn is_time_end(text: &[u8]) -> bool
    ensures { result ≡ Timestamps.is_time_end text.now }
{
    if text == b"Z".as_slice() {
        return true;
    }
    match after(b".0", text) {
        Some(rest) => is_digits_end(rest),
        None => false,
    }
}

/// Returns `true` for digits before a `Z`.
fn is_digits_end(text: &[u8]) -> bool
    ensures { result ≡ Timestamps.is_digits_end text.now }
{
    for i in 0..text.len() {
        if !text[i].is_ascii_digit() {
            return &text[i..] == b"Z".as_slice();
        }
    }
    false
}

/// What follows a text of this form, in which `0` stands for any digit.
fn after<'v>(form: &[u8], text: &'v [u8]) -> Option<&'v [u8]>
    ensures { option_map (λ rest. rest.now) result ≡ Timestamps.after form.now text.now }
{
    let [wanted, form @ ..] = form else {
        return Some(text);
    };
    let [c, rest @ ..] = text else {
        return None;
    };
    if form_of(*c) == *wanted {
        after(form, rest)
    } else {
        None
    }
}

/// `0` for a digit, and any other byte itself.
fn form_of(c: u8) -> u8
    ensures { result ≡ Timestamps.form_of c }
{
    if c.is_ascii_digit() { b'0' } else { c }
}
