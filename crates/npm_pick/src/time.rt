//! When a version was published.
//!
//! Times are numbers of nanoseconds. With a type of `jiff` in their place, each library above would load all of `jiff` as it is
//! written, and take 0.9 GB more.
ghost use Rattle.std.specs.Prelude.{◌≡◌, option_map};
ghost use Rattle.serde_json.specs.View.{view};
ghost use Rattle.npm_pick.specs.Times as Times;

use jiff_fmt::temporal::parse_timestamp;
use npm_texts::is_true;
use serde_json::Value;

/// Returns `true` if the version was not published after this time. A version without a time counts as published.
pub fn is_published(packument: &Value, before: Option<i128>, key: &str) -> bool
    ensures { result ≡ Times.is_published before (view packument.now) key.now }
{
    match time_of(packument, key) {
        Some(time) => is_in_time(before, time),
        None => true,
    }
}

/// The time of a version.
fn time_of<'v>(packument: &'v Value, key: &str) -> Option<&'v Value>
    ensures { option_map (λ time. view time.now) result ≡ Times.time_of (view packument.now) key.now }
{
    packument.get("time")?.get(key)
}

/// Returns `true` for a time that counts as none, or is not after the other.
fn is_in_time(before: Option<i128>, time: &Value) -> bool
    ensures { result ≡ Times.is_in_time before (view time.now) }
{
    if !is_true(time) {
        return true;
    }
    match time.as_str() {
        Some(text) => is_text_in_time(before, text),
        None => false,
    }
}

/// Returns `true` for the text of a time that is not after the other.
fn is_text_in_time(before: Option<i128>, text: &str) -> bool
    ensures { result ≡ Times.is_text_in_time before text.now }
{
    match parse_time(text) {
        Some(time) => is_at_most(time, before),
        None => false,
    }
}

fn is_at_most(time: i128, before: Option<i128>) -> bool
    ensures { result ≡ Times.is_at_most before time }
{
    match before {
        Some(before) => time <= before,
        None => true,
    }
}

/// Returns the time of a text, in nanoseconds since 1970-01-01T00:00:00Z, or `None` if the text is no time with a date, a time of
/// the day and an offset.
///
/// It is what [`Options::before`](crate::Options::before) takes.
///
/// # Memory
///
/// Does not allocate.
///
/// # Examples
///
/// - `1970-01-01T00:00:01Z` and `1970-01-01T01:00:01.000+01:00`: 1000000000.
/// - `None` for `1970-01-01` and `1970-01-01T00:00:01`.
///
/// # Source
///
/// RFC 9557, which has RFC 3339 within it, as the Rust crate `jiff` reads a `Timestamp`.
pub fn parse_time(text: &str) -> Option<i128>
    ensures { result ≡ Times.time_text text.now }
{
    match parse_timestamp(text.as_bytes()) {
        Ok(time) => Some(time.nanosecond),
        Err(_) => None,
    }
}
