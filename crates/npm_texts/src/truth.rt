//! What counts as true in JSON.
ghost use Rattle.std.specs.Prelude.{◌≡◌};
ghost use Rattle.serde_json.specs.View.{view};
ghost use Rattle.npm_texts.specs.Truth as Truth;

use serde_json::Value;

/// Returns `true` if a member is there and counts as true.
pub fn has_true(value: &Value, key: &str) -> bool
    ensures { result ≡ Truth.has_true key.now (view value.now) }
{
    value.get(key).is_some_and(is_true)
}

/// Returns `true` if JavaScript counts the value as true.
pub fn is_true(value: &Value) -> bool
    ensures { result ≡ Truth.is_true (view value.now) }
{
    if let Some(mark) = value.as_bool() {
        return mark;
    }
    if let Some(number) = value.as_f64() {
        return !(number == ZERO);
    }
    if let Some(text) = value.as_str() {
        return !text.is_empty();
    }
    !value.is_null()
}

const ZERO: f64 = 0.0;
