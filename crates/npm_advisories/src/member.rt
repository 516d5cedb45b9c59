//! Members of JSON objects.
ghost use Rattle.std.specs.Prelude.{◌≡◌, IfOk, option_map};
ghost use Rattle.std.specs.Result.{result_err};
ghost use Rattle.serde_json.specs.View.{items_view, view};
ghost use Rattle.npm_advisories.specs.Advisories.{text_of};
ghost use Rattle.npm_advisories.specs.Faults.{items_fault};
ghost use Rattle.npm_advisories.specs.OsvForm as Form;

use crate::Result;
use crate::fault::FaultKind;
use serde_json::Value;

/// Returns a member that is a string. Does not allocate.
pub(crate) fn text_at<'v>(entry: &'v Value, key: &str) -> Option<&'v str>
    ensures { option_map (λ text. text.now) result ≡ text_of key.now (view entry.now) }
{
    entry.get(key)?.as_str()
}

/// The items of a member that is a list. `null` counts as none, and any other value has this fault.
pub(crate) fn items_at<'v>(
    entry: &'v Value,
    key: &str,
    kind: FaultKind,
) -> Result<&'v [Value], FaultKind>
    ensures items { IfOk result (λ items. items_view items.now ≡ Form.items_at key.now (view entry.now)) }
    ensures fault { result_err result ≡ items_fault key.now kind (view entry.now) }
{
    let Some(value) = entry.get(key) else {
        return Ok(&[]);
    };
    if value.is_null() {
        return Ok(&[]);
    }
    match value.as_array() {
        Some(items) => Ok(items.as_slice()),
        None => Err(kind),
    }
}

/// The items of a member, none if it is no list.
pub(crate) fn listed_at<'v>(entry: &'v Value, key: &str) -> &'v [Value]
    ensures { items_view result.now ≡ Form.items_at key.now (view entry.now) }
{
    match entry.get(key).and_then(Value::as_array) {
        Some(items) => items.as_slice(),
        None => &[],
    }
}
