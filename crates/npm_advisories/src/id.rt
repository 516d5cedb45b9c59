//! What an advisory is known by in an error.
ghost use Rattle.std.specs.Prelude.{◌≡◌, option_map};
ghost use Rattle.serde_json.specs.View.{view};
ghost use Rattle.npm_advisories.specs.Ids as Ids;

use crate::member::text_at;
use serde_json::Value;

/// The `id` of an advisory, or its address.
#[derive(Clone, Copy, Debug, PartialEq, Eq, Drop)]
pub enum AdvisoryId<'v> {
    Number(u64),
    Text(&'v str),
}

/// The `id` of an advisory, if it is a whole number or a string, or else its `url`, if that is a string.
pub(crate) fn id_in(entry: &Value) -> Option<AdvisoryId<'_>>
    ensures { option_map Ids.id_value result ≡ Ids.id_in (view entry.now) }
{
    match known_id(entry) {
        Some(id) => Some(id),
        None => Some(AdvisoryId::Text(text_at(entry, "url")?)),
    }
}

/// The `id`, if it is a whole number or a string.
fn known_id(entry: &Value) -> Option<AdvisoryId<'_>>
    ensures { option_map Ids.id_value result ≡ Ids.known_id (view entry.now) }
{
    let id = entry.get("id")?;
    match id.as_u64() {
        Some(number) => Some(AdvisoryId::Number(number)),
        None => Some(AdvisoryId::Text(id.as_str()?)),
    }
}
