//! The start and the end of a text.
ghost use Rattle.std.specs.Prelude.{◌≡◌, nat_eq, option_map};
ghost use Rattle.std.specs.List.{ends_with};
ghost use Rattle.npm_texts.specs.Texts as Texts;

/// Returns `true` if the text ends so.
pub fn ends_with(text: &str, end: &str) -> bool
    ensures { result ≡ ends_with nat_eq text.now end.now }
{
    text.ends_with(end)
}

/// The text without this end, or the whole of it if it does not end so.
pub fn without_end<'t>(text: &'t str, end: &str) -> &'t str
    ensures { result.now ≡ Texts.without_end end.now text.now }
{
    match text.strip_suffix(end) {
        Some(front) => front,
        None => text,
    }
}

/// The text after this start, if it begins so.
pub fn rest_after<'t>(text: &'t str, start: &str) -> Option<&'t str>
    ensures { option_map (λ rest. rest.now) result ≡ Texts.rest_after start.now text.now }
{
    text.strip_prefix(start)
}
