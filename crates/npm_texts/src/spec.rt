//! What npm reads a spec as.
ghost use Rattle.std.specs.Prelude.{◌≡◌, ◌<◌, ◌∷◌, option_map, reverse};
ghost use Rattle.std.specs.Char.{is_ascii_alphabetic};
ghost use Rattle.std.specs.List.{before_first, list_all, list_any};
ghost use Rattle.npm_texts.specs.RangeText as RangeText;
ghost use Rattle.npm_texts.specs.SpecGrammar.{IsSpec, spec_value};

use crate::text::{ends_with, rest_after};

/// What npm reads a spec as.
#[derive(Clone, Copy)]
pub enum Spec<'t> {
    /// A range or a tag.
    Text(&'t str),
    /// A URL, a repository, a file or a folder.
    Location,
    /// An alias of what is in no registry. npm refuses it.
    Refused,
}

/// Returns what npm reads a spec as. `^1` and `npm:a@^1` are the text `^1`, and the empty spec is `*`.
pub fn spec_of(spec: &str) -> Spec<'_>
    ensures value { spec_value result ≡ RangeText.spec_of spec.now }
    ensures written { IsSpec spec.now (spec_value result) }
{
    match alias_of(spec) {
        Some(alias) => aliased(alias_range(alias)),
        None => plain_spec(spec),
    }
}

/// What the text of an alias is.
pub(crate) fn aliased(range: &str) -> Spec<'_>
    ensures { spec_value result ≡ RangeText.alias_value range.now }
{
    if is_location(range) {
        Spec::Refused
    } else {
        Spec::Text(range)
    }
}

/// What a spec is that is no alias.
pub(crate) fn plain_spec(spec: &str) -> Spec<'_>
    ensures { spec_value result ≡ RangeText.other_value spec.now }
{
    if is_location(spec) {
        Spec::Location
    } else {
        Spec::Text(filled(spec))
    }
}

/// Returns `true` if the text is neither an alias nor a URL, a repository, a file or a folder. Does not allocate.
pub fn is_plain(spec: &str) -> bool
    ensures { result ≡ RangeText.is_plain spec.now }
{
    alias_of(spec).is_none() && !is_location(spec)
}

/// Returns the text, or `*` if it is empty.
pub fn filled(text: &str) -> &str
    ensures { result.now ≡ RangeText.filled text.now }
{
    if text.is_empty() { "*" } else { text }
}

/// Returns the text after `npm:`, with letters of either case.
pub(crate) fn alias_of(spec: &str) -> Option<&str>
    ensures { option_map (λ text. text.now) result ≡ RangeText.alias_target spec.now }
{
    let text = after_either(spec, 'n', 'N')?;
    let text = after_either(text, 'p', 'P')?;
    let text = after_either(text, 'm', 'M')?;
    after_either(text, ':', ':')
}

/// Returns the text after its first character, if that is one of these two.
fn after_either(text: &str, character: char, other: char) -> Option<&str>
    requires { (0 < character) × (character < 128) × (0 < other) × (other < 128) }
    ensures { option_map (λ text. text.now) result ≡ RangeText.past_either character other text.now }
{
    match text.strip_prefix(character) {
        Some(rest) => Some(rest),
        None => text.strip_prefix(other),
    }
}

/// Returns the text of an alias. A scope's `@` comes before the name.
pub(crate) fn alias_range(alias: &str) -> &str
    ensures { result.now ≡ RangeText.target_range alias.now }
{
    match rest_after(alias, "@") {
        Some(scoped) => range_of_name(scoped, "*"),
        None => range_of_plain(alias),
    }
}

/// Returns the text of an alias whose name has no scope. A text that can be no name stands for itself.
fn range_of_plain(alias: &str) -> &str
    ensures { result.now ≡ RangeText.unscoped_range alias.now }
{
    let other = if is_name(alias) { "*" } else { alias };
    range_of_name(alias, other)
}

/// Returns the text after the `@` of `NAME@TEXT`, or the other text if there is none.
fn range_of_name<'t>(name: &'t str, other: &'t str) -> &'t str
    ensures { result.now ≡ RangeText.range_after name.now other.now }
{
    match name.split_once('@') {
        Some((_, range)) => filled(range),
        None => other,
    }
}

/// Returns the name of the package that a spec is an alias of: `a` of `npm:a@^1`. An alias that npm refuses has none.
pub fn aliased_name(spec: &str) -> Option<&str>
    ensures { option_map (λ name. name.now) result ≡ RangeText.aliased_name spec.now }
{
    let alias = alias_of(spec)?;
    if is_location(alias_range(alias)) {
        return None;
    }
    name_of_alias(alias)
}

/// Returns the name of an alias, with its scope.
pub(crate) fn name_of_alias(alias: &str) -> Option<&str>
    ensures { option_map (λ name. name.now) result ≡ RangeText.target_name alias.now }
{
    match rest_after(alias, "@") {
        Some(scoped) => Some(scoped_name(alias, scoped)),
        None => plain_name(alias),
    }
}

/// Returns the name of an alias, given what follows the `@` of its scope.
fn scoped_name<'t>(alias: &'t str, scoped: &str) -> &'t str
    requires { alias.now ≡ 64 ∷ scoped.now }
    ensures { result.now ≡ 64 ∷ before_first RangeText.is_at_sign scoped.now }
{
    match scoped.split_once('@') {
        Some((name, _)) => &alias[..name.len() + 1],
        None => alias,
    }
}

/// Returns the name of an alias that has no scope.
fn plain_name(alias: &str) -> Option<&str>
    ensures { option_map (λ name. name.now) result ≡ RangeText.unscoped_name alias.now }
{
    match alias.split_once('@') {
        Some((name, _)) => Some(name),
        None if is_name(alias) => Some(alias),
        None => None,
    }
}

/// Returns `true` if the text can be a name.
fn is_name(text: &str) -> bool
    ensures { result ≡ RangeText.can_be_name text.now }
{
    !text.is_empty() && are_tag_bytes(text)
}

/// Returns `true` for a URL, a repository, a file or a folder.
fn is_location(text: &str) -> bool
    ensures { result ≡ RangeText.is_elsewhere text.now }
{
    text.starts_with(".") || has_slash(text) || is_url(text) || is_archive(text)
}

fn has_slash(text: &str) -> bool
    ensures { result ≡ list_any RangeText.is_slash text.now }
{
    text.bytes().any(|byte| byte == b'/')
}

/// Returns `true` if the text begins as a URL or a repository, with a scheme and a `:`.
fn is_url(text: &str) -> bool
    ensures { result ≡ RangeText.has_scheme text.now }
{
    match text.split_once(':') {
        Some((scheme, _)) => is_scheme(scheme),
        None => false,
    }
}

fn is_scheme(text: &str) -> bool
    ensures { result ≡ RangeText.begins_url text.now }
{
    are_letters(rest_after(text, "git+").unwrap_or(text)) || ends_with(text, "@gist.github.com")
}

fn are_letters(text: &str) -> bool
    ensures { result ≡ RangeText.all_letters text.now }
{
    !text.is_empty() && has_letters_alone(text)
}

fn has_letters_alone(text: &str) -> bool
    ensures { result ≡ list_all is_ascii_alphabetic text.now }
{
    text.bytes().all(|byte| byte.is_ascii_alphabetic())
}

/// Returns `true` if the text ends as the name of an archive.
fn is_archive(text: &str) -> bool
    ensures { result ≡ RangeText.ends_archive text.now }
{
    let bytes = text.as_bytes();
    before_tgz(bytes).is_some() || before_tar(bytes).is_some() || before_tar_gz(bytes).is_some()
}

/// Returns the text before `.tgz`.
fn before_tgz(text: &[u8]) -> Option<&[u8]>
    ensures { option_map (λ front. reverse front.now) result ≡ RangeText.before_tgz (reverse text.now) }
{
    let text = before_letter(text, b'z')?;
    let text = before_letter(text, b'g')?;
    let text = before_letter(text, b't')?;
    before_letter(text, b'.')
}

/// Returns the text before `.tar`.
fn before_tar(text: &[u8]) -> Option<&[u8]>
    ensures { option_map (λ front. reverse front.now) result ≡ RangeText.before_tar (reverse text.now) }
{
    let text = before_letter(text, b'r')?;
    let text = before_letter(text, b'a')?;
    let text = before_letter(text, b't')?;
    before_letter(text, b'.')
}

/// Returns the text before `.tar.gz`, where any character of ASCII does for the second dot.
fn before_tar_gz(text: &[u8]) -> Option<&[u8]>
    ensures { option_map (λ front. reverse front.now) result ≡ RangeText.before_tar_gz (reverse text.now) }
{
    let text = before_letter(text, b'z')?;
    let text = before_letter(text, b'g')?;
    before_tar(before_any(text)?)
}

/// Returns the text before its last byte, if that is this letter, small or capital.
fn before_letter(text: &[u8], letter: u8) -> Option<&[u8]>
    ensures { option_map (λ front. reverse front.now) result ≡ RangeText.past_letter letter (reverse text.now) }
{
    let (last, front) = text.split_last()?;
    if last.to_ascii_lowercase() == letter {
        Some(front)
    } else {
        None
    }
}

/// Returns the text before its last byte, if that does for a dot.
fn before_any(text: &[u8]) -> Option<&[u8]>
    ensures { option_map (λ front. reverse front.now) result ≡ RangeText.past_any (reverse text.now) }
{
    let (last, front) = text.split_last()?;
    if is_any(*last) { Some(front) } else { None }
}

fn is_any(byte: u8) -> bool
    ensures { result ≡ RangeText.is_any byte }
{
    byte < 128 && byte != b'\n' && byte != b'\r'
}

/// Returns `true` if the text can be a tag. White space around it does not count.
pub fn is_tag(text: &str) -> bool
    ensures { result ≡ RangeText.is_tag text.now }
{
    are_tag_bytes(text.trim())
}

/// Returns `true` if each byte of the text is one of a tag: letters, digits and `-_.!~*'()`. Does not allocate.
pub fn are_tag_bytes(text: &str) -> bool
    ensures { result ≡ list_all RangeText.is_tag_byte text.now }
{
    text.bytes().all(is_tag_byte)
}

fn is_tag_byte(byte: u8) -> bool
    ensures { result ≡ RangeText.is_tag_byte byte }
{
    byte.is_ascii_alphanumeric() || b"-_.!~*'()".contains(&byte)
}
