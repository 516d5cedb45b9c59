//! What the address of a tarball says of the package in it.
ghost use Rattle.std.specs.Prelude.{◌≡◌, ◌==◌, ◌<◌, IfOk, option_map, string_bytes};
ghost use Rattle.std.specs.List.{after_first, before_first};
ghost use Rattle.std.specs.Path.{rsplit_once};
ghost use Rattle.npm_texts.specs.SpecGrammar.{is_slash};
ghost use Rattle.npm_lock.specs.Tarballs as Tarballs;
ghost use Rattle.npm_lock.specs.Tarballs.{name_value, tarball_value};

use crate::Result;
use npm_texts::{ends_with, rest_after, without_end};
use std::alloc::Global;

/// The name of a package: `@s` and `a` of `@s/a`. The scope is one if it begins with `@`.
#[derive(Clone, Copy, Drop)]
pub(crate) struct Name<'t> {
    pub scope: &'t str,
    pub project: &'t str,
}

/// The package in a tarball.
#[derive(Clone, Copy, Drop)]
pub(crate) struct Tarball<'t> {
    pub name: Name<'t>,
    pub version: &'t str,
}

/// Returns what the address of a tarball says of the package in it, which is installed under this name.
pub(crate) fn tarball_at<'t>(address: &'t str, installed: &'t str) -> Option<Tarball<'t>>
    ensures { option_map tarball_value result ≡ Tarballs.tarball_at address.now installed.now }
{
    let file = file_of(address);
    let stem = stem_of(file)?;
    match in_registry(address, file, stem) {
        Some(tarball) => Some(tarball),
        None => with_name(name_at_end(installed), stem),
    }
}

/// The file that an address ends with, whose slashes at the end do not count.
fn file_of(address: &str) -> &str
    ensures { result.now ≡ Tarballs.file_of address.now }
{
    let (_, file) = parts_at_slash(before_slashes(address));
    file
}

/// The name of a file without `.tgz`.
fn stem_of(file: &str) -> Option<&str>
    ensures { option_map (λ stem. stem.now) result ≡ Tarballs.stem_of file.now }
{
    let stem = front_of(file, ".tgz")?;
    Some(rest_after(stem, "file:").unwrap_or(stem))
}

/// The package in this file of a registry, if the address is a registry's.
fn in_registry<'t>(address: &'t str, file: &str, stem: &'t str) -> Option<Tarball<'t>>
    ensures { option_map tarball_value result ≡ Tarballs.in_registry address.now file.now stem.now }
{
    with_name(name_at_end(above_file(url_path(address)?, file)?), stem)
}

/// The path of a package in a registry, of which this is the path of a file: `@s/a` of `@s/a/-/a-1.0.0.tgz`.
fn above_file<'t>(path: &'t str, file: &str) -> Option<&'t str>
    ensures { option_map (λ above. above.now) result ≡ Tarballs.above_file file.now path.now }
{
    front_of(front_of(path, file)?, "/-/")
}

/// The path of a URL, without the `/` that it begins with: `a/b` of `https://r/a/b?c#d`.
fn url_path(address: &str) -> Option<&str>
    ensures { option_map (λ path. path.now) result ≡ Tarballs.url_path address.now }
{
    let rest = match rest_after(address, "https:/") {
        Some(rest) => rest,
        None => rest_after(address, "http:/")?,
    };
    Some(after_first_slash(before_query(after_slashes(rest))))
}

/// What comes before the `?` or the `#` of a URL.
pub(crate) fn before_query(url: &str) -> &str
    ensures { result.now ≡ Tarballs.before_query url.now }
{
    before(before(url, '#'), '?')
}

/// What comes before the first such character, or the whole text if there is none.
pub(crate) fn before(text: &str, character: char) -> &str
    requires { character < 128 }
    ensures { result.now ≡ before_first (λ byte. byte == character) text.now }
{
    match text.split_once(character) {
        Some((front, _)) => front,
        None => text,
    }
}

/// What comes after the first `/`: `a/b` of `r/a/b`. Nothing comes after it if there is none.
fn after_first_slash(text: &str) -> &str
    ensures { result.now ≡ after_first is_slash text.now }
{
    match text.split_once('/') {
        Some((_, path)) => path,
        None => "",
    }
}

/// The text without slashes at its start.
pub(crate) fn after_slashes(text: &str) -> &str
    ensures { result.now ≡ Tarballs.after_slashes text.now }
{
    let mut left = text;
    while let Some(rest) = rest_after(left, "/") {
        left = rest;
    }
    left
}

/// The text without slashes at its end.
pub(crate) fn before_slashes(text: &str) -> &str
    ensures { result.now ≡ Tarballs.before_slashes text.now }
{
    let mut left = text;
    while let Some(front) = front_of(left, "/") {
        left = front;
    }
    left
}

/// The package of this name in the file `a-1.0.0.tgz`, of which this is `a-1.0.0`.
fn with_name<'t>(name: Name<'t>, stem: &'t str) -> Option<Tarball<'t>>
    ensures { option_map tarball_value result ≡ Tarballs.with_name (name_value name.entry) stem.now }
{
    let after = rest_after(stem, name.project)?;
    let version = rest_after(after, "-")?;
    Some(Tarball { name, version })
}

/// The text before this end, if it ends so.
pub(crate) fn front_of<'t>(text: &'t str, end: &str) -> Option<&'t str>
    ensures { option_map (λ front. front.now) result ≡ Tarballs.front_of end.now text.now }
{
    if ends_with(text, end) {
        Some(without_end(text, end))
    } else {
        None
    }
}

/// The name at the end of a path: `@s/a` of `https://r/@s/a`.
pub(crate) fn name_at_end(path: &str) -> Name<'_>
    ensures { name_value result ≡ Tarballs.name_at_end path.now }
{
    let (above, project) = parts_at_end(path);
    let (_, scope) = parts_at_end(above);
    Name { scope, project }
}

/// What comes before the last `/` or `%2f` of a path, and what comes after it.
fn parts_at_end(path: &str) -> (&str, &str)
    ensures { (result.0.now, result.1.now) ≡ Tarballs.parts_at_end path.now }
{
    let (above, part) = parts_at_slash(path);
    match escaped_parts(part) {
        Some(parts) => parts,
        None => (above, part),
    }
}

/// The two parts of `@s%2fa`.
fn escaped_parts(part: &str) -> Option<(&str, &str)>
    ensures { option_map (λ parts. (parts.0.now, parts.1.now)) result ≡ Tarballs.escaped_parts part.now }
{
    let (front, after) = parted(part, '%')?;
    match rest_after(after, "2f") {
        Some(project) => Some((front, project)),
        None => {
            let project = rest_after(after, "2F")?;
            Some((front, project))
        }
    }
}

/// What comes before the last `/` of a path, and what comes after it.
pub(crate) fn parts_at_slash(path: &str) -> (&str, &str)
    ensures { (result.0.now, result.1.now) ≡ Tarballs.parts_at_slash path.now }
{
    match parted(path, '/') {
        Some(parts) => parts,
        None => ("", path),
    }
}

/// What comes before the last such character of a text, and what comes after it.
pub(crate) fn parted(text: &str, character: char) -> Option<(&str, &str)>
    requires { character < 128 }
    ensures { option_map (λ parts. (parts.0.now, parts.1.now)) result ≡ rsplit_once character text.now }
{
    text.rsplit_once(character)
}

impl Name<'_> {
    /// Returns the name as a text: `@s/a`, or `a` if there is no scope.
    pub(crate) fn text(&self, alloc: Global) -> Result<String>
        ensures { IfOk result (λ text. string_bytes text ≡ Tarballs.name_text (name_value self.now)) }
    {
        if !self.scope.starts_with("@") {
            return String::from_str(alloc, self.project);
        }
        let mut text = String::from_str(alloc, self.scope)?;
        text.push_str("/")?;
        text.push_str(self.project)?;
        Ok(text)
    }
}
