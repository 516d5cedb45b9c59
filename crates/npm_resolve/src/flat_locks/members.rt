//! The members of `packages`: the root, and the packages in its `node_modules`.
ghost use Rattle.std.specs.Prelude.{◌≡◌, ◌++◌, IfOk, OnOk, codes, option_map, string_bytes};
ghost use Rattle.base64.specs.Engines.{standard};
ghost use Rattle.base64.specs.GeneralPurpose.{encode_of};
ghost use Rattle.serde_json.specs.Data.{boolean, put as with_member};
ghost use Rattle.serde_json.specs.View.{members_view, view};
ghost use Rattle.npm_resolve.specs.Installed.{installed_value};
ghost use Rattle.npm_resolve.specs.Members as Members;
ghost use Rattle.npm_resolve.specs.Members.{with_copy, with_mark, with_some};

use crate::Result;
use crate::flat_locks::installed::Installed;
use crate::flat_locks::marks::Marks;
use base64::engine::general_purpose::STANDARD;
use hex::FromHex;
use npm_texts::{has_true, put_text};
use serde_json::{Map, Value, put};
use std::alloc::Global;

/// Returns the member of a root.
pub(crate) fn root_of(alloc: Global, root: &Value) -> Result<Value>
    ensures { IfOk result (λ member. view member ≡ Members.root_data (view root.now)) }
{
    let mut members = Map::new(alloc);
    put_copy(&mut members, alloc, "name", root)?;
    put_copy(&mut members, alloc, "version", root)?;
    put_copy(&mut members, alloc, "devDependencies", root)?;
    put_copies(&mut members, alloc, root)?;
    put_said(&mut members, alloc, root)?;
    Ok(Value::Object(members))
}

/// Returns the member of a package.
pub(crate) fn package_of(alloc: Global, one: Installed<'_>, marks: Marks) -> Result<Value>
    ensures { IfOk result (λ member. view member ≡ Members.package_data (installed_value one.entry) marks) }
{
    let mut members = Map::new(alloc);
    put_text(&mut members, alloc, "version", one.version)?;
    put_alias(&mut members, alloc, one)?;
    put_dist(&mut members, alloc, one.manifest.get("dist"))?;
    put_copy(&mut members, alloc, "deprecated", one.manifest)?;
    put_copies(&mut members, alloc, one.manifest)?;
    put_said(&mut members, alloc, one.manifest)?;
    put_marks(&mut members, alloc, marks)?;
    Ok(Value::Object(members))
}

/// Adds the name of an alias.
fn put_alias(members: &mut Map<String, Value>, alloc: Global, one: Installed<'_>) -> Result<()>
    ensures { OnOk result (members_view members.new.entries
        ≡ Members.with_alias (installed_value one.entry) (members_view members.old.entries)) }
{
    if one.package == one.name {
        return Ok(());
    }
    put_text(members, alloc, "name", one.package)
}

/// Adds where the tarball is, and its sum.
fn put_dist(members: &mut Map<String, Value>, alloc: Global, dist: Option<&Value>) -> Result<()>
    ensures { OnOk result (members_view members.new.entries
        ≡ Members.with_dist (option_map (λ dist. view dist.now) dist.entry) (members_view members.old.entries)) }
{
    put_some(members, alloc, "resolved", member_in(dist, "tarball"))?;
    match member_in(dist, "integrity") {
        Some(integrity) => put_some(members, alloc, "integrity", Some(integrity)),
        None => put_sha1(members, alloc, member_in(dist, "shasum")),
    }
}

/// Adds the sum of a `shasum`, if it is SHA-1.
fn put_sha1(members: &mut Map<String, Value>, alloc: Global, shasum: Option<&Value>) -> Result<()>
    ensures { OnOk result (members_view members.new.entries
        ≡ with_some (codes "integrity") (Members.sha1_of (option_map (λ sum. view sum.now) shasum.entry))
        (members_view members.old.entries)) }
{
    match sha1_bytes(shasum) {
        Some(bytes) => {
            let text = sha1_text(alloc, &bytes)?;
            put_text(members, alloc, "integrity", text.as_str())
        }
        None => Ok(()),
    }
}

/// The bytes of a `shasum`, if it is 40 hexadecimal digits.
fn sha1_bytes(shasum: Option<&Value>) -> Option<[u8; 20]>
    ensures { result ≡ Members.sha1_bytes (option_map (λ sum. view sum.now) shasum.entry) }
{
    let text = shasum?.as_str()?;
    match <[u8; 20] as FromHex>::from_hex(text) {
        Ok(bytes) => Some(bytes),
        Err(_) => None,
    }
}

/// `sha1-`, and the bytes in base64.
fn sha1_text(alloc: Global, bytes: &[u8]) -> Result<String>
    ensures { IfOk result (λ text. string_bytes text ≡ codes "sha1-" ++ encode_of standard bytes.now) }
{
    let mut text = String::from_str(alloc, "sha1-")?;
    STANDARD.encode_string(bytes, &mut text)?;
    Ok(text)
}

/// A member of a value, if there is one.
fn member_in<'v>(value: Option<&'v Value>, key: &str) -> Option<&'v Value>
    ensures { option_map (λ value. view value.now) result
        ≡ Members.member_in (option_map (λ value. view value.now) value.entry) key.now }
{
    value?.get(key)
}

/// Adds the dependencies, programs, engines and systems, as the manifest has them.
fn put_copies(members: &mut Map<String, Value>, alloc: Global, manifest: &Value) -> Result<()>
    ensures { OnOk result (members_view members.new.entries
        ≡ Members.with_copies Members.copied (view manifest.now) (members_view members.old.entries)) }
{
    put_copy(members, alloc, "dependencies", manifest)?;
    put_copy(members, alloc, "optionalDependencies", manifest)?;
    put_copy(members, alloc, "peerDependencies", manifest)?;
    put_copy(members, alloc, "peerDependenciesMeta", manifest)?;
    put_copy(members, alloc, "bin", manifest)?;
    put_copy(members, alloc, "engines", manifest)?;
    put_copy(members, alloc, "os", manifest)?;
    put_copy(members, alloc, "cpu", manifest)?;
    put_copy(members, alloc, "libc", manifest)
}

/// Adds the licence, and whether a script runs when the package is installed.
fn put_said(members: &mut Map<String, Value>, alloc: Global, manifest: &Value) -> Result<()>
    ensures { OnOk result (members_view members.new.entries
        ≡ Members.with_said (view manifest.now) (members_view members.old.entries)) }
{
    put_some(members, alloc, "license", license_of(manifest))?;
    put_mark(members, alloc, "hasInstallScript", has_script(manifest))
}

/// The licence of a manifest. Old manifests have an object with its `type`.
fn license_of(manifest: &Value) -> Option<&Value>
    ensures { option_map (λ license. view license.now) result ≡ Members.license_of (view manifest.now) }
{
    let license = manifest.get("license")?;
    match license.get("type") {
        Some(kind) => Some(kind),
        None => Some(license),
    }
}

/// Returns `true` if a manifest has a script that runs when the package is installed.
fn has_script(manifest: &Value) -> bool
    ensures { result ≡ Members.has_script (view manifest.now) }
{
    if has_true(manifest, "hasInstallScript") {
        return true;
    }
    match manifest.get("scripts") {
        Some(scripts) => {
            has_true(scripts, "preinstall")
                || has_true(scripts, "install")
                || has_true(scripts, "postinstall")
        }
        None => false,
    }
}

/// Adds the marks of a package.
fn put_marks(members: &mut Map<String, Value>, alloc: Global, marks: Marks) -> Result<()>
    ensures { OnOk result (members_view members.new.entries
        ≡ Members.with_marks marks (members_view members.old.entries)) }
{
    put_mark(members, alloc, "dev", marks.dev)?;
    put_mark(members, alloc, "optional", marks.optional)?;
    put_mark(members, alloc, "devOptional", marks.dev_optional)?;
    put_mark(members, alloc, "peer", marks.peer)
}

/// Adds a mark, if the package has it.
fn put_mark(members: &mut Map<String, Value>, alloc: Global, key: &str, is_so: bool) -> Result<()>
    ensures { OnOk result (members_view members.new.entries ≡ with_mark key.now is_so (members_view members.old.entries)) }
{
    if is_so {
        put(members, alloc, key, Value::Bool(true))
    } else {
        Ok(())
    }
}

/// Adds a copy of a member of a manifest, if it has one.
pub(crate) fn put_copy(
    members: &mut Map<String, Value>,
    alloc: Global,
    key: &str,
    manifest: &Value,
) -> Result<()>
    ensures { OnOk result (members_view members.new.entries
        ≡ with_copy key.now (view manifest.now) (members_view members.old.entries)) }
{
    put_some(members, alloc, key, manifest.get(key))
}

/// Adds a copy of a value, if there is one.
fn put_some(
    members: &mut Map<String, Value>,
    alloc: Global,
    key: &str,
    value: Option<&Value>,
) -> Result<()>
    ensures { OnOk result (members_view members.new.entries
        ≡ with_some key.now (option_map (λ value. view value.now) value.entry) (members_view members.old.entries)) }
{
    match value {
        Some(value) => put(members, alloc, key, value.clone()?),
        None => Ok(()),
    }
}
