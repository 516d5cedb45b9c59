//! The packages that an OSV object is about.
ghost use Rattle.std.specs.Prelude.{◌≡◌, IfOk, None, OnErr, codes, option_map};
ghost use Rattle.std.specs.Result.{result_err};
ghost use Rattle.serde_json.specs.Data.{no_items};
ghost use Rattle.serde_json.specs.View.{items_view, view};
ghost use Rattle.npm_advisories.specs.OsvPackages as Packages;
ghost use Rattle.npm_advisories.specs.OsvForm as Form;
ghost use Rattle.npm_advisories.specs.Index.{has_name};

use crate::Result;
use crate::fault::FaultKind;
use crate::member::text_at;
use crate::severity::is_word;
use crate::wanted::Names;
use serde_json::Value;

/// The elements of `affected`, which say which packages an OSV object is about.
pub(crate) fn affected_of(entry: &Value) -> Result<&[Value], FaultKind>
    ensures items { IfOk result (λ items. items_view items.now ≡ Form.items_at (codes "affected") (view entry.now)) }
    ensures none { OnErr result (Form.items_at (codes "affected") (view entry.now) ≡ no_items) }
    ensures fault { result_err result ≡ Packages.affected_list_fault (view entry.now) }
{
    match entry.get("affected") {
        Some(value) => match value.as_array() {
            Some(affected) => Ok(affected.as_slice()),
            None => Err(FaultKind::Affected),
        },
        None => Err(FaultKind::Affected),
    }
}

/// Returns `true` if an OSV object is about an installed package, or if it does not say about which packages it is.
pub(crate) fn concerns(names: &Names<'_>, entry: &Value) -> bool
    ensures { result ≡ Packages.concerns (has_name names.now) (view entry.now) }
{
    match affected_of(entry) {
        Ok(affected) => any_concerns(names, affected),
        Err(_) => true,
    }
}

/// The same of the elements of `affected`: one of them is.
fn any_concerns(names: &Names<'_>, affected: &[Value]) -> bool
    ensures { result ≡ Packages.any_concerns (has_name names.now) (items_view affected.now) }
{
    for one in affected {
        if may_concern(names, one) {
            return true;
        }
    }
    false
}

/// Returns `true` if an element of `affected` is about an installed package, or if its package cannot be read.
fn may_concern(names: &Names<'_>, one: &Value) -> bool
    ensures { result ≡ Packages.may_concern (has_name names.now) (view one.now) }
{
    match npm_name(one) {
        Ok(Some(name)) => names.has(name),
        Ok(None) => false,
        Err(_) => true,
    }
}

/// The first installed package that an OSV object is about, or the empty name.
pub(crate) fn told_name<'v>(names: &Names<'_>, entry: &'v Value) -> &'v str
    ensures { result.now ≡ Packages.told_name (has_name names.now) (view entry.now) }
{
    match affected_of(entry) {
        Ok(affected) => first_wanted(names, affected),
        Err(_) => "",
    }
}

/// The first installed package that an element of `affected` is about, or the empty name.
fn first_wanted<'v>(names: &Names<'_>, affected: &'v [Value]) -> &'v str
    ensures { result.now ≡ Packages.first_wanted (has_name names.now) (items_view affected.now) }
{
    for one in affected {
        match npm_name(one) {
            Ok(Some(name)) if names.has(name) => return name,
            _ => {}
        }
    }
    ""
}

/// The name of the package that an element of `affected` is about, if its ecosystem is npm.
pub(crate) fn npm_name(one: &Value) -> Result<Option<&str>, FaultKind>
    ensures name { IfOk result (λ name. option_map (λ n. n.now) name ≡ Form.npm_name (view one.now)) }
    ensures none { OnErr result (Form.npm_name (view one.now) ≡ None) }
    ensures fault { result_err result ≡ Packages.package_fault (view one.now) }
{
    one.as_object().ok_or(FaultKind::Package)?;
    let Some(package) = one.get("package") else {
        return Ok(None);
    };
    if package.is_null() {
        return Ok(None);
    }
    match (text_at(package, "ecosystem"), text_at(package, "name")) {
        (Some(ecosystem), Some(name)) if is_word(ecosystem, "npm") => Ok(Some(name)),
        (Some(_), Some(_)) => Ok(None),
        _ => Err(FaultKind::Package),
    }
}
