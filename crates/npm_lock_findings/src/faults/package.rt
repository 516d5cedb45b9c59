//! The member of a package or of a manifest that has a fault. A function here adds the names that lead to it, and returns `true`; if there is
//! no fault, it adds none.

use crate::faults::Result;
use npm_packages::has_text_version;
use serde_json::Value;

/// The fault of a package that is no link.
pub(crate) fn push_package<'v>(names: &mut Vec<&'v str>, entry: &'v Value) -> Result<bool> {
    if !has_text_version(entry) {
        return push_member(names, entry, "version");
    }
    let groups = [
        "peerDependencies",
        "dependencies",
        "optionalDependencies",
        "devDependencies",
    ];
    for group in &groups {
        if push_specs(names, entry.get(*group), *group)? {
            return Ok(true);
        }
    }
    Ok(false)
}

/// The fault of what the member of this name holds, if it is there and not `null`: it is no object, or has a member that is no string.
pub(crate) fn push_specs<'v>(
    names: &mut Vec<&'v str>,
    specs: Option<&'v Value>,
    name: &'v str,
) -> Result<bool> {
    match specs {
        None | Some(Value::Null) => Ok(false),
        Some(Value::Object(members)) => {
            for (key, spec) in members.iter() {
                if !spec.is_string() {
                    names.extend_from_slice(&[name, key.as_str()])?;
                    return Ok(true);
                }
            }
            Ok(false)
        }
        Some(_) => {
            names.push(name)?;
            Ok(true)
        }
    }
}

/// The fault of the member of this name, or of the value if there is no such member.
pub(crate) fn push_member<'v>(
    names: &mut Vec<&'v str>,
    value: &Value,
    name: &'v str,
) -> Result<bool> {
    if value.get(name).is_some() {
        names.push(name)?;
    }
    Ok(true)
}
