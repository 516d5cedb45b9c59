//! Texts, and folders and names of packages.
use crate::Call;
use crate::written::{end_list, put, put_if_any};
use named_calls::words::{text_at, value_at};
use named_calls::{CallError, Written};
use npm_lock::is_part;
use npm_packages::{
    Index, Lock, Package, is_folder, is_installed, is_link, is_named, linked_folder, lock_of,
    outermost_of, place_size, place_text,
};
use npm_texts::{installed_version, registry_spec};

pub(crate) fn answer(call: &Call<'_>, out: &mut String) -> Written {
    let (folder, name) = (text_at(call, 0), text_at(call, 1));
    match call.name {
        "npm_texts::installed_version" => put_if_any(out, installed_version(folder)),
        "npm_texts::registry_spec" => match registry_spec(folder, name) {
            Some(spec) => Ok(write!(out, "{}@{}", spec.name, spec.text)?),
            None => end_list(out),
        },
        "npm_packages::is_folder" => put(out, &is_folder(folder)),
        "npm_packages::is_installed" => put(out, &is_installed(folder)),
        "npm_lock::is_part" => put(out, &is_part(folder)),
        "npm_packages::outermost_of" => Ok(out.push_str(outermost_of(folder))?),
        "npm_packages::linked_folder" => Ok(out.push_str(linked_folder(folder))?),
        "npm_packages::place_text" => put(out, &place_text(call.alloc, folder, name)?),
        "npm_packages::place_size" => {
            let size = folder.parse::<usize>().ok().ok_or(CallError::Words)?;
            put_if_any(out, place_size(size, name))
        }
        "npm_packages::is_named" => {
            let (member, folder) = (value_at(call, 0)?, name);
            put(out, &is_named(Package { folder, member }, text_at(call, 2)))
        }
        "Lock::find" | "Lock::package_in" | "Lock::package_at" => {
            match lock_of(call.alloc, value_at(call, 0)?) {
                Ok(lock) => in_lock(call, out, lock, name),
                Err(fault) => put(out, &fault),
            }
        }
        _ => Err(CallError::Words),
    }
}

/// A folder, and whether it is of a link; or of the package that a name is found to be, and whether that is in the own `node_modules`.
fn in_lock(call: &Call<'_>, out: &mut String, lock: Lock<'_>, from: &str) -> Written {
    let (found, mark) = match call.name {
        "Lock::package_at" => (lock.package_at(from), ""),
        "Lock::package_in" => match lock.package_in(from) {
            Some(found) if is_link(found.member) => (Some(found), ", a link"),
            found => (found, ""),
        },
        _ => {
            let index = Index::of_lock(lock)?;
            match lock.find(&index, from, outermost_of(from), text_at(call, 2)) {
                Some((found, is_own)) => (Some(found), if is_own { ", its own" } else { "" }),
                None => (None, ""),
            }
        }
    };
    match found {
        Some(found) => Ok(write!(out, "{}{mark}", found.folder)?),
        None => end_list(out),
    }
}
