//! The version that is found in a text.
ghost use Rattle.std.specs.Prelude.{◌≡◌, IsUtf8, None};
ghost use Rattle.node_semver_c.specs.Answers.{IsCoercion, IsFound, IsFullCoercion};
ghost use Rattle.node_semver_c.specs.declared.status.TheConstants.{NOT_UTF8};

use crate::handle::version::VersionHandle;
use crate::status::{NOT_UTF8, OUT_OF_MEMORY, keep_version_found};
use node_semver::Version;
use npm_semver::CoerceOptions;
use std::alloc::Global;

/// `npm_semver::coerce`: puts the version that is found in the text into the handle.
#[unsafe(no_mangle)]
pub extern "C" fn node_semver_version_coerce(
    alloc: Global,
    text: &[u8],
    rtl: bool,
    answer: &mut VersionHandle,
) -> u32
    requires empty { answer.old.value ≡ None }
    ensures found { IsUtf8 text.now → IsFound (IsCoercion rtl text.now) result answer.new.value }
    ensures not_utf8 { ¬ IsUtf8 text.now → (result ≡ NOT_UTF8) × (answer.new.value ≡ None) }
{
    match std::str::from_utf8(text) {
        Ok(text) => coerce(alloc, text, rtl, answer),
        Err(_) => NOT_UTF8,
    }
}

fn coerce(alloc: Global, text: &str, rtl: bool, answer: &mut VersionHandle) -> u32
    requires { answer.old.value ≡ None }
    ensures { IsFound (IsCoercion rtl text.now) result answer.new.value }
{
    keep_version_found(
        alloc,
        npm_semver::coerce(alloc, text, CoerceOptions { rtl }),
        answer,
    )
}

/// `npm_semver::coerce_with_prerelease`: puts the version that is found in the text, with its prerelease and its build, into
/// the handle.
#[unsafe(no_mangle)]
pub extern "C" fn node_semver_version_coerce_with_prerelease(
    alloc: Global,
    text: &[u8],
    rtl: bool,
    answer: &mut VersionHandle,
) -> u32
    requires empty { answer.old.value ≡ None }
    ensures found { IsUtf8 text.now → IsFound (IsFullCoercion rtl text.now) result answer.new.value }
    ensures not_utf8 { ¬ IsUtf8 text.now → (result ≡ NOT_UTF8) × (answer.new.value ≡ None) }
{
    match std::str::from_utf8(text) {
        Ok(text) => coerce_with_prerelease(alloc, text, rtl, answer),
        Err(_) => NOT_UTF8,
    }
}

fn coerce_with_prerelease(alloc: Global, text: &str, rtl: bool, answer: &mut VersionHandle) -> u32
    requires { answer.old.value ≡ None }
    ensures { IsFound (IsFullCoercion rtl text.now) result answer.new.value }
{
    match npm_semver::coerce_with_prerelease(alloc, text, CoerceOptions { rtl }) {
        Ok(found) => keep_version_found(alloc, found, answer),
        Err(_) => OUT_OF_MEMORY,
    }
}
