//! Ranges as npm itself reads them.
ghost use Rattle.std.specs.Prelude.{◌≡◌, ◌≢◌, IsUtf8, None};
ghost use Rattle.node_semver_c.specs.Answers.{IsSomeReported, options_of};
ghost use Rattle.node_semver_c.specs.declared.status.TheConstants.{NOT_UTF8, OUT_OF_MEMORY, REFUSED};
ghost use Rattle.npm_semver.specs.NpmRangeAnswer.{IsNpmRangeAnswer};

use crate::handle::range::RangeHandle;
use crate::status::{Fault, NOT_UTF8, keep_range, report};
use node_semver::Range;
use npm_semver::NpmOptions;
use std::alloc::Global;

/// `npm_semver::parse_range`: puts the range into the handle, or reports the fault of the text.
#[unsafe(no_mangle)]
pub extern "C" fn node_semver_range_parse_npm(
    alloc: Global,
    text: &[u8],
    loose: bool,
    include_prerelease: bool,
    range: &mut RangeHandle,
    fault: &mut Fault,
) -> u32
    requires empty { range.old.value ≡ None }
    ensures parsed { IsUtf8 text.now
        → IsSomeReported (IsNpmRangeAnswer (options_of loose include_prerelease) text.now) result range.new.value fault.new }
    ensures not_utf8 { ¬ IsUtf8 text.now → (result ≡ NOT_UTF8) × (range.new.value ≡ None) }
    ensures fault_kept { result ≢ REFUSED → result ≢ OUT_OF_MEMORY → fault.new ≡ fault.old }
{
    let options = NpmOptions {
        loose,
        include_prerelease,
    };
    match std::str::from_utf8(text) {
        Ok(text) => read(alloc, text, options, range, fault),
        Err(_) => NOT_UTF8,
    }
}

fn read(
    alloc: Global,
    text: &str,
    options: NpmOptions,
    range: &mut RangeHandle,
    fault: &mut Fault,
) -> u32
    requires { range.old.value ≡ None }
    ensures parsed { IsSomeReported (IsNpmRangeAnswer options text.now) result range.new.value fault.new }
    ensures fault_kept { result ≢ REFUSED → result ≢ OUT_OF_MEMORY → fault.new ≡ fault.old }
{
    match npm_semver::parse_range(alloc, text, options) {
        Ok(read) => keep_range(alloc, read, range),
        Err(error) => report(&error, fault),
    }
}
