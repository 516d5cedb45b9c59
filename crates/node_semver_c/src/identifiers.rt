//! Exports on the identifiers of versions.
ghost use Rattle.std.specs.Prelude.{◌≡◌, ◌<◌, ◌≤◌, length, slice_index_or};
ghost use Rattle.node_semver_c.specs.Printed.{IsPrinted};
ghost use Rattle.semver_texts.specs.Identifier.{values_of};
ghost use Rattle.semver_texts.specs.IdentifierValue.{numeric};
ghost use Rattle.semver_texts.specs.Print.{identifier_text};

use crate::handle::version::VersionRef;
use crate::text::put;
use node_semver::Identifier;
use std::alloc::Global;

/// Returns the number of identifiers of the prerelease.
#[unsafe(no_mangle)]
pub extern "C" fn node_semver_version_pre_release_count(version: &VersionRef) -> usize
    ensures { result ≡ length version.now.value.pre_release }
{
    let version = version.get();
    count(&version.pre_release)
}

/// Returns the number of identifiers of the build.
#[unsafe(no_mangle)]
pub extern "C" fn node_semver_version_build_count(version: &VersionRef) -> usize
    ensures { result ≡ length version.now.value.build }
{
    let version = version.get();
    count(&version.build)
}

/// Prints the identifier of the prerelease at a place. Past the last one this is 0 bytes.
#[unsafe(no_mangle)]
pub extern "C" fn node_semver_version_pre_release_print(
    alloc: Global,
    version: &VersionRef,
    place: usize,
    room: &mut [u8],
) -> usize
    ensures identifier { place < length version.now.value.pre_release
        → IsPrinted (identifier_text (slice_index_or version.now.value.pre_release place (numeric 0)))
        room.old room.new result }
    ensures past { length version.now.value.pre_release ≤ place → (result ≡ 0) × (room.new ≡ room.old) }
{
    let version = version.get();
    print(alloc, &version.pre_release, place, room)
}

/// Prints the identifier of the build at a place. Past the last one this is 0 bytes.
#[unsafe(no_mangle)]
pub extern "C" fn node_semver_version_build_print(
    alloc: Global,
    version: &VersionRef,
    place: usize,
    room: &mut [u8],
) -> usize
    ensures identifier { place < length version.now.value.build
        → IsPrinted (identifier_text (slice_index_or version.now.value.build place (numeric 0)))
        room.old room.new result }
    ensures past { length version.now.value.build ≤ place → (result ≡ 0) × (room.new ≡ room.old) }
{
    let version = version.get();
    print(alloc, &version.build, place, room)
}

fn count(identifiers: &[Identifier]) -> usize
    ensures { result ≡ length (values_of identifiers.now) }
{
    identifiers.len()
}

fn print(alloc: Global, identifiers: &[Identifier], place: usize, room: &mut [u8]) -> usize
    ensures identifier { place < length (values_of identifiers.now)
        → IsPrinted (identifier_text (slice_index_or (values_of identifiers.now) place (numeric 0)))
        room.old room.new result }
    ensures past { length (values_of identifiers.now) ≤ place → (result ≡ 0) × (room.new ≡ room.old) }
{
    if place < identifiers.len() {
        put(identifiers[place].to_string(alloc), room)
    } else {
        0
    }
}
