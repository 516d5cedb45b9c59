//! The parts of a range's sets where prereleases are admitted: those of the triples that an end opens.
ghost use Rattle.std.specs.Prelude.{◌≡◌, ◌++◌, IfOk, OnOk};
ghost use Rattle.std.specs.List.{flat_map};
ghost use Rattle.semver_keys.specs.Private.Opened as Opened;

use node_semver::Version;
use semver_cuts::{Cut, Span};
use std::alloc::{AllocError, Global};

// The parts of all sets.
pub(crate) fn opened_parts(
    alloc: Global,
    sets: &[Span<Version>],
) -> Result<Vec<Span<Version>>, AllocError>
    ensures { IfOk result (λ parts. parts.items ≡ flat_map Opened.parts_of sets.now) }
{
    let mut parts = Vec::new(alloc);
    'sets: for set in sets {
        add_part(&mut parts, set, set.lower())?;
        add_part(&mut parts, set, set.upper())?;
    }
    Ok(parts)
}

// Appends the part of a set among the prereleases of the triple that a cut opens.
fn add_part(
    parts: &mut Vec<Span<Version>>,
    set: &Span<Version>,
    cut: &Cut<Version>,
) -> Result<(), AllocError>
    ensures { OnOk result (parts.new.items ≡ parts.old.items ++ Opened.parts_at set.now cut.now) }
{
    match cut {
        Cut::Start | Cut::End => Ok(()),
        Cut::Before(end) | Cut::After(end) => add_part_at(parts, set, end),
    }
}

// Appends the part of a set among the prereleases of the triple of an end. A release opens no triple.
#[tactic(auto, using(crate::proofs::OpenedRules::part_rules))]
fn add_part_at(
    parts: &mut Vec<Span<Version>>,
    set: &Span<Version>,
    end: &Version,
) -> Result<(), AllocError>
    ensures { OnOk result (parts.new.items ≡ parts.old.items ++ Opened.parts_at_end set.now end.now) }
{
    if !end.is_prerelease() {
        return Ok(());
    }
    let alloc = *parts.allocator();
    let prereleases = prereleases_of(alloc, end)?;
    if let Some((lower, upper)) = set.common(&prereleases) {
        parts.push(Span::between(copy_of(lower)?, copy_of(upper)?))?;
    }
    Ok(())
}

// The prereleases of a version's triple: from the least up to the release.
fn prereleases_of(alloc: Global, end: &Version) -> Result<Span<Version>, AllocError>
    ensures { IfOk result (λ span. span ≡ Opened.prereleases_of end.now) }
{
    let least = Version::with_pre_release(alloc, end.major, end.minor, end.patch, 0)?;
    let release = Version::new(alloc, end.major, end.minor, end.patch);
    Ok(Span::between(Cut::Before(least), Cut::Before(release)))
}

// A copy of a cut.
fn copy_of(cut: &Cut<Version>) -> Result<Cut<Version>, AllocError>
    ensures { IfOk result (λ copy. copy ≡ cut.now) }
{
    match cut {
        Cut::Start => Ok(Cut::Start),
        Cut::Before(version) => Ok(Cut::Before(version.clone()?)),
        Cut::After(version) => Ok(Cut::After(version.clone()?)),
        Cut::End => Ok(Cut::End),
    }
}
