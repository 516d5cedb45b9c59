//! The range of a text, as npm reads it.
ghost use Rattle.std.specs.Prelude.{◌↔◌, IfOk, IfNone, IfSome};
ghost use Rattle.node_semver.specs.Versions.{VersionValue};
ghost use Rattle.npm_semver.specs.NpmRanges.{NpmSetsAdmit};
ghost use Rattle.npm_texts.specs.Admission.{Admits, IsNoRange};

use node_semver::Range;
use npm_semver::NpmOptions;
use std::alloc::{AllocError, Global};

/// How npm reads the ranges of dependencies.
pub const OF_DEPENDENCIES: NpmOptions = NpmOptions {
    loose: true,
    include_prerelease: false,
};

/// How npm reads the ranges of engines.
pub const OF_ENGINES: NpmOptions = NpmOptions {
    loose: false,
    include_prerelease: true,
};

/// The range of a text as npm reads it, or `None` if it is none.
pub fn range_of(alloc: Global, text: &str, options: NpmOptions) -> Result<Option<Range>, AllocError>
    ensures refused { IfOk result (λ range. IfNone range (IsNoRange options text.now)) }
    ensures accepted { IfOk result (λ range. IfSome range (λ range. ¬ IsNoRange options text.now)) }
    ensures means { IfOk result (λ range. IfSome range (λ range.
        (v : VersionValue) → NpmSetsAdmit options.include_prerelease range v ↔ Admits options text.now v)) }
{
    match npm_semver::parse_range(alloc, text, options) {
        Ok(range) => Ok(Some(range)),
        Err(error) if error.is_out_of_memory() => Err(AllocError),
        Err(_) => Ok(None),
    }
}
