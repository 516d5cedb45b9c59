//! The laws of the numbers of statuses, faults, bumps and cuts. Each function here does nothing: its
//! contract is the law.
ghost use Rattle.std.specs.Prelude.{◌≡◌, ℕ, List};
ghost use Rattle.semver_versions.specs.Error.{context, incomplete, max_int, max_length, no_valid_ranges, other};
ghost use Rattle.semver_versions.specs.Error.{out_of_memory, parse_int};
ghost use Rattle.node_semver_c.specs.Bumped.{code_of_base};
ghost use Rattle.node_semver_c.specs.Compared.{code_of_bump};
ghost use Rattle.node_semver_c.specs.Status.{code_of};
ghost use Rattle.npm_semver.specs.declared.bump.Bump.TheVariants as Bump;
ghost use Rattle.npm_semver.specs.declared.bump.IdentifierBase.TheVariants as Base;
ghost use Rattle.node_semver_c.specs.declared.handle.set.TheConstants.{AFTER, BEFORE, END, START};
ghost use Rattle.node_semver_c.specs.declared.status.TheConstants.{INVALID_BUMP, INVALID_IDENTIFIER, NO_IDENTIFIER};
ghost use Rattle.node_semver_c.specs.declared.status.TheConstants.{NONE, NOT_UTF8, NUMBER_TOO_LARGE, OK};
ghost use Rattle.node_semver_c.specs.declared.status.TheConstants.{OUT_OF_MEMORY, REFUSED, SAME_IDENTIFIER};

/// The statuses, as the numbers that the header gives them.
pub fn statuses()
    ensures ok { OK ≡ 0 }
    ensures none { NONE ≡ 1 }
    ensures refused { REFUSED ≡ 2 }
    ensures not_utf8 { NOT_UTF8 ≡ 3 }
    ensures out_of_memory { OUT_OF_MEMORY ≡ 4 }
    ensures invalid_bump { INVALID_BUMP ≡ 5 }
    ensures invalid_identifier { INVALID_IDENTIFIER ≡ 6 }
    ensures no_identifier { NO_IDENTIFIER ≡ 7 }
    ensures same_identifier { SAME_IDENTIFIER ≡ 8 }
    ensures number_too_large { NUMBER_TOO_LARGE ≡ 9 }
{}

/// The kinds of faults, as the numbers that the header gives them.
pub fn kinds()
    ensures max_length { code_of max_length ≡ 1 }
    ensures incomplete_input { code_of incomplete ≡ 2 }
    ensures parse_int { code_of parse_int ≡ 3 }
    ensures max_int { (number : ℕ) → code_of (max_int number) ≡ 4 }
    ensures context { (word : List ℕ) → code_of (context word) ≡ 5 }
    ensures no_valid_ranges { code_of no_valid_ranges ≡ 6 }
    ensures other { code_of other ≡ 7 }
    ensures no_memory { code_of out_of_memory ≡ 8 }
{}

/// The bumps, as the numbers that the header gives them.
pub fn bumps()
    ensures major { code_of_bump Bump.Major ≡ 1 }
    ensures premajor { code_of_bump Bump.PreMajor ≡ 2 }
    ensures minor { code_of_bump Bump.Minor ≡ 3 }
    ensures preminor { code_of_bump Bump.PreMinor ≡ 4 }
    ensures patch { code_of_bump Bump.Patch ≡ 5 }
    ensures prepatch { code_of_bump Bump.PrePatch ≡ 6 }
    ensures prerelease { code_of_bump Bump.PreRelease ≡ 7 }
    ensures pre { code_of_bump Bump.Pre ≡ 8 }
{}

/// The numbers that a prerelease begins with, as the numbers that the header gives them.
pub fn bases()
    ensures zero { code_of_base Base.Zero ≡ 0 }
    ensures one { code_of_base Base.One ≡ 1 }
    ensures absent { code_of_base Base.Absent ≡ 2 }
{}

/// The kinds of cuts, as the numbers that the header gives them.
pub fn cuts()
    ensures start { START ≡ 0 }
    ensures before { BEFORE ≡ 1 }
    ensures after { AFTER ≡ 2 }
    ensures end { END ≡ 3 }
{}
