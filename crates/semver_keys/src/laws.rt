//! Laws of keys. The functions here do nothing. The contract of each is a law, which is proved.
ghost use Rattle.std.specs.Prelude.{◌≡◌, ◌≤◌, ◌++◌, [], ℕ, List, length};
ghost use Rattle.semver_cuts.specs.declared.cut.Cut.{Cut};
ghost use Rattle.semver_cuts.specs.Cut.{cut_cmp};
ghost use Rattle.semver_texts.specs.Comparison.{version_cmp};
ghost use Rattle.semver_texts.specs.Version.{VersionValue, without_build};
ghost use Rattle.semver_texts.specs.VersionText.{IsVersionText};
ghost use Rattle.semver_versions.specs.VersionSteps.{IsVersion};
ghost use Rattle.semver_keys.specs.CutKey.{HasCutWords, cut_key};
ghost use Rattle.semver_keys.specs.KeyOrder.{key_cmp};
ghost use Rattle.semver_keys.specs.VersionKey.{HasWords, version_key};
ghost use Rattle.semver_keys.specs.VersionOfKey.{IsNoKey, IsVersionOfKey};
ghost use Rattle.semver_keys.specs.declared.TheConstants.{MAX_KEY_LENGTH};

/// Keys compare as bytes exactly as what they are keys of compares: those of versions as the versions, and those of cuts as
/// the cuts.
///
/// So two versions have the same key exactly if they have the same precedence: if they differ at most in the build.
pub fn keys_stand_in_order()
    ensures versions { (v w : VersionValue) → HasWords v → HasWords w
        → key_cmp (version_key v) (version_key w) ≡ version_cmp v w }
    ensures cuts { (c d : Cut VersionValue) → HasCutWords c → HasCutWords d
        → key_cmp (cut_key c) (cut_key d) ≡ cut_cmp version_cmp c d }
{}

/// No key begins another: what follows the key of a version in the key of a version is nothing.
///
/// So a version's key and a byte after it lie above that key, and below the key of each greater version.
pub fn no_key_begins_another()
    ensures apart { (v w : VersionValue) (rest : List ℕ) → HasWords v → HasWords w
        → version_key w ≡ version_key v ++ rest → rest ≡ [] }
{}

/// The key of a version that a text writes has at most [`MAX_KEY_LENGTH`](crate::MAX_KEY_LENGTH) bytes.
pub fn keys_of_texts_are_short()
    ensures short { (text : List ℕ) (v : VersionValue) → IsVersionText text v → length (version_key v) ≤ MAX_KEY_LENGTH }
{}

/// The version of the key of `v` is `v` without its build, and there is one.
///
/// So `version_of_key` gives back each version whose key was written, but for the build.
pub fn versions_are_read_back()
    ensures same { (v w : VersionValue) → IsVersion v → IsVersionOfKey (version_key v) w → w ≡ without_build v }
    ensures found { (v : VersionValue) → IsVersion v → ¬ IsNoKey (version_key v) }
{}
