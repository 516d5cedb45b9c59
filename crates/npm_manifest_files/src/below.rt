//! Which paths are below a folder.
ghost use Rattle.std.specs.Prelude.{◌≡◌, ◌≢◌, ◌↔◌, ◌++◌, ℕ, List, [], IsTrue, codes};
ghost use Rattle.npm_manifest_files.specs.Paths.{IsBelow};

use npm_texts::{rest_after, without_end};

/// Returns `true` if a path is below a folder: the whole path of the folder comes first, and then `/` and more. So
/// `/p/project-x` is not below `/p/project`, and each other path is below `/`. Both are paths without symbolic links.
pub(crate) fn is_below(path: &str, folder: &str) -> bool
    ensures { IsTrue result ↔ IsBelow folder.now path.now }
{
    match rest_after(path, without_end(folder, "/")) {
        Some(rest) => goes_on(rest),
        None => false,
    }
}

/// Returns `true` for `/` and more.
fn goes_on(rest: &str) -> bool
    ensures { IsTrue result ↔ ((more : List ℕ) × (more ≢ []) × (rest.now ≡ codes "/" ++ more)) }
{
    match rest_after(rest, "/") {
        Some(more) => !more.is_empty(),
        None => false,
    }
}
