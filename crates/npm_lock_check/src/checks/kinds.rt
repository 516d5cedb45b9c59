//! Kinds of problems that are left out.
ghost use Rattle.std.specs.Prelude.{◌≡◌, map};
ghost use Rattle.npm_lock_check.specs.Kinds as KindSets;
ghost use Rattle.npm_lock_check.specs.Kinds.{kinds_value};

use npm_lock::Kind;

/// Kinds of problems of a lock file.
#[derive(Clone, Copy, Drop)]
pub struct Kinds<'a> {
    /// What a manifest and the lock file do not ask alike.
    pub group: bool,
    /// The words of the other kinds.
    pub words: &'a [&'a str],
}

impl<'a> Kinds<'a> {
    /// Returns the kinds with these words, of which one may be `group`.
    pub fn of(words: &'a [&'a str]) -> Kinds<'a> {
        Kinds {
            group: is_among(words, "group"),
            words,
        }
    }

    /// Returns `true` if the kind is one of them.
    pub fn has(self, kind: Kind) -> bool
        ensures { result ≡ KindSets.has (kinds_value self.entry) kind }
    {
        is_among(self.words, kind.as_str())
    }
}

/// Returns `true` if a word is one of these.
fn is_among(words: &[&str], wanted: &str) -> bool
    ensures { result ≡ KindSets.is_among (map (λ word. word.now) words.now) wanted.now }
{
    for word in words {
        if *word == wanted {
            return true;
        }
    }
    false
}
