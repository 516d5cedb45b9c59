//! The keys of a file of exceptions.
ghost use Rattle.std.specs.Prelude.{◌≡◌, option_map};
ghost use Rattle.toml.specs.View.{table_view};
ghost use Rattle.npm_lock_reports.specs.Reading as Reading;
ghost use Rattle.npm_lock_reports.specs.Private.Keys.{keys_of};

use toml::Table;

/// Whose keys they are.
#[derive(Clone, Copy)]
pub(crate) enum Level {
    File,
    Exception,
}

/// Returns the first key of a table that has another name.
pub(crate) fn unknown_key(table: &Table, level: Level) -> Option<&str>
    ensures { option_map (λ key. key.now) result ≡ Reading.unknown_key (keys_of level) (table_view table.now) }
{
    for (key, _) in table.iter() {
        let key = key.as_str();
        if !is_known(level, key) {
            return Some(key);
        }
    }
    None
}

/// Returns `true` if the key has a meaning.
fn is_known(level: Level, key: &str) -> bool
    ensures { result ≡ Reading.is_among (keys_of level) key.now }
{
    match level {
        Level::File => key == "exceptions",
        Level::Exception => matches!(key, "id" | "package" | "reason" | "until"),
    }
}
