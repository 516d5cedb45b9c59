//! What was not looked at beside a lock file, as a sentence and as a JSON object.
ghost use Rattle.std.specs.Prelude.{◌≡◌};
ghost use Rattle.npm_lock_reports.specs.Unread as UnreadThings;
ghost use Rattle.npm_lock_reports.specs.Unread.{unread_value};

use crate::folder_name::FolderName;
use crate::piece::{Piece, Reading, push_pieces};
use npm_lock::{Member, object_of};
use serde_json::Value;
use std::alloc::{AllocError, Global};

/// What was not looked at beside a lock file.
#[derive(Debug, PartialEq, Eq, Drop)]
pub enum Unread {
    /// The manifest in this folder.
    Manifest(FolderName),
    /// The workspaces on disk: a pattern of them is not read.
    Workspaces,
    /// What the root depends on: the lock file has no root.
    Root,
}

impl Unread {
    /// Returns the folder of the package that it is of, which may be the root.
    pub fn folder(&self) -> &str
        ensures { result.now ≡ UnreadThings.unread_folder (unread_value self.now) }
    {
        match self {
            Unread::Manifest(folder) => folder.text.as_str(),
            Unread::Workspaces | Unread::Root => "",
        }
    }

    fn word(&self) -> &'static str {
        match self {
            Unread::Manifest(_) => "manifest",
            Unread::Workspaces => "workspaces",
            Unread::Root => "root",
        }
    }

    fn sentence(&self) -> [Piece<'_>; 2] {
        match self {
            Unread::Manifest(folder) => [
                Piece::First(folder.text.as_str()),
                Piece::Fixed(
                    "/package.json is not read: it is outside the folder of --manifest, or no regular file",
                ),
            ],
            Unread::Workspaces => [
                Piece::Fixed(
                    "no workspaces are looked for on disk: a pattern of `workspaces` is not read",
                ),
                Piece::Fixed(""),
            ],
            Unread::Root => [
                Piece::Fixed(
                    "what the root depends on is not known: `packages` has no member \"\"; --manifest says it",
                ),
                Piece::Fixed(""),
            ],
        }
    }
}

/// Adds the sentence of what was not looked at.
pub fn push_unread_sentence(
    line: &mut Vec<u8>,
    reading: Reading,
    unread: &Unread,
) -> Result<(), AllocError> {
    push_pieces(line, reading, &unread.sentence())
}

/// The JSON object of what was not looked at.
pub fn unread_json(alloc: Global, unread: &Unread) -> Result<Value, AllocError> {
    let members = [
        Member::Text("from", unread.folder()),
        Member::Text("unchecked", unread.word()),
    ];
    object_of(alloc, &members)
}
