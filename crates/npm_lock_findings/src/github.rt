//! An annotation of GitHub: "Workflow commands for GitHub Actions", "Setting an error message".
ghost use Rattle.std.specs.Prelude.{◌≡◌, ◌∷◌, [], map};
ghost use Rattle.npm_lock_findings.specs.Forms.{messages_in, piece_value};

use crate::finding::Finding;
use crate::forms::{Form, Piece, push_pieces};
use std::alloc::AllocError;

/// Adds the line of a finding: `::error file=package-lock.json,line=12,col=7::MESSAGE`. One that does not count has none.
///
/// # Errors
///
/// An allocation failed. Then a beginning of the line may have been added.
pub fn push_annotation(out: &mut Vec<u8>, finding: &Finding<'_>) -> Result<(), AllocError> {
    if finding.suppression.is_some() {
        return Ok(());
    }
    push_pieces(out, Form::Line, &line_of(finding))
}

/// The line of a finding.
fn line_of<'a>(finding: &'a Finding<'_>) -> [Piece<'a>; 11]
    ensures { messages_in (map piece_value result) ≡ finding.now.message.items ∷ [] }
{
    [
        Piece::Fixed("::"),
        Piece::Fixed(finding.level.command()),
        Piece::Fixed(" file="),
        Piece::Text(finding.file.as_bytes()),
        Piece::Fixed(",line="),
        Piece::Number(finding.line),
        Piece::Fixed(",col="),
        Piece::Number(finding.column),
        Piece::Fixed("::"),
        Piece::Message(&finding.message),
        Piece::Fixed("\n"),
    ]
}
