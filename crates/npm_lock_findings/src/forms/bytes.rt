//! The bytes of texts that are written safely: a special byte stands in an escape alone.
ghost use Rattle.std.specs.Prelude.{◌≡◌, OnOk};
ghost use Rattle.npm_lock_findings.specs.Forms as Forms;
ghost use Rattle.npm_lock_findings.specs.Private.Adding.{Adds};

use crate::forms::piece::Form;
use std::alloc::AllocError;

/// Adds bytes as they are, without those that are special in the form.
pub(crate) fn push_plain(out: &mut Vec<u8>, form: Form, bytes: &[u8]) -> Result<(), AllocError>
    ensures { OnOk result (Adds form out.old.items out.new.items) }
{
    for byte in bytes {
        push_plain_byte(out, form, *byte)?;
    }
    Ok(())
}

/// Adds a byte, if it is not special.
fn push_plain_byte(out: &mut Vec<u8>, form: Form, byte: u8) -> Result<(), AllocError>
    ensures { OnOk result (Adds form out.old.items out.new.items) }
{
    if is_special(form, byte) {
        return Ok(());
    }
    out.push(byte)?;
    Ok(())
}

/// Adds an escape of the form, and no other text.
pub(crate) fn push_escape(out: &mut Vec<u8>, form: Form, escape: &str) -> Result<(), AllocError>
    ensures { OnOk result (Adds form out.old.items out.new.items) }
{
    if !is_escape(form, escape) {
        return Ok(());
    }
    out.extend_from_slice(escape.as_bytes())?;
    Ok(())
}

/// Returns `true` for a byte that may stand in an escape alone.
fn is_special(form: Form, byte: u8) -> bool
    ensures { result ≡ Forms.is_special form byte }
{
    match form {
        Form::Line => byte == b'\n' || byte == b'\r',
        Form::Json => byte == b'"' || byte == b'\\' || byte < 32,
        Form::Markup => {
            byte == b'"' || byte == b'&' || byte == b'\'' || byte == b'<' || byte == b'>'
        }
    }
}

/// Returns `true` for an escape.
fn is_escape(form: Form, text: &str) -> bool
    ensures { result ≡ Forms.is_escape form text.now }
{
    match form {
        Form::Line => false,
        Form::Json => text == "\\\"" || text == "\\\\" || text == "\\u",
        Form::Markup => {
            text == "&quot;"
                || text == "&amp;"
                || text == "&#39;"
                || text == "&lt;"
                || text == "&gt;"
        }
    }
}
