//! Texts in the forms.
ghost use Rattle.std.specs.Prelude.{OnOk};
ghost use Rattle.npm_lock_findings.specs.Private.Adding.{Adds};

use crate::forms::bytes::{push_escape, push_plain};
use crate::forms::piece::Form;
use crate::forms::visible::{hex, left_of, numbered};
use std::alloc::AllocError;

/// Adds a text, or the message of a finding. What is special in the form is escaped, and in markup the bytes of control characters and of
/// those that are not seen are written by their numbers.
pub(crate) fn push_text(
    out: &mut Vec<u8>,
    form: Form,
    text: &[u8],
    is_message: bool,
) -> Result<(), AllocError>
    ensures { OnOk result (Adds form out.old.items out.new.items) }
{
    let mut left: usize = 0;
    for index in 0..text.len() {
        if let Form::Markup = form {
            left = left_of(left, &text[index..]);
        }
        push_byte(out, form, text[index], is_message, 0 < left)?;
        left = left.saturating_sub(1);
    }
    Ok(())
}

/// Adds a byte of a text, which may be one of a hidden character.
fn push_byte(
    out: &mut Vec<u8>,
    form: Form,
    byte: u8,
    is_message: bool,
    is_hidden: bool,
) -> Result<(), AllocError>
    ensures { OnOk result (Adds form out.old.items out.new.items) }
{
    match form {
        Form::Line => push_line_byte(out, byte, is_message),
        Form::Json if is_message => push_message_byte(out, byte),
        Form::Json => push_json_byte(out, byte),
        Form::Markup => push_markup_byte(out, byte, is_hidden),
    }
}

/// Adds a byte of the data of a workflow command of GitHub, `::error file=FILE,line=1::DATA`, or of a property, of which a colon or a comma
/// would be the end.
fn push_line_byte(out: &mut Vec<u8>, byte: u8, is_data: bool) -> Result<(), AllocError>
    ensures { OnOk result (Adds Form.Line out.old.items out.new.items) }
{
    match byte {
        b'%' => push_plain(out, Form::Line, b"%25"),
        b'\r' => push_plain(out, Form::Line, b"%0D"),
        b'\n' => push_plain(out, Form::Line, b"%0A"),
        b':' if !is_data => push_plain(out, Form::Line, b"%3A"),
        b',' if !is_data => push_plain(out, Form::Line, b"%2C"),
        _ => push_plain(out, Form::Line, &[byte]),
    }
}

/// Adds a byte of a string of JSON: RFC 8259, section 7, "Strings". A control character is written by its number, as `\u000A`.
fn push_json_byte(out: &mut Vec<u8>, byte: u8) -> Result<(), AllocError>
    ensures { OnOk result (Adds Form.Json out.old.items out.new.items) }
{
    if byte == b'"' {
        push_escape(out, Form::Json, "\\\"")
    } else if byte == b'\\' {
        push_escape(out, Form::Json, "\\\\")
    } else if byte < 32 {
        push_escape(out, Form::Json, "\\u")?;
        push_plain(
            out,
            Form::Json,
            &[b'0', b'0', hex(byte / 16, b'A'), hex(byte % 16, b'A')],
        )
    } else {
        push_plain(out, Form::Json, &[byte])
    }
}

/// Adds a byte of a plain text. SARIF 2.1.0, section 3.11.5, "Messages with placeholders": `{0}` is a placeholder, and a brace is written
/// twice. Section 3.11.6, "Messages with embedded links": `[a](b)` is a link, and a bracket or a backslash has a backslash in front.
fn push_message_byte(out: &mut Vec<u8>, byte: u8) -> Result<(), AllocError>
    ensures { OnOk result (Adds Form.Json out.old.items out.new.items) }
{
    push_mark(out, byte)?;
    push_json_byte(out, byte)
}

/// Adds what stands before a byte of a plain text.
fn push_mark(out: &mut Vec<u8>, byte: u8) -> Result<(), AllocError>
    ensures { OnOk result (Adds Form.Json out.old.items out.new.items) }
{
    if byte == b'[' || byte == b']' || byte == b'\\' {
        push_escape(out, Form::Json, "\\\\")
    } else if byte == b'{' || byte == b'}' {
        push_plain(out, Form::Json, &[byte])
    } else {
        push_plain(out, Form::Json, &[])
    }
}

/// Adds a byte of HTML or XML.
fn push_markup_byte(out: &mut Vec<u8>, byte: u8, is_hidden: bool) -> Result<(), AllocError>
    ensures { OnOk result (Adds Form.Markup out.old.items out.new.items) }
{
    match byte {
        _ if is_hidden || byte < 32 || byte == 127 => push_plain(
            out,
            Form::Markup,
            &numbered(byte),
        ),
        b'&' => push_escape(out, Form::Markup, "&amp;"),
        b'<' => push_escape(out, Form::Markup, "&lt;"),
        b'>' => push_escape(out, Form::Markup, "&gt;"),
        b'"' => push_escape(out, Form::Markup, "&quot;"),
        b'\'' => push_escape(out, Form::Markup, "&#39;"),
        _ => push_plain(out, Form::Markup, &[byte]),
    }
}

/// Adds the bytes of an address: RFC 3986, section 2.3, "Unreserved Characters". A byte that has a meaning there is written by its number, as
/// `%20`.
pub(crate) fn push_address(out: &mut Vec<u8>, form: Form, path: &[u8]) -> Result<(), AllocError>
    ensures { OnOk result (Adds form out.old.items out.new.items) }
{
    for byte in path {
        push_address_byte(out, form, *byte)?;
    }
    Ok(())
}

/// Adds a byte of an address.
fn push_address_byte(out: &mut Vec<u8>, form: Form, byte: u8) -> Result<(), AllocError>
    ensures { OnOk result (Adds form out.old.items out.new.items) }
{
    if byte.is_ascii_alphanumeric() || b"-._~/".contains(&byte) {
        push_plain(out, form, &[byte])
    } else {
        push_plain(
            out,
            form,
            &[b'%', hex(byte / 16, b'A'), hex(byte % 16, b'A')],
        )
    }
}
