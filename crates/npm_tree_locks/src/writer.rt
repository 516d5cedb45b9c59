//! A JSON text with a line for each member.

use crate::Result;
use serde_json::Value;
use std::alloc::Global;

/// A text that grows.
#[derive(Drop)]
pub(crate) struct Writer {
    alloc: Global,
    text: Vec<u8>,
    depth: usize,
    /// The object that is open has a member.
    has_member: bool,
}

impl Writer {
    pub(crate) fn new(alloc: Global) -> Writer {
        Writer {
            alloc,
            text: Vec::new(alloc),
            depth: 0,
            has_member: false,
        }
    }

    /// Ends the text with a newline, and returns it.
    pub(crate) fn into_text(self) -> Result<Vec<u8>> {
        let Writer { mut text, .. } = self;
        text.extend_from_slice(b"\n")?;
        Ok(text)
    }

    /// Begins an object.
    pub(crate) fn open(&mut self) -> Result<()> {
        self.text.extend_from_slice(b"{")?;
        self.depth = self.depth.saturating_add(1);
        self.has_member = false;
        Ok(())
    }

    /// Ends an object.
    pub(crate) fn close(&mut self) -> Result<()> {
        self.depth = self.depth.saturating_sub(1);
        if self.has_member {
            self.line()?;
        }
        self.has_member = true;
        self.text.extend_from_slice(b"}")
    }

    /// Begins a member.
    pub(crate) fn key(&mut self, name: &str) -> Result<()> {
        if self.has_member {
            self.text.extend_from_slice(b",")?;
        }
        self.line()?;
        self.has_member = true;
        self.string(name)?;
        self.text.extend_from_slice(b": ")
    }

    /// Begins a line.
    fn line(&mut self) -> Result<()> {
        self.text.extend_from_slice(b"\n")?;
        for _ in 0..self.depth {
            self.text.extend_from_slice(b"  ")?;
        }
        Ok(())
    }

    /// Adds a string.
    fn string(&mut self, text: &str) -> Result<()> {
        self.text.extend_from_slice(b"\"")?;
        for byte in text.as_bytes() {
            self.character(*byte)?;
        }
        self.text.extend_from_slice(b"\"")
    }

    /// Adds a byte of a string.
    fn character(&mut self, byte: u8) -> Result<()> {
        match byte {
            b'"' => self.text.extend_from_slice(b"\\\""),
            b'\\' => self.text.extend_from_slice(b"\\\\"),
            b'\n' => self.text.extend_from_slice(b"\\n"),
            b'\r' => self.text.extend_from_slice(b"\\r"),
            b'\t' => self.text.extend_from_slice(b"\\t"),
            8 => self.text.extend_from_slice(b"\\b"),
            12 => self.text.extend_from_slice(b"\\f"),
            0..=31 => self.control(byte),
            _ => self.text.extend_from_slice(&[byte]),
        }
    }

    /// Adds a control character.
    fn control(&mut self, byte: u8) -> Result<()> {
        let high = if byte < 16 { b'0' } else { b'1' };
        let digits = b"0123456789abcdef";
        let low = digits.get((byte % 16) as usize).copied().unwrap_or(b'0');
        self.text
            .extend_from_slice(&[b'\\', b'u', b'0', b'0', high, low])
    }

    /// Adds a member that is a text.
    pub(crate) fn put_text(&mut self, name: &str, text: &str) -> Result<()> {
        self.key(name)?;
        self.string(text)
    }

    /// Adds a member that is a number or `true`.
    pub(crate) fn put_word(&mut self, name: &str, word: &str) -> Result<()> {
        self.key(name)?;
        self.text.extend_from_slice(word.as_bytes())
    }

    /// Adds a member.
    pub(crate) fn put_value(&mut self, name: &str, value: &Value) -> Result<()> {
        self.key(name)?;
        let lines = value.to_vec_pretty(self.alloc)?;
        for byte in &lines {
            if *byte == b'\n' {
                self.line()?;
            } else {
                self.text.extend_from_slice(&[*byte])?;
            }
        }
        Ok(())
    }
}
