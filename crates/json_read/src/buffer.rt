//! The bytes of a number or a string that is being read.

ghost use Rattle.std.specs.Prelude.{◌≡◌, [], ◌∷◌, ◌++◌, IfOk, OnOk, encode_utf8, IsUtf8};

use flow_base::{Memory, Text};
use std::alloc::{AllocError, Global};
use std::marker::Model;
use std::str;

/// A copy of the bytes as a text. What the clause requires is proved, so that the bytes need not be looked at again.
pub fn text_of(alloc: Global, bytes: &[u8]) -> Result<Text, Memory>
    requires { IsUtf8 bytes.now }
    ensures { IfOk result (λ t. t ≡ bytes.now) }
{
    Text::of(alloc, unsafe { str::from_utf8_unchecked(bytes) })
}

/// Bytes that may end within a character.
#[derive(Drop)]
pub struct Buffer {
    inner: Vec<u8>,
}

impl Model for Buffer {
    ghost use Rattle.std.specs.Prelude.{List, ℕ};

    ghost Value = { List ℕ };

    ghost view = { λ b. b.inner.items };
}

impl Buffer {
    /// A copy of the bytes, with room for some more.
    pub fn begun(alloc: Global, bytes: &[u8]) -> Result<Buffer, AllocError>
        ensures { IfOk result (λ b. b ≡ bytes.now) }
    {
        let room = bytes.len().saturating_mul(2).saturating_add(32);
        let mut text = Buffer {
            inner: Vec::with_capacity(alloc, room)?,
        };
        text.append(bytes)?;
        Ok(text)
    }

    pub fn append(&mut self, bytes: &[u8]) -> Result<(), AllocError>
        ensures { OnOk result (self.new ≡ self.old ++ bytes.now) }
    {
        if bytes.is_empty() {
            return Ok(());
        }
        self.inner.extend_from_slice(bytes)
    }

    fn push(&mut self, byte: u8) -> Result<(), AllocError>
        ensures { OnOk result (self.new ≡ self.old ++ byte ∷ []) }
    {
        self.inner.push(byte)?;
        Ok(())
    }

    pub fn push_char(&mut self, c: char) -> Result<(), AllocError>
        ensures { OnOk result (self.new ≡ self.old ++ encode_utf8 c) }
    {
        if c.is_ascii() {
            return self.push(c as u8);
        }
        let mut room = [0; 4];
        let text = c.encode_utf8(&mut room);
        self.append(text.as_bytes())
    }

    /// The same bytes as a text.
    pub fn into_text(self) -> Result<Text, Memory>
        requires { IsUtf8 self }
        ensures { IfOk result (λ t. t ≡ self) }
    {
        let Buffer { inner } = self;
        Text::from_string(unsafe { String::from_utf8_unchecked(inner) })
    }
}
