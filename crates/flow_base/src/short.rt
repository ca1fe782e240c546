ghost use Rattle.std.specs.Prelude.{◌≡◌, ◌<◌, [], length, MatchOption};

use std::marker::Model;
use std::str;

/// A UTF-8 text of at most 16 bytes, which lie in the value itself. The length has the width at which it and the bytes are
/// moved by whole words, beside the mark of an enum.
#[derive(Drop)]
pub struct Short {
    len: u32,
    bytes: [u8; 16],
}

impl Model for Short {
    ghost use Rattle.std.specs.Prelude.{List, ℕ, take, ◌≤◌, IsUtf8};

    ghost Value = { List ℕ };

    ghost view = { λ s. take s.len s.bytes };

    ghost invariant = { λ s. (s.len ≤ 16) × ∥ IsUtf8 (take s.len s.bytes) ∥₁ };
}

impl Short {
    pub fn empty() -> Short
        ensures { result ≡ [] }
    {
        Short {
            len: 0,
            bytes: [0; 16],
        }
    }

    /// The same text, unless it is longer.
    pub fn of(text: &str) -> Option<Short>
        ensures { MatchOption result (16 < length text.now) (λ s. s ≡ text.now) }
    {
        if text.len() > 16 {
            return None;
        }
        let mut bytes = [0; 16];
        bytes[..text.len()].copy_from_slice(text.as_bytes());
        Some(Short {
            len: text.len() as u32,
            bytes,
        })
    }

    /// The same text.
    pub fn copy(&self) -> Short
        ensures { result ≡ self.now }
    {
        Short {
            len: self.len,
            bytes: self.bytes,
        }
    }

    pub fn as_str(&self) -> &str
        ensures { result.now ≡ self.now }
    {
        // The bytes are UTF-8, by the invariant of the type.
        unsafe { str::from_utf8_unchecked(&self.bytes[..self.len as usize]) }
    }
}
