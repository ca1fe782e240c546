ghost use Rattle.std.specs.Prelude.{◌≡◌, ◌↔◌, length, IsTrue, IfOk};

use crate::Memory;
use std::alloc::Global;
use std::marker::Model;

/// Any bytes, which contracts see as their list.
#[derive(Debug, Drop)]
pub struct Bytes {
    inner: Vec<u8>,
}

impl Model for Bytes {
    ghost use Rattle.std.specs.Prelude.{List, ℕ};

    ghost Value = { List ℕ };

    ghost view = { λ b. b.inner.items };
}

impl Bytes {
    /// A copy of `b`. Fails only for want of memory.
    pub fn of(alloc: Global, b: &[u8]) -> Result<Bytes, Memory>
        ensures { IfOk result (λ t. t ≡ b.now) }
    {
        Ok(Bytes {
            inner: Vec::from_slice(alloc, b)?,
        })
    }

    /// The same bytes, taking no memory.
    pub fn from_vec(inner: Vec<u8>) -> Bytes
        ensures { result ≡ inner.items }
    {
        Bytes { inner }
    }

    /// The same bytes, taking no memory.
    pub fn into_vec(self) -> Vec<u8>
        ensures { result.items ≡ self }
    {
        let Bytes { inner } = self;
        inner
    }

    pub fn as_slice(&self) -> &[u8]
        ensures { result.now ≡ self.now }
    {
        self.inner.as_slice()
    }

    pub fn len(&self) -> usize
        ensures { result ≡ length self.now }
    {
        self.inner.len()
    }
}
