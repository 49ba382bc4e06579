//! The line that has not ended.
ghost use Rattle.std.specs.Prelude.{◌≡◌, ℕ, ◌≤◌, List, [], ◌∷◌, ◌++◌, take, length, IsTrue, ◌↔◌};
ghost use Rattle.prop_engine.specs.Lines.{kept_of};

use std::marker::Model;

/// The prefix of a line: its first 4,097 bytes, which tell whether it is too long.
#[derive(Drop)]
pub struct Pending {
    bytes: [u8; 4097],
    len: usize,
}

impl Model for Pending {
    ghost Value = { List ℕ };

    ghost view = { λ p. take p.len p.bytes };

    ghost invariant = { λ p. p.len ≤ 4097 };
}

impl Pending {
    /// The prefix of an empty line.
    pub fn new() -> Pending
        ensures { result ≡ [] }
    {
        Pending {
            bytes: [0; 4097],
            len: 0,
        }
    }

    /// Whether no byte of the line has come.
    pub fn is_empty(&self) -> bool
        ensures { IsTrue result ↔ self.now ≡ [] }
    {
        self.len == 0
    }

    /// Begins the next line.
    pub fn clear(&mut self)
        ensures { self.new ≡ [] }
    {
        self.len = 0;
    }

    /// Takes the next bytes of the line. Those past the first 4,097 are not kept.
    pub fn extend(&mut self, bytes: &[u8])
        ensures { self.new ≡ kept_of (self.old ++ bytes.now) }
    {
        let count = bytes.len().min(4097 - self.len);
        let end = self.len + count;
        self.bytes[self.len..end].copy_from_slice(&bytes[..count]);
        self.len = end;
    }

    /// The bytes of the prefix: the line, or the first 4,097 bytes of a longer one.
    pub fn as_slice(&self) -> &[u8]
        ensures { result.now ≡ self.now }
    {
        &self.bytes[..self.len]
    }
}
