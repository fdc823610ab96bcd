//! Bytes that came and weren't taken yet.
ghost use Rattle.std.specs.Prelude.{◌≡◌, ◌≤◌, ◌++◌, [], length, drop, OnOk, OnErr};

use auth_grammar::OutOfMemory;
use std::alloc::Global;
use std::marker::Model;

/// Bytes that came and weren't taken yet. Contracts see them as their list.
///
/// Taking moves a mark. What lies before it is dropped in bulk, before more bytes are added, once it is as long as the
/// rest, so that all moves together cost no more than the bytes that came.
#[derive(Drop)]
pub(crate) struct Unread {
    bytes: Vec<u8>,
    taken: usize,
}

impl Model for Unread {
    ghost use Rattle.std.specs.Prelude.{List, ℕ, ◌≤◌, length, drop};

    ghost Value = { List ℕ };

    ghost view = { λ u. drop u.taken u.bytes.items };

    ghost invariant = { λ u. u.taken ≤ length u.bytes.items };
}

impl Unread {
    pub fn new(alloc: Global) -> Unread
        ensures { result ≡ [] }
    {
        Unread {
            bytes: Vec::new(alloc),
            taken: 0,
        }
    }

    pub fn as_slice(&self) -> &[u8]
        ensures { result.now ≡ self.now }
    {
        &self.bytes.as_slice()[self.taken..]
    }

    pub fn len(&self) -> usize
        ensures { result ≡ length self.now }
    {
        self.bytes.len() - self.taken
    }

    /// Adds a piece at the end.
    pub fn extend(&mut self, piece: &[u8]) -> Result<(), OutOfMemory>
        ensures ok { OnOk result (self.new ≡ self.old ++ piece.now) }
        ensures err { OnErr result (self.new ≡ self.old) }
    {
        if self.len() <= self.taken {
            self.drop_taken();
        }
        self.bytes.extend_from_slice(piece)?;
        Ok(())
    }

    /// Takes that many bytes from the front.
    pub fn take(&mut self, count: usize)
        requires { count ≤ length self.old }
        ensures { self.new ≡ drop count self.old }
    {
        self.taken += count;
    }

    /// Moves the rest to the front of the vector.
    fn drop_taken(&mut self)
        ensures { self.new ≡ self.old }
    {
        let rest = self.len();
        self.bytes.copy_within(self.taken.., 0);
        self.bytes.truncate(rest);
        self.taken = 0;
    }
}
