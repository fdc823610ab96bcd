//! How often each nonce was used.
ghost use Rattle.std.specs.Prelude.{◌≡◌, ◌<◌, ◌≤◌, ◌+◌, ◌^◌, [], IfOk, OnErr};
ghost use Rattle.client_core.specs.Counts.{count_of, with_count};

use auth_grammar::{Octets, OutOfMemory};
use std::alloc::Global;
use std::collections::BTreeMap;
use std::marker::Model;

/// The greatest count that was drawn of each text. Contracts see the list of the texts with their counts.
///
/// All counts from 1 to that were drawn.
#[derive(Drop)]
pub(crate) struct Counts {
    map: BTreeMap<Octets, u32>,
}

impl Model for Counts {
    ghost use Rattle.std.specs.Prelude.{List, ℕ};

    ghost Value = { List (List ℕ × ℕ) };

    ghost view = { λ counts. counts.map.entries };
}

impl Counts {
    /// No count of any text.
    pub(crate) fn new(alloc: Global) -> Counts
        ensures { result ≡ [] }
    {
        Counts {
            map: BTreeMap::new(alloc),
        }
    }

    /// The greatest count that was drawn of the text, or 0.
    #[tactic(auto, unfolding(crate::specs::Counts::count_of))]
    pub(crate) fn of(&self, text: &Octets) -> u32
        ensures { result ≡ count_of self.now text.now }
    {
        self.map.get(text).copied().unwrap_or(0)
    }

    /// Draws the next count of the text. Where there is no memory, none is drawn.
    #[tactic(auto, unfolding(crate::specs::Counts::with_count))]
    pub(crate) fn draw(&mut self, text: &Octets) -> Result<u32, OutOfMemory>
        requires { count_of self.old text.now + 1 < 2 ^ 32 }
        ensures count { IfOk result (λ count. count ≡ count_of self.old text.now + 1) }
        ensures ok { IfOk result (λ count. self.new ≡ with_count self.old text.now count) }
        ensures err { OnErr result (self.new ≡ self.old) }
    {
        let key = text.copy()?;
        let count = self.of(text) + 1;
        self.map.insert(key, count)?;
        Ok(count)
    }
}
