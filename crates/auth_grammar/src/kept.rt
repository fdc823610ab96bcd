//! What is kept of an element that has begun.
ghost use Rattle.std.specs.Prelude.{◌≡◌, ◌≤◌, [], OnOk, length};
ghost use Rattle.auth_grammar.specs.Positions.{kept_run};

use crate::octets::{Octets, OutOfMemory};
use crate::position::Effect;
use std::alloc::Global;
use std::mem;

/// What is kept of an element that has begun.
#[derive(Drop)]
pub struct Kept {
    /// the scheme, once the next word has begun
    pub scheme: Option<Octets>,
    /// the scheme, the token68 or the name
    pub word: Octets,
    /// where the word stands
    pub at: u32,
    pub value: Octets,
}

impl Kept {
    /// Nothing yet.
    pub fn new(alloc: Global) -> Kept
        ensures { result ≡ record { scheme = None; word = []; at = 0; value = [] } }
    {
        Kept {
            scheme: None,
            word: Octets::new(alloc),
            at: 0,
            value: Octets::new(alloc),
        }
    }

    /// Keeps what the effect says of a byte at a place and of those that go where it went.
    pub fn keep(
        &mut self,
        alloc: Global,
        effect: Effect,
        at: u32,
        run: &[u8],
    ) -> Result<(), OutOfMemory>
        requires { 1 ≤ length run.now }
        ensures { OnOk result (self.new ≡ kept_run effect self.old at run.now) }
    {
        match effect {
            Effect::FirstWord => {
                self.scheme = None;
                self.word = Octets::of(alloc, run)?;
                self.at = at;
            }
            Effect::NextWord => {
                let word = Octets::of(alloc, run)?;
                self.scheme = Some(mem::replace(&mut self.word, word));
                self.at = at;
            }
            Effect::Word => self.word.extend(run)?,
            Effect::LateWord => {
                self.word.push(b'=')?;
                self.word.extend(run)?;
            }
            Effect::OpenValue => self.value = Octets::of(alloc, &run[1..])?,
            Effect::FirstValue => self.value = Octets::of(alloc, run)?,
            Effect::Value => self.value.extend(run)?,
            Effect::Nothing => {}
        }
        Ok(())
    }
}
