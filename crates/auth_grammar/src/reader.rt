//! Reading a text from its first byte on.
ghost use Rattle.std.specs.Prelude.{◌≡◌, ◌≤◌, IfErr, IfOk, IsSome, OnOk, length};
ghost use Rattle.auth_grammar.specs.Answers.{Refuses};
ghost use Rattle.auth_grammar.specs.Collecting.{begun_of, takes_param, takes_scheme};
ghost use Rattle.auth_grammar.specs.Items.{SpellsOnly};
ghost use Rattle.auth_grammar.specs.Positions.{Turns, ending};
ghost use Rattle.auth_grammar.specs.Steps.{Does, Finishes, Steps, with_ended};

use crate::collected::Collected;
use crate::elements::{ended, may_end};
use crate::error::GrammarError;
use crate::grammar::Grammar;
use crate::groups::Grouped;
use crate::kept::Kept;
use crate::kinds::{Kind, kind_at};
use crate::octets::OutOfMemory;
use crate::position::{Position, Turn};
use crate::runs::run_len;
use crate::turns::{at_start, turn_behind};
use std::alloc::Global;
use std::mem;

/// A reader of one text.
#[derive(Drop)]
pub struct Reader {
    pub position: Position,
    pub kept: Kept,
    pub collected: Collected,
}

impl Reader {
    /// A reader before its first byte.
    pub fn new(alloc: Global, grammar: Grammar) -> Reader
        ensures position { result.position ≡ Position.Start }
        ensures collected { result.collected ≡ begun_of grammar }
    {
        Reader {
            position: Position::Start,
            kept: Kept::new(alloc),
            collected: Collected::new(alloc, grammar),
        }
    }

    /// Ends the element that has begun.
    fn end(&mut self, alloc: Global) -> Result<(), OutOfMemory>
        requires { IsSome (ending self.old.position self.old.kept) }
        ensures position { OnOk result (self.new.position ≡ Position.Start) }
        ensures collected { OnOk result (self.new.collected ≡ with_ended self.old.collected (ending self.old.position self.old.kept)) }
    {
        let kept = mem::replace(&mut self.kept, Kept::new(alloc));
        let element = ended(alloc, kept, self.position)?;
        self.collected.add(alloc, element)?;
        self.position = Position::Start;
        Ok(())
    }

    /// What a byte of this kind does next.
    fn turn(&self, kind: Kind) -> Turn
        ensures { Turns self.now.position kind (takes_param self.now.collected) (takes_scheme self.now.collected) result }
    {
        match self.position {
            Position::Start => {
                let params = self.collected.takes_param();
                let schemes = self.collected.takes_scheme();
                at_start(kind, params, schemes)
            }
            _ => turn_behind(self.position, kind),
        }
    }

    /// Does what a turn says of the first byte that is left, and of those that go where it went.
    /// Answers how many they are, or 0 where no text goes on so.
    fn take_turn(
        &mut self,
        alloc: Global,
        turn: Turn,
        at: u32,
        rest: &[u8],
    ) -> Result<usize, OutOfMemory>
        requires some { 1 ≤ length rest.now }
        requires ends { turn ≡ Turn.End → IsSome (ending self.old.position self.old.kept) }
        ensures { IfOk result (λ count. Does turn self.old at rest.now count self.new) }
    {
        match turn {
            Turn::Dead => Ok(0),
            Turn::End => {
                self.end(alloc)?;
                Ok(1)
            }
            Turn::Go(position, effect) => {
                let count = 1 + run_len(effect, position, &rest[1..]);
                self.kept.keep(alloc, effect, at, &rest[..count])?;
                self.position = position;
                Ok(count)
            }
        }
    }

    /// Reads the first byte that is left, which stands at a place, and those that go where it went.
    /// Answers how many they are, or 0 where no text goes on so.
    pub fn step(&mut self, alloc: Global, at: u32, rest: &[u8]) -> Result<usize, OutOfMemory>
        requires { 1 ≤ length rest.now }
        ensures { IfOk result (λ count. Steps self.old at rest.now count self.new) }
    {
        let turn = self.turn(kind_at(rest[0]));
        self.take_turn(alloc, turn, at, rest)
    }

    /// What the text spells, which ends at a place.
    pub fn finish(self, alloc: Global, at: u32) -> Result<Grouped, GrammarError>
        ensures { Finishes self at result }
    {
        let mut reader = self;
        if !may_end(reader.position) {
            return Err(GrammarError::NotGrammar { at });
        }
        reader.end(alloc)?;
        let Reader { collected, .. } = reader;
        match collected.finish(alloc)? {
            Some(x) => Ok(x),
            None => Err(GrammarError::NotGrammar { at }),
        }
    }
}

/// What a text spells, whatever names come twice.
pub fn read(alloc: Global, grammar: Grammar, text: &[u8]) -> Result<Grouped, GrammarError>
    ensures spelled { IfOk result (λ x. SpellsOnly grammar text.now x) }
    ensures refused { IfErr result (λ e. Refuses grammar text.now e) }
{
    if text.len() > u32::MAX as usize {
        return Err(GrammarError::OutOfMemory);
    }
    let mut reader = Reader::new(alloc, grammar);
    let mut at = 0;
    while at < text.len() {
        let count = reader.step(alloc, at as u32, &text[at..])?;
        if count == 0 {
            return Err(GrammarError::NotGrammar { at: at as u32 });
        }
        at += count;
    }
    reader.finish(alloc, at as u32)
}
