//! Reading challenges in pieces.
ghost use Rattle.std.specs.Prelude.{◌≡◌, [], None};
ghost use Rattle.auth_grammar.specs.Answers.{AnswersChallenges};

use crate::error::GrammarError;
use crate::grammar::Grammar;
use crate::items::ItemList;
use crate::read::read_text;
use crate::walker::Walker;
use std::alloc::Global;
use std::marker::Model;

/// Challenges that come in pieces. It keeps the bytes, and tells the first byte with which no
/// challenges go on as soon as it comes.
#[derive(Drop)]
pub struct ItemFeed {
    text: Vec<u8>,
    walker: Walker,
    fault: Option<u32>,
}

impl Model for ItemFeed {
    ghost use Rattle.std.specs.Prelude.{◌<◌, ◌^◌, length};
    ghost use Rattle.auth_grammar.specs.Feeds.{Fed, IsFed};

    ghost Value = { Fed };

    ghost view = { λ f. record { text = f.text.items; fault = f.fault } };

    ghost invariant = { λ f. IsFed f.walker f.text.items f.fault × (length f.text.items < 2 ^ 32) };
}

impl ItemFeed {
    ghost use Rattle.auth_grammar.specs.Feeds.{Repeats, Takes};

    /// A feed with no bytes, which takes no memory.
    pub fn new(alloc: Global) -> ItemFeed
        ensures text { result.text ≡ [] }
        ensures fault { result.fault ≡ None }
    {
        ItemFeed {
            text: Vec::new(alloc),
            walker: Walker::new(Grammar::Challenges),
            fault: None,
        }
    }

    /// Takes a piece. `NotGrammar` says that no challenges begin with the bytes so far; each later
    /// call answers it again. After `OutOfMemory`, which comes also where the bytes would be 2^32
    /// or more, the feed holds the bytes from before.
    pub fn feed(&mut self, piece: &[u8]) -> Result<(), GrammarError>
        ensures takes { self.old.fault ≡ None → Takes self.old piece.now result self.new }
        ensures repeats { Repeats self.old piece.now result self.new }
    {
        if let Some(at) = self.fault {
            return Err(GrammarError::NotGrammar { at });
        }
        let start = self.text.len();
        if piece.len() > u32::MAX as usize - start {
            return Err(GrammarError::OutOfMemory);
        }
        if self.text.extend_from_slice(piece).is_err() {
            return Err(GrammarError::OutOfMemory);
        }
        match self.walker.walk(piece) {
            Ok(walker) => {
                self.walker = walker;
                Ok(())
            }
            Err(i) => {
                let at = (start + i) as u32;
                self.fault = Some(at);
                Err(GrammarError::NotGrammar { at })
            }
        }
    }

    /// Reads all the bytes, as `read_challenges` reads them as one line.
    pub fn finish(self, alloc: Global) -> Result<ItemList, GrammarError>
        ensures { AnswersChallenges self.text result }
    {
        if let Some(at) = self.fault {
            return Err(GrammarError::NotGrammar { at });
        }
        read_text(alloc, self.text.as_slice())
    }
}
