//! Sources of random words in memory.
ghost use Rattle.std.specs.Prelude.{◌≡◌, [], Some};

use crate::memory::schedule::is_listed;
use crate::memory::script::Script;
use crate::stream::Failed;
use crate::words::Words;

/// A source that gives these words, and then the last ones again; zeros where there are none.
#[derive(Drop)]
pub struct MemWords {
    script: Script<[u8; 16]>,
    failing: Vec<u32>,
    calls: u64,
    faults: u64,
}

impl MemWords {
    ghost use Rattle.auth_io.specs.Memory.{failing_plan, words_plan};

    /// `failing` has the numbers of the calls of `draw` that are to fail, counted from 1.
    pub fn new(words: Vec<[u8; 16]>, failing: Vec<u32>) -> MemWords
        ensures drawn { ⟦<MemWords as Words>⟧.drawn result ≡ Some [] }
        ensures coming { ⟦<MemWords as Words>⟧.coming result ≡ Some words.items }
        ensures faults { ⟦<MemWords as Words>⟧.faults result ≡ 0 }
        ensures plan { words_plan result ≡ failing_plan failing.items 0 }
    {
        MemWords {
            script: Script::new(words),
            failing,
            calls: 0,
            faults: 0,
        }
    }
}

impl Words for MemWords {
    ghost use Rattle.std.specs.Prelude.{◌∷◌, replicate, true, false, MatchResult, IfOk, OnErr};
    ghost use Rattle.auth_io.specs.Causes.{HasCause};
    ghost use Rattle.auth_io.specs.Memory.{words_plan};
    ghost use Rattle.auth_io.specs.Plans.{after_call, next_fails};
    ghost use Rattle.auth_io.specs.Told.{Adds, Stays};
    ghost use Rattle.auth_io.specs.Scripts.{GivesFirst, coming_after, given_first};

    ghost drawn = { λ s. Some (given_first (replicate 16 0) s.script.answers.items s.script.given) };

    ghost coming = { λ s. Some (coming_after s.script.answers.items s.script.given) };

    ghost faults = { λ s. s.faults };

    fn draw(&mut self) -> Result<[u8; 16], Failed>
        ensures drawn { IfOk result (λ words.
            Adds (⟦<MemWords as Words>⟧.drawn self.old) (⟦<MemWords as Words>⟧.drawn self.new) (words ∷ [])) }
        ensures coming { IfOk result (λ words.
            GivesFirst (replicate 16 0) (⟦<MemWords as Words>⟧.coming self.old) (⟦<MemWords as Words>⟧.coming self.new) words) }
        ensures drawn_at_fault { OnErr result (Stays (⟦<MemWords as Words>⟧.drawn self.old) (⟦<MemWords as Words>⟧.drawn self.new)) }
        ensures coming_at_fault { OnErr result (⟦<MemWords as Words>⟧.coming self.new ≡ ⟦<MemWords as Words>⟧.coming self.old) }
        ensures cause { HasCause (⟦<MemWords as Words>⟧.faults self.old) (⟦<MemWords as Words>⟧.faults self.new) result }
        ensures planned { MatchResult result (λ _. next_fails (words_plan self.old) ≡ false)
            (λ _. next_fails (words_plan self.old) ≡ true) }
        ensures plan { words_plan self.new ≡ after_call (words_plan self.old) }
    {
        self.calls = self.calls.saturating_add(1);
        if is_listed(self.failing.as_slice(), self.calls) {
            self.faults = self.faults.saturating_add(1);
            return Err(Failed);
        }
        Ok(self.script.next([0; 16]))
    }
}

/// A source of these words that never fails.
#[derive(Drop)]
pub struct SureWords {
    script: Script<[u8; 16]>,
}

impl SureWords {
    /// The last ones are given again, and zeros where there are none.
    pub fn new(words: Vec<[u8; 16]>) -> SureWords
        ensures drawn { ⟦<SureWords as Words>⟧.drawn result ≡ Some [] }
        ensures coming { ⟦<SureWords as Words>⟧.coming result ≡ Some words.items }
    {
        SureWords {
            script: Script::new(words),
        }
    }
}

impl Words for SureWords {
    ghost use Rattle.std.specs.Prelude.{replicate, Some};
    ghost use Rattle.auth_io.specs.Scripts.{coming_after, given_first};

    ghost drawn = { λ s. Some (given_first (replicate 16 0) s.script.answers.items s.script.given) };

    ghost coming = { λ s. Some (coming_after s.script.answers.items s.script.given) };

    ghost faults = { λ _. 0 };

    fn draw(&mut self) -> Result<[u8; 16], Failed> {
        Ok(self.script.next([0; 16]))
    }
}
