//! Words that a generator gives, for whoever draws them.
ghost use Rattle.std.specs.Prelude.{◌≡◌, ◌<◌, ◌-◌, ◌^◌};
ghost use Rattle.drill.specs.Generator.{behind_words};

use crate::generator::Generator;
use auth_io::{Failed, Words};

/// The words that a generator gives, by where it began and how many were drawn since. No draw fails.
#[derive(Drop)]
pub(crate) struct GeneratedWords {
    begun: u64,
    drawn: u64,
    generator: Generator,
    // where the count has room the generator stands behind the words
    ghost goes: { drawn < 2 ^ 64 - 1 → generator.state ≡ behind_words drawn begun },
}

impl GeneratedWords {
    /// The words from where the generator stands.
    pub(crate) fn new(generator: Generator) -> GeneratedWords
        ensures begun { result.begun ≡ generator.state }
        ensures none { result.drawn ≡ 0 }
    {
        GeneratedWords {
            begun: generator.state,
            drawn: 0,
            generator,
        }
    }

    /// The generator behind the words that were drawn.
    pub(crate) fn generator(self) -> Generator
        ensures { result.state ≡ self.generator.state }
    {
        self.generator
    }
}

impl Words for GeneratedWords {
    ghost use Rattle.std.specs.Prelude.{None, Some};
    ghost use Rattle.drill.specs.Drilling.{told_from};

    ghost drawn = { λ s. Some (told_from s.drawn s.begun) };

    ghost coming = { λ _. None };

    ghost faults = { λ _. 0 };

    fn draw(&mut self) -> Result<[u8; 16], Failed> {
        self.drawn = self.drawn.saturating_add(1);
        Ok(self.generator.words())
    }
}
