//! Numbers, words and events that a seed generates.
ghost use Rattle.std.specs.Prelude.{◌≡◌};
ghost use Rattle.drill.specs.Generator.{behind_words, generated_delivery, generated_event, moved, upper, words_from};

use crate::event::DrillEvent;

/// A linear congruential generator modulo 2^64, of whose numbers the upper halves are given.
#[derive(Drop, Clone, Copy)]
pub(crate) struct Generator {
    pub(crate) state: u64,
}

impl Generator {
    /// A generator that begins with this number.
    pub(crate) fn new(seed: u64) -> Generator
        ensures { result.state ≡ seed }
    {
        Generator { state: seed }
    }

    /// The next number.
    fn next(&mut self) -> u32
        ensures state { self.new.state ≡ moved self.old.state }
        ensures gives { result ≡ upper (moved self.old.state) }
    {
        self.state = self
            .state
            .wrapping_mul(6_364_136_223_846_793_005)
            .wrapping_add(1_442_695_040_888_963_407);
        (self.state >> 32) as u32
    }

    /// Sixteen bytes, which are the next four numbers, the greatest byte of each first.
    pub(crate) fn words(&mut self) -> [u8; 16]
        ensures state { self.new.state ≡ behind_words 1 self.old.state }
        ensures words { result ≡ words_from self.old.state }
    {
        let [a0, a1, a2, a3] = self.next().to_be_bytes();
        let [b0, b1, b2, b3] = self.next().to_be_bytes();
        let [c0, c1, c2, c3] = self.next().to_be_bytes();
        let [d0, d1, d2, d3] = self.next().to_be_bytes();
        [
            a0, a1, a2, a3, b0, b1, b2, b3, c0, c1, c2, c3, d0, d1, d2, d3,
        ]
    }

    /// The next event, where so many requests were made.
    pub(crate) fn event(&mut self, made: u32) -> DrillEvent
        ensures { (result, self.new.state) ≡ generated_event made self.old.state }
    {
        match self.next() % 10 {
            0 => DrillEvent::Challenge,
            1..=4 => DrillEvent::Make,
            5..=8 => self.delivery(made),
            _ => DrillEvent::Pass {
                seconds: (self.next() % 120) as u64,
            },
        }
    }

    /// A delivery of one of so many requests. Where there are none, nothing happens.
    fn delivery(&mut self, made: u32) -> DrillEvent
        ensures { (result, self.new.state) ≡ generated_delivery made self.old.state }
    {
        if made == 0 {
            return DrillEvent::Pass { seconds: 0 };
        }
        DrillEvent::Deliver {
            k: self.next() % made,
        }
    }
}
