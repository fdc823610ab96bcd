//! How deliveries ended.
ghost use Rattle.std.specs.Prelude.{◌≡◌};
ghost use Rattle.std.specs.List.{list_any};
ghost use Rattle.auth_decide.specs.declared.verdict.Ask.TheVariants as ask;
ghost use Rattle.drill.specs.World.{says_stale};

use auth_decide::Verdict;
use auth_grammar::{Item, same_name, value_of};

/// The number of deliveries, and of those by how they ended.
#[derive(Debug, Drop, Clone, Copy, PartialEq, Eq)]
pub struct Tally {
    pub delivered: u32,
    pub admitted: u32,
    /// Answered with a challenge that says that the nonce was stale.
    pub stale: u32,
    /// Answered otherwise.
    pub refused: u32,
}

impl Tally {
    ghost use Rattle.drill.specs.Steps.{AreLow};
    ghost use Rattle.drill.specs.World.{tallied};

    /// Counts a delivery that was answered so.
    pub(crate) fn count(&mut self, verdict: &Verdict)
        requires { AreLow self.old }
        ensures { self.new ≡ tallied self.old (ask.Verdict verdict.now) }
    {
        self.delivered += 1;
        match verdict {
            Verdict::Admit { .. } => self.admitted += 1,
            Verdict::Challenge { items } if are_stale(items.as_slice()) => self.stale += 1,
            _ => self.refused += 1,
        }
    }
}

/// Whether one of the items says that the nonce was stale.
fn are_stale(items: &[Item]) -> bool
    ensures { result ≡ list_any says_stale items.now }
{
    items.iter().any(|item| says_stale(item))
}

/// Whether the item says that the nonce was stale (RFC 7616 section 3.3).
fn says_stale(item: &Item) -> bool
    ensures { result ≡ says_stale item.now }
{
    value_of(item.rest.params(), b"stale").is_some_and(|text| same_name(text.bytes(), b"true"))
}
