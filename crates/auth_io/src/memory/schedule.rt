//! How much each call takes, and which calls fail.
ghost use Rattle.std.specs.Prelude.{◌≡◌, ◌<◌, true, false, MatchOption};
ghost use Rattle.auth_io.specs.Plans.{Plan, after_call, is_listed, next_fails, next_size};

use std::marker::Model;

/// How much each call takes at most, and the numbers of the calls that are to fail, counted from 1.
#[derive(Drop)]
pub(crate) struct Schedule {
    sizes: Vec<u32>,
    failing: Vec<u32>,
    calls: u64,
}

impl Model for Schedule {
    ghost Value = { Plan };

    ghost view = { λ s. record { sizes = s.sizes.items; failing = s.failing.items; calls = s.calls } };
}

impl Schedule {
    pub(crate) fn new(sizes: Vec<u32>, failing: Vec<u32>) -> Schedule
        ensures { result ≡ record { sizes = sizes.items; failing = failing.items; calls = 0 } }
    {
        Schedule {
            sizes,
            failing,
            calls: 0,
        }
    }

    /// How much the next call takes at most.
    pub(crate) fn next_size(&mut self) -> usize
        ensures size { result ≡ next_size self.old }
        ensures some { 0 < result }
        ensures after { self.new ≡ after_call self.old }
    {
        let number = self.calls;
        self.calls = number.saturating_add(1);
        if number < self.sizes.len() as u64 {
            (self.sizes[number as usize] as usize).max(1)
        } else {
            usize::MAX
        }
    }

    /// The same, or None where the call is to fail.
    pub(crate) fn next(&mut self) -> Option<usize>
        ensures size { MatchOption result (next_fails self.old ≡ true)
            (λ size. (next_fails self.old ≡ false) × (size ≡ next_size self.old) × (0 < size)) }
        ensures after { self.new ≡ after_call self.old }
    {
        let size = self.next_size();
        if is_listed(self.failing.as_slice(), self.calls) {
            return None;
        }
        Some(size)
    }
}

/// Whether the number is in the list.
pub(crate) fn is_listed(numbers: &[u32], number: u64) -> bool
    ensures { result ≡ is_listed numbers.now number }
{
    numbers.iter().any(|n| u64::from(*n) == number)
}
