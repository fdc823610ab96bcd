//! A window of counts.
ghost use Rattle.std.specs.Prelude.{◌≡◌, ◌≢◌, ◌-◌, ◌<◌, ◌≤◌, [], List, ℕ};
ghost use Rattle.std.specs.Int.{bit_at};
ghost use Rattle.count_window.specs.Window.{StandsFor, high, admission, counts_after};

/// How many counts a window tells apart: the greatest that was admitted, and those just below it.
pub const WIDTH: u32 = 128;

/// Whether a count is admitted.
#[derive(Clone, Copy, Debug, PartialEq, Eq)]
pub enum Admit {
    /// It is admitted now, and was not before.
    Fresh,
    /// It was admitted before.
    Repeated,
    /// It is at least `WIDTH` below the greatest count that was admitted, which is `high`.
    Behind { high: u32 },
}

/// The counts that were admitted, as far as they are told apart: the greatest, or 0, and a mask
/// whose bit i is for the count that is i below it.
#[derive(Clone, Copy, Debug, PartialEq, Eq)]
pub struct Window {
    high: u32,
    mask: u128,
}

/// The mask once the greatest count has risen.
fn slide(mask: u128, rise: u32) -> u128
    requires { 1 ≤ rise }
    ensures newest { bit_at result 0 ≡ 1 }
    ensures between { (i : ℕ) → 0 < i → i < rise → i < WIDTH → bit_at result i ≡ 0 }
    ensures older { (i : ℕ) → rise ≤ i → i < WIDTH → bit_at result i ≡ bit_at mask (i - rise) }
{
    if rise < WIDTH { (mask << rise) | 1 } else { 1 }
}

impl Window {
    /// A window that has admitted no count.
    pub fn new() -> Window
        ensures { StandsFor result [] }
    {
        Window { high: 0, mask: 0 }
    }

    /// The greatest count that was admitted, or 0.
    pub fn high(&self) -> u32
        ensures { (counts : List ℕ) → StandsFor self.now counts → result ≡ high counts }
    {
        self.high
    }

    /// Admits a count that is new. Counts begin at 1.
    pub fn admit(&mut self, count: u32) -> Admit
        requires { 1 ≤ count }
        ensures answer { (counts : List ℕ) → StandsFor self.old counts → result ≡ admission counts count }
        ensures stands { (counts : List ℕ) → StandsFor self.old counts → StandsFor self.new (counts_after counts count) }
        ensures kept { result ≢ Admit.Fresh → self.new ≡ self.old }
    {
        if count > self.high {
            self.mask = slide(self.mask, count - self.high);
            self.high = count;
            return Admit::Fresh;
        }
        let back = self.high - count;
        if back >= WIDTH {
            return Admit::Behind { high: self.high };
        }
        if (self.mask >> back) & 1 == 1 {
            return Admit::Repeated;
        }
        self.mask |= 1u128 << back;
        Admit::Fresh
    }
}

#[cfg(test)]
mod tests {
    use super::*;
    use std::process::Abort;

    fn expect_answers(rt: &impl Abort, high: u32, rows: &[(u32, Admit)]) {
        let mut window = Window::new();
        for (count, answer) in rows {
            assert!(rt; *count > 0);
            assert_eq!(rt; window.admit(*count), *answer);
        }
        assert_eq!(rt; window.high(), high);
    }

    #[test]
    fn admits_each_count_once(rt: HostRuntime) {
        expect_answers(&rt, 0, &[]);
        expect_answers(
            &rt,
            u32::MAX,
            &[
                (200, Admit::Fresh),
                (73, Admit::Fresh),
                (72, Admit::Behind { high: 200 }),
                (73, Admit::Repeated),
                (327, Admit::Fresh),
                (200, Admit::Repeated),
                (199, Admit::Behind { high: 327 }),
                (u32::MAX, Admit::Fresh),
                (327, Admit::Behind { high: u32::MAX }),
            ],
        );
        expect_answers(
            &rt,
            129,
            &[
                (1, Admit::Fresh),
                (129, Admit::Fresh),
                (1, Admit::Behind { high: 129 }),
                (2, Admit::Fresh),
                (129, Admit::Repeated),
            ],
        );
    }
}
