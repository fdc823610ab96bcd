//! Iteration counts, and those of reauthentications, in decimal digits.
ghost use Rattle.std.specs.Prelude.{◌≡◌, ◌≢◌, ◌≤◌, ◌<◌, ◌^◌, ℕ, decimal, length, IfNone, IfSome};
ghost use Rattle.scram_text.specs.Contents.{WritesCount};
ghost use Rattle.scram_text.specs.Reaching.{Reaches};

use auth_grammar::decimal_of;

/// The number from 1 on that the text writes in decimal digits.
pub(crate) fn count_of(text: &[u8]) -> Option<u32>
    ensures some { IfSome result (λ n. text.now ≡ decimal n) }
    ensures above { IfSome result (λ n. 1 ≤ n) }
    ensures none { IfNone result ((n : ℕ) → 1 ≤ n → n < 2 ^ 32 → text.now ≢ decimal n) }
{
    let Some(number) = decimal_of(text) else {
        return None;
    };
    if number == 0 {
        return None;
    }
    if number > u32::MAX as u64 {
        return None;
    }
    Some(number as u32)
}

/// How far the text could go on as such a number.
pub(crate) fn count_reach(text: &[u8]) -> usize
    ensures reach { Reaches (λ t. (i : ℕ) × WritesCount t i) text.now result }
    ensures within { result ≤ length text.now }
{
    for at in 0..text.len() {
        if let None = count_of(&text[..at + 1]) {
            return at;
        }
    }
    text.len()
}
