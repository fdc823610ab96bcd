//! Numbers as text.
ghost use Rattle.std.specs.Prelude.{◌≡◌, ◌≢◌, ◌≤◌, ◌<◌, ◌^◌, ℕ, IfSome, IfNone, decimal};
ghost use Rattle.auth_grammar.specs.Numbers.{is_between, number_in};

use itoa::Buffer;
use std::str;

/// The number that the text writes in decimal digits, with no sign and no leading zero. It has at most 64 bits.
pub fn decimal_of(text: &[u8]) -> Option<u64>
    ensures some { IfSome result (λ n. text.now ≡ decimal n) }
    ensures none { IfNone result ((n : ℕ) → n < 2 ^ 64 → text.now ≢ decimal n) }
{
    let Ok(digits) = str::from_utf8(text) else {
        return None;
    };
    let Ok(number) = digits.parse::<u64>() else {
        return None;
    };
    if Buffer::new().format(number).as_bytes() == text {
        Some(number)
    } else {
        None
    }
}

/// The number that a text writes in decimal digits, with no sign and no leading zero, where it is from `least` to `most`.
pub fn number_in(least: u64, most: u64, text: &[u8]) -> Option<u64>
    ensures number { result ≡ number_in least most text.now }
    ensures within { IfSome result (λ number. (least ≤ number) × (number ≤ most)) }
{
    let Some(number) = decimal_of(text) else {
        return None;
    };
    if is_between(least, most, number) {
        Some(number)
    } else {
        None
    }
}

fn is_between(least: u64, most: u64, number: u64) -> bool
    ensures { result ≡ is_between least most number }
{
    least <= number && number <= most
}
