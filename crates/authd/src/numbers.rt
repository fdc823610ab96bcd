//! Numbers among the words of the command line.
ghost use Rattle.std.specs.Prelude.{◌≡◌, ◌≤◌, IfSome};
ghost use Rattle.auth_grammar.specs.Numbers.{number_in};

use auth_grammar::number_in;

/// The number of 32 bits that a word writes, where it is from `least` to `most`.
pub(crate) fn small_number_in(least: u32, most: u32, word: &[u8]) -> Option<u32>
    ensures number { result ≡ number_in least most word.now }
    ensures within { IfSome result (λ number. (least ≤ number) × (number ≤ most)) }
{
    match number_in(u64::from(least), u64::from(most), word) {
        Some(number) => Some(number as u32),
        None => None,
    }
}
