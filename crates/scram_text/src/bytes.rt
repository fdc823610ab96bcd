//! Taking a text apart byte by byte.
ghost use Rattle.std.specs.Prelude.{◌≡◌, ◌≤◌, ◌⊎◌, ◌∷◌, [], IfNone, IfSome};

use std::cmp::max;

/// The first byte and the rest.
pub(crate) fn first_byte(text: &[u8]) -> Option<(u8, &[u8])>
    ensures some { IfSome result (λ found. text.now ≡ found.0 ∷ found.1.now) }
    ensures none { IfNone result (text.now ≡ []) }
{
    match text {
        [byte, more @ ..] => Some((*byte, more)),
        [] => None,
    }
}

/// The farther of two places.
pub(crate) fn farther(a: usize, b: usize) -> usize
    ensures first { a ≤ result }
    ensures second { b ≤ result }
    ensures one { (result ≡ a) ⊎ (result ≡ b) }
{
    max(a, b)
}
