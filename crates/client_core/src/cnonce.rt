//! The client's nonce.
ghost use Rattle.std.specs.Prelude.{◌≡◌, true};
ghost use Rattle.auth_grammar.specs.Valid.{is_quotable_text};
ghost use Rattle.client_core.specs.Cnonces.{cnonce_of, words_text};
ghost use Rattle.client_core.specs.Writings.{is_quotable};

use crate::state::DigestChoice;
use base64::engine::general_purpose::STANDARD;

/// The base64 of random words (RFC 4648 section 4).
pub(crate) fn words_text(words: &[u8; 16]) -> [u8; 24]
    ensures text { result ≡ words_text words.now }
    ensures quotable { is_quotable_text result ≡ true }
{
    let mut text = [0; 24];
    let _ = STANDARD.encode_slice(words, &mut text);
    text
}

/// The cnonce of the next request: that of the words, but in a session the first that was sent.
pub(crate) fn cnonce_of(choice: &DigestChoice, words: &[u8; 16]) -> [u8; 24]
    ensures text { result ≡ cnonce_of choice.now words.now }
    ensures quotable { is_quotable choice.now.prime ≡ true → is_quotable_text result ≡ true }
{
    match choice.prime {
        Some(prime) if choice.challenge.kind.session => prime,
        _ => words_text(words),
    }
}
