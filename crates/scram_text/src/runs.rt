//! Runs of bytes of one class.
ghost use Rattle.std.specs.Prelude.{◌≡◌, ◌≤◌, true, length};
ghost use Rattle.std.specs.List.{list_all};
ghost use Rattle.scram_text.specs.Bytes.{is_symbol, some_of};
ghost use Rattle.scram_text.specs.Contents.{is_of};
ghost use Rattle.scram_text.specs.Reaching.{Reaches};

use crate::bytes::first_byte;

/// The bytes of which a content may be made.
#[derive(Drop, Clone, Copy)]
pub(crate) enum Class {
    Nonce,
    Value,
    /// What base64 is written with, the padding apart.
    Symbol,
}

impl Class {
    pub(crate) fn has(self, byte: u8) -> bool
        ensures { result ≡ is_of self byte }
    {
        match self {
            Class::Nonce => 33 <= byte && byte <= 126 && byte != b',',
            Class::Value => byte != 0 && byte != b',',
            Class::Symbol => is_symbol(byte),
        }
    }
}

/// Whether the byte is a base64 character other than the padding.
pub fn is_symbol(byte: u8) -> bool
    ensures { result ≡ is_symbol byte }
{
    byte.is_ascii_alphanumeric() || byte == b'+' || byte == b'/'
}

/// Whether the text is one byte of the class or more.
pub(crate) fn is_run(class: Class, text: &[u8]) -> bool
    ensures { result ≡ some_of (is_of class) text.now }
{
    match first_byte(text) {
        Some(_) => all_of(class, text),
        None => false,
    }
}

/// Whether each byte of the text is of the class.
pub(crate) fn all_of(class: Class, text: &[u8]) -> bool
    ensures { result ≡ list_all (is_of class) text.now }
{
    text.iter().all(|&byte| class.has(byte))
}

/// How far the text could go on as such.
pub(crate) fn run_reach(class: Class, text: &[u8]) -> usize
    ensures reach { Reaches (λ t. some_of (is_of class) t ≡ true) text.now result }
    ensures within { result ≤ length text.now }
{
    for (at, byte) in text.iter().enumerate() {
        if !class.has(*byte) {
            return at;
        }
    }
    text.len()
}

/// How far the text could go on as the word.
pub(crate) fn word_reach(word: &[u8], text: &[u8]) -> usize
    ensures reach { Reaches (λ t. t ≡ word.now) text.now result }
    ensures within { result ≤ length text.now }
{
    for (at, byte) in text.iter().enumerate() {
        if at >= word.len() {
            return at;
        }
        if word[at] != *byte {
            return at;
        }
    }
    text.len()
}
