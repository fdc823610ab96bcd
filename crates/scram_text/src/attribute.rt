//! One part of a message: a letter, an equals sign and a content (RFC 5802 section 5.1).
ghost use Rattle.std.specs.Prelude.{◌≡◌, ◌↔◌, ◌≤◌, IfNone, IfSome, IsTrue, length};
ghost use Rattle.scram_text.specs.Contents.{Holds, has_letter};
ghost use Rattle.scram_text.specs.Parts.{IsAttribute, IsWith};
ghost use Rattle.scram_text.specs.Reaching.{Reaches};

use crate::base64_texts::{digest_reach, is_digest_text, is_salt_text, salt_reach};
use crate::bytes::first_byte;
use crate::counts::{count_of, count_reach};
use crate::flag::{binding_reach, bound_flag};
use crate::names::{is_written_name, name_reach};
use crate::runs::{Class, is_run, run_reach};
use auth_grammar::behind;

/// What a part may be.
#[derive(Drop, Clone, Copy)]
pub(crate) enum Attribute {
    /// `n`, a user's name as it is written.
    Name,
    /// `r`
    Nonce,
    /// Any letter and a value, which whoever reads it ignores.
    Extension,
    /// The same with any letter but `p`.
    Inner,
    /// `c`, the header of the first message in base64.
    Binding,
    /// `s`, in base64.
    Salt,
    /// `i`, the iteration count.
    Count,
    /// `p`, in base64.
    Proof,
    /// `v`, in base64.
    Signature,
    /// `e`, why there is no signature.
    Fault,
}

impl Attribute {
    /// The content of the part, where it is such an attribute.
    pub(crate) fn content_of(self, part: &[u8]) -> Option<&[u8]>
        ensures some { IfSome result (λ content. IsWith self part.now content.now) }
        ensures none { IfNone result (IsAttribute self part.now → ⊥) }
    {
        let (letter, more) = first_byte(part)?;
        let content = behind(more, b"=")?;
        if self.has_letter(letter) && self.holds(content) {
            Some(content)
        } else {
            None
        }
    }

    /// How far the part could go on as such an attribute.
    pub(crate) fn reach(self, part: &[u8]) -> usize
        ensures reach { Reaches (IsAttribute self) part.now result }
        ensures within { result ≤ length part.now }
    {
        let Some((letter, more)) = first_byte(part) else {
            return 0;
        };
        if !self.has_letter(letter) {
            return 0;
        }
        match behind(more, b"=") {
            Some(content) => 2 + self.content_reach(content),
            None => 1,
        }
    }

    fn has_letter(self, byte: u8) -> bool
        ensures { result ≡ has_letter self byte }
    {
        match self {
            Attribute::Name => byte == b'n',
            Attribute::Nonce => byte == b'r',
            Attribute::Extension => byte.is_ascii_alphabetic(),
            Attribute::Inner => byte.is_ascii_alphabetic() && byte != b'p',
            Attribute::Binding => byte == b'c',
            Attribute::Salt => byte == b's',
            Attribute::Count => byte == b'i',
            Attribute::Proof => byte == b'p',
            Attribute::Signature => byte == b'v',
            Attribute::Fault => byte == b'e',
        }
    }

    /// Whether the text is a content of such an attribute.
    fn holds(self, text: &[u8]) -> bool
        ensures { IsTrue result ↔ Holds self text.now }
    {
        match self {
            Attribute::Name => is_written_name(text),
            Attribute::Nonce => is_run(Class::Nonce, text),
            Attribute::Extension => is_run(Class::Value, text),
            Attribute::Inner => is_run(Class::Value, text),
            Attribute::Fault => is_run(Class::Value, text),
            Attribute::Binding => bound_flag(text).is_some(),
            Attribute::Salt => is_salt_text(text),
            Attribute::Count => count_of(text).is_some(),
            Attribute::Proof => is_digest_text(text),
            Attribute::Signature => is_digest_text(text),
        }
    }

    /// How far the text could go on as such a content.
    fn content_reach(self, text: &[u8]) -> usize
        ensures reach { Reaches (Holds self) text.now result }
        ensures within { result ≤ length text.now }
    {
        match self {
            Attribute::Name => name_reach(text),
            Attribute::Nonce => run_reach(Class::Nonce, text),
            Attribute::Extension => run_reach(Class::Value, text),
            Attribute::Inner => run_reach(Class::Value, text),
            Attribute::Fault => run_reach(Class::Value, text),
            Attribute::Binding => binding_reach(text),
            Attribute::Salt => salt_reach(text),
            Attribute::Count => count_reach(text),
            Attribute::Proof => digest_reach(text),
            Attribute::Signature => digest_reach(text),
        }
    }
}
