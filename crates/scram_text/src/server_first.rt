//! The first message of a server (RFC 5802 section 7: server-first-message).
ghost use Rattle.std.specs.Prelude.{◌≡◌, ◌≤◌, true, length, IfOk};
ghost use Rattle.scram_text.specs.Bytes.{is_nonce_byte, some_of};
ghost use Rattle.scram_text.specs.ServerFirsts.{IsServerFirst, server_first_text};

use crate::base64_texts::push_base64;
use crate::error::{ScramError, ScramField};
use crate::limits::FIRST_LIMIT;
use crate::server_first_parts::server_first_parts;
use crate::server_first_reading::message_of;
use auth_grammar::{Octets, OutOfMemory, behind};
use itoa::Buffer;
use std::alloc::Global;

/// What a server sends first: the whole nonce, of which the client sent the front, and what the password is hashed with.
/// It is what `read` gives for its text.
#[derive(Drop)]
pub struct ServerFirst {
    pub nonce: Octets,
    pub salt: Octets,
    /// The iteration count.
    pub i: u32,
    /// The whole message, extensions and all, which both sides hash.
    pub text: Octets,
    pub ghost is_nonce: { some_of is_nonce_byte nonce ≡ true },
    pub ghost counted: { 1 ≤ i },
    ghost spelled: { ∥ IsServerFirst text (record { nonce = nonce; salt = salt; i = i }) ∥₁ },
}

impl ServerFirst {
    ghost use Rattle.scram_text.specs.ServerFirsts.{ServerFirstParts, SpellsServerFirst};
    ghost use Rattle.scram_text.specs.ServerFirstAnswers.{AnswersServerFirst, server_first_parts as parts_of};

    /// The text of these parts, without extensions.
    pub fn text_of(alloc: Global, nonce: &[u8], salt: &[u8], i: u32) -> Result<Octets, OutOfMemory>
        ensures { IfOk result (λ t. t ≡ server_first_text nonce.now salt.now i) }
    {
        let mut text = Octets::of(alloc, b"r=")?;
        text.extend(nonce)?;
        text.extend(b",s=")?;
        push_base64(alloc, &mut text, salt)?;
        text.extend(b",i=")?;
        text.extend(Buffer::new().format(i).as_bytes())?;
        Ok(text)
    }

    /// The message of these parts, without extensions.
    pub fn new(alloc: Global, nonce: &[u8], salt: &[u8], i: u32) -> Result<ServerFirst, OutOfMemory>
        requires nonce { some_of is_nonce_byte nonce.now ≡ true }
        requires salt { 1 ≤ length salt.now }
        requires count { 1 ≤ i }
        requires short { length (server_first_text nonce.now salt.now i) ≤ FIRST_LIMIT }
        ensures parts { IfOk result (λ m. parts_of m ≡ record { nonce = nonce.now; salt = salt.now; i = i }) }
        ensures text { IfOk result (λ m. m.text ≡ server_first_text nonce.now salt.now i) }
    {
        Ok(ServerFirst {
            nonce: Octets::of(alloc, nonce)?,
            salt: Octets::of(alloc, salt)?,
            i,
            text: ServerFirst::text_of(alloc, nonce, salt, i)?,
        })
    }

    /// The message that the text is, or the first refusal in this order: too long, a mandatory extension, no message.
    pub fn read(alloc: Global, text: &[u8]) -> Result<ServerFirst, ScramError>
        ensures answer { AnswersServerFirst text.now result }
        ensures only { IfOk result (λ m. (parts : ServerFirstParts) → SpellsServerFirst text.now parts → parts ≡ parts_of m) }
    {
        if text.len() > FIRST_LIMIT {
            return Err(ScramError::TooLong {
                field: ScramField::First,
                limit: FIRST_LIMIT as u32,
            });
        }
        if let Some(_) = behind(text, b"m=") {
            return Err(ScramError::Extension);
        }
        match server_first_parts(text) {
            Ok((nonce, salt, count)) => message_of(alloc, text, nonce, salt, count),
            Err(at) => Err(ScramError::NotMessage { at: at as u32 }),
        }
    }

    /// The message as it is sent.
    pub fn write(&self, alloc: Global) -> Result<Octets, OutOfMemory>
        ensures text { IfOk result (λ t. t ≡ self.now.text) }
        ensures reads_back { IfOk result (λ t. ∥ AnswersServerFirst t (Ok self.now) ∥₁) }
    {
        Octets::of(alloc, self.text.bytes())
    }
}
