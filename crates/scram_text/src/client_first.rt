//! The first message of a client (RFC 5802 section 7: client-first-message).
ghost use Rattle.std.specs.Prelude.{◌≡◌, ◌≤◌, ◌∷◌, ◌++◌, ℕ, List, true, length, IfOk};
ghost use Rattle.auth_grammar.specs.Plain.{is_printable};
ghost use Rattle.auth_grammar.specs.declared.plain.TheConstants.{NAME_LIMIT};
ghost use Rattle.scram_text.specs.Bytes.{escaped, is_nonce_byte, some_of};
ghost use Rattle.scram_text.specs.ClientFirsts.{IsClientFirst};
ghost use Rattle.scram_text.specs.declared.limits.TheConstants.{NONCE_LIMIT};

use crate::client_first_parts::{bare_parts, flagged};
use crate::client_first_reading::{message_of, refused};
use crate::error::{ScramError, ScramField};
use crate::flag::Flag;
use crate::limits::{BARE_LIMIT, FLAG_LENGTH, NONCE_LIMIT};
use crate::names::push_written;
use auth_grammar::{NAME_LIMIT, Octets, OutOfMemory};
use std::alloc::Global;

/// What a client sends first. It is what `read` gives for some text.
#[derive(Drop)]
pub struct ClientFirst {
    pub flag: Flag,
    pub name: Octets,
    pub nonce: Octets,
    /// The text behind the flag, extensions and all, which both sides hash.
    pub bare: Octets,
    pub ghost is_nonce: { some_of is_nonce_byte nonce ≡ true },
    pub ghost short_nonce: { length nonce ≤ NONCE_LIMIT },
    ghost spelled: { ∥ IsClientFirst (record { flag = flag; name = name; nonce = nonce; bare = bare }) ∥₁ },
}

impl ClientFirst {
    ghost use Rattle.scram_text.specs.ClientFirsts.{FirstParts, SpellsClientFirst, bare_text};
    ghost use Rattle.scram_text.specs.Flags.{flag_letter};
    ghost use Rattle.scram_text.specs.ClientFirstAnswers.{AnswersClientFirst, parts_of};

    /// The message of a name and a nonce, without extensions. The password's user name is taken as it is, with no
    /// preparation of its characters.
    pub fn new(
        alloc: Global,
        flag: Flag,
        name: &[u8],
        nonce: &[u8],
    ) -> Result<ClientFirst, OutOfMemory>
        requires name { some_of is_printable name.now ≡ true }
        requires short_name { length name.now ≤ NAME_LIMIT }
        requires nonce { some_of is_nonce_byte nonce.now ≡ true }
        requires short_nonce { length nonce.now ≤ NONCE_LIMIT }
        ensures { IfOk result (λ m. parts_of m
            ≡ record { flag = flag; name = name.now; nonce = nonce.now; bare = bare_text name.now nonce.now }) }
    {
        let mut bare = Octets::of(alloc, b"n=")?;
        push_written(&mut bare, name)?;
        bare.extend(b",r=")?;
        bare.extend(nonce)?;
        Ok(ClientFirst {
            flag,
            name: Octets::of(alloc, name)?,
            nonce: Octets::of(alloc, nonce)?,
            bare,
        })
    }

    /// The message that the text is, or the first refusal in this order: too long, channel binding, an authorization
    /// identity, a mandatory extension, no message, too long a name, too long a nonce.
    pub fn read(alloc: Global, text: &[u8]) -> Result<ClientFirst, ScramError>
        ensures answer { AnswersClientFirst text.now result }
        ensures only { IfOk result (λ m. (parts : FirstParts) → SpellsClientFirst text.now parts → parts ≡ parts_of m) }
    {
        if text.len() > FLAG_LENGTH + BARE_LIMIT {
            return Err(ScramError::TooLong {
                field: ScramField::Bare,
                limit: BARE_LIMIT as u32,
            });
        }
        if let Some(error) = refused(text) {
            return Err(error);
        }
        let (flag, bare) = match flagged(text) {
            Ok(found) => found,
            Err(at) => return Err(ScramError::NotMessage { at: at as u32 }),
        };
        match bare_parts(bare) {
            Ok((name, nonce)) => message_of(alloc, flag, bare, name, nonce),
            Err(at) => Err(ScramError::NotMessage {
                at: (FLAG_LENGTH + at) as u32,
            }),
        }
    }

    /// The message as it is sent.
    pub fn write(&self, alloc: Global) -> Result<Octets, OutOfMemory>
        ensures text { IfOk result (λ t. t ≡ flag_letter self.now.flag ∷ 44 ∷ 44 ∷ self.now.bare) }
        ensures reads_back { IfOk result (λ t. ∥ AnswersClientFirst t (Ok self.now) ∥₁) }
    {
        let mut text = Octets::of(alloc, self.flag.header())?;
        text.extend(self.bare.bytes())?;
        Ok(text)
    }
}
