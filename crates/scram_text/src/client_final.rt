//! The last message of a client (RFC 5802 section 7: client-final-message).
ghost use Rattle.std.specs.Prelude.{◌≡◌, true, IfOk};
ghost use Rattle.scram_text.specs.Bytes.{is_nonce_byte, some_of};
ghost use Rattle.scram_text.specs.ClientFinals.{SpellsClientFinal, client_final_text, without_text};

use crate::base64_texts::{DIGEST_LENGTH, push_base64};
use crate::client_final_parts::client_final_parts;
use crate::client_final_reading::message_of;
use crate::error::ScramError;
use crate::flag::Flag;
use auth_grammar::{Octets, OutOfMemory, behind};
use std::alloc::Global;

/// What a client sends last: its proof, which is over the message without it. It is what `read` gives for some text.
#[derive(Drop)]
pub struct ClientFinal {
    pub flag: Flag,
    pub nonce: Octets,
    /// The message before the proof, extensions and all, which both sides hash.
    pub without: Octets,
    pub proof: [u8; DIGEST_LENGTH],
    pub ghost is_nonce: { some_of is_nonce_byte nonce ≡ true },
    ghost spelled: { ∥ SpellsClientFinal (client_final_text without proof)
        (record { flag = flag; nonce = nonce; without = without; proof = proof }) ∥₁ },
}

impl ClientFinal {
    ghost use Rattle.scram_text.specs.ClientFinals.{ClientFinalParts};
    ghost use Rattle.scram_text.specs.ClientFinalAnswers.{AnswersClientFinal, client_final_parts as parts_of};

    /// The message before its proof, without extensions.
    pub fn without(alloc: Global, flag: Flag, nonce: &[u8]) -> Result<Octets, OutOfMemory>
        ensures { IfOk result (λ t. t ≡ without_text flag nonce.now) }
    {
        let mut text = Octets::of(alloc, b"c=")?;
        text.extend(flag.binding())?;
        text.extend(b",r=")?;
        text.extend(nonce)?;
        Ok(text)
    }

    /// The message of these parts, without extensions.
    pub fn new(
        alloc: Global,
        flag: Flag,
        nonce: &[u8],
        proof: &[u8; DIGEST_LENGTH],
    ) -> Result<ClientFinal, OutOfMemory>
        requires nonce { some_of is_nonce_byte nonce.now ≡ true }
        ensures { IfOk result (λ m. parts_of m
            ≡ record { flag = flag; nonce = nonce.now; without = without_text flag nonce.now; proof = proof.now }) }
    {
        Ok(ClientFinal {
            flag,
            nonce: Octets::of(alloc, nonce)?,
            without: ClientFinal::without(alloc, flag, nonce)?,
            proof: *proof,
        })
    }

    /// The message that the text is, or the first refusal in this order: a mandatory extension, no message. There is no
    /// memory for a text of 2^32 bytes or more, whose places no `u32` holds.
    pub fn read(alloc: Global, text: &[u8]) -> Result<ClientFinal, ScramError>
        ensures answer { AnswersClientFinal text.now result }
        ensures only { IfOk result (λ m. (parts : ClientFinalParts) → SpellsClientFinal text.now parts → parts ≡ parts_of m) }
    {
        if text.len() > u32::MAX as usize {
            return Err(ScramError::OutOfMemory);
        }
        if let Some(_) = behind(text, b"m=") {
            return Err(ScramError::Extension);
        }
        match client_final_parts(text) {
            Ok((binding, nonce, proof)) => message_of(alloc, text, binding, nonce, proof),
            Err(at) => Err(ScramError::NotMessage { at: at as u32 }),
        }
    }

    /// The message as it is sent.
    pub fn write(&self, alloc: Global) -> Result<Octets, OutOfMemory>
        ensures text { IfOk result (λ t. t ≡ client_final_text self.now.without self.now.proof) }
        ensures reads_back { IfOk result (λ t. ∥ AnswersClientFinal t (Ok self.now) ∥₁) }
    {
        let mut text = self.without.copy()?;
        text.extend(b",p=")?;
        push_base64(alloc, &mut text, &self.proof)?;
        Ok(text)
    }
}
