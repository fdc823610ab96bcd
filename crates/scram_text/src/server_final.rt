//! The last message of a server (RFC 5802 section 7: server-final-message).
ghost use Rattle.std.specs.Prelude.{◌≡◌, true, IfOk};
ghost use Rattle.scram_text.specs.Bytes.{is_value_byte, some_of};
ghost use Rattle.scram_text.specs.ServerFinals.{SpellsServerFinal, server_final_text, signed};

use crate::base64_texts::{DIGEST_LENGTH, push_base64};
use crate::error::ScramError;
use crate::server_final_reading::said_by;
use auth_grammar::{Octets, OutOfMemory};
use std::alloc::Global;

/// What a server sends last. It is what `read` gives for some text.
#[derive(Drop)]
pub enum ServerFinal {
    /// The proof of the server.
    Signature([u8; DIGEST_LENGTH]),
    /// Why there is none.
    Fault(ServerError),
}

/// Why a server refuses (RFC 5802 section 7: server-error-value).
#[derive(Drop)]
pub struct ServerError {
    pub value: Octets,
    pub ghost is_value: { some_of is_value_byte value ≡ true },
}

impl ServerFinal {
    ghost use Rattle.scram_text.specs.ServerFinals.{FinalSaid};
    ghost use Rattle.scram_text.specs.ServerFinalAnswers.{AnswersServerFinal, said_of};

    /// The message that the text is, whose extensions are left out, or how far it goes on as one. There is no memory for
    /// a text of 2^32 bytes or more, whose places no `u32` holds.
    pub fn read(alloc: Global, text: &[u8]) -> Result<ServerFinal, ScramError>
        ensures answer { AnswersServerFinal text.now result }
        ensures only { IfOk result (λ m. (said : FinalSaid) → SpellsServerFinal text.now said → said ≡ said_of m) }
    {
        if text.len() > u32::MAX as usize {
            return Err(ScramError::OutOfMemory);
        }
        said_by(alloc, text)
    }

    /// The message as it is sent, without extensions.
    pub fn write(&self, alloc: Global) -> Result<Octets, OutOfMemory>
        ensures text { IfOk result (λ t. t ≡ server_final_text (said_of self.now)) }
        ensures reads_back { IfOk result (λ t. AnswersServerFinal t (Ok self.now)) }
    {
        match self {
            ServerFinal::Signature(signature) => signature_text(alloc, signature),
            ServerFinal::Fault(error) => {
                let mut text = Octets::of(alloc, b"e=")?;
                text.extend(error.value.bytes())?;
                Ok(text)
            }
        }
    }
}

/// The message that has the signature.
fn signature_text(alloc: Global, signature: &[u8; DIGEST_LENGTH]) -> Result<Octets, OutOfMemory>
    ensures text { IfOk result (λ t. t ≡ server_final_text (signed signature.now)) }
    ensures spells { IfOk result (λ t. SpellsServerFinal t (signed signature.now)) }
{
    let mut text = Octets::of(alloc, b"v=")?;
    push_base64(alloc, &mut text, signature)?;
    Ok(text)
}
