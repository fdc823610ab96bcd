//! The last message of a client, by its parts.
ghost use Rattle.scram_text.specs.ClientFinals.{CutsClientFinal};
ghost use Rattle.scram_text.specs.ClientFinalAnswers.{AnswersClientFinal};

use crate::base64_texts::digest_of;
use crate::client_final::ClientFinal;
use crate::error::ScramError;
use crate::flag::bound_flag;
use auth_grammar::Octets;
use std::alloc::Global;

/// The message that the text is, of these parts as they are written.
pub(crate) fn message_of(
    alloc: Global,
    text: &[u8],
    binding: &[u8],
    nonce: &[u8],
    proof: &[u8],
) -> Result<ClientFinal, ScramError>
    requires { CutsClientFinal text.now binding.now nonce.now proof.now }
    ensures { AnswersClientFinal text.now result }
{
    let Some(flag) = bound_flag(binding) else {
        return Err(ScramError::OutOfMemory);
    };
    Ok(ClientFinal {
        flag,
        nonce: Octets::of(alloc, nonce)?,
        without: Octets::of(alloc, &text[..text.len() - proof.len() - 3])?,
        proof: digest_of(alloc, proof)?,
    })
}
