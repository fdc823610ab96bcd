//! What a server's last message says.
ghost use Rattle.std.specs.Prelude.{◌<◌, ◌^◌, length};
ghost use Rattle.scram_text.specs.ServerFinalAnswers.{AnswersServerFinal};

use crate::attribute::Attribute;
use crate::base64_texts::digest_of;
use crate::bytes::farther;
use crate::error::ScramError;
use crate::parts::last_part;
use crate::server_final::{ServerError, ServerFinal};
use auth_grammar::Octets;
use std::alloc::Global;

/// The message that the text is, or how far it goes on as one.
pub(crate) fn said_by(alloc: Global, text: &[u8]) -> Result<ServerFinal, ScramError>
    requires { length text.now < 2 ^ 32 }
    ensures { AnswersServerFinal text.now result }
{
    let signed = match last_part(Attribute::Signature, text) {
        Ok(signature) => return Ok(ServerFinal::Signature(digest_of(alloc, signature)?)),
        Err(at) => at,
    };
    match last_part(Attribute::Fault, text) {
        Ok(value) => Ok(ServerFinal::Fault(ServerError {
            value: Octets::of(alloc, value)?,
        })),
        Err(failed) => Err(ScramError::NotMessage {
            at: farther(signed, failed) as u32,
        }),
    }
}
