//! The first message of a server, by its parts.
ghost use Rattle.std.specs.Prelude.{◌≤◌, length};
ghost use Rattle.scram_text.specs.ServerFirsts.{CutsServerFirst};
ghost use Rattle.scram_text.specs.ServerFirstAnswers.{AnswersServerFirst};
ghost use Rattle.scram_text.specs.declared.limits.TheConstants.{FIRST_LIMIT};

use crate::base64_texts::salt_of;
use crate::counts::count_of;
use crate::error::ScramError;
use crate::server_first::ServerFirst;
use auth_grammar::Octets;
use std::alloc::Global;

/// The message that the text is, of these parts as they are written.
pub(crate) fn message_of(
    alloc: Global,
    text: &[u8],
    nonce: &[u8],
    salt: &[u8],
    count: &[u8],
) -> Result<ServerFirst, ScramError>
    requires cuts { CutsServerFirst text.now nonce.now salt.now count.now }
    requires short { length text.now ≤ FIRST_LIMIT }
    ensures { AnswersServerFirst text.now result }
{
    let Some(i) = count_of(count) else {
        return Err(ScramError::OutOfMemory);
    };
    Ok(ServerFirst {
        nonce: Octets::of(alloc, nonce)?,
        salt: salt_of(alloc, salt)?,
        i,
        text: Octets::of(alloc, text)?,
    })
}
