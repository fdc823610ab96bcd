//! The parts of a server's first message.
ghost use Rattle.std.specs.Prelude.{◌≤◌, length, IfErr, IfOk};
ghost use Rattle.scram_text.specs.Reaching.{Halts};
ghost use Rattle.scram_text.specs.ServerFirsts.{CutsServerFirst, IsServerFirstText};

use crate::attribute::Attribute;
use crate::parts::{last_part, next_part};

/// The nonce, the salt and the count as they are written.
pub(crate) fn server_first_parts(text: &[u8]) -> Result<(&[u8], &[u8], &[u8]), usize>
    ensures ok { IfOk result (λ found. CutsServerFirst text.now found.0.now found.1.now found.2.now) }
    ensures err { IfErr result (λ at. Halts IsServerFirstText text.now at) }
    ensures within { IfErr result (λ at. at ≤ length text.now) }
{
    let (nonce, rest) = match next_part(Attribute::Nonce, text) {
        Ok(found) => found,
        Err(at) => return Err(at),
    };
    let (salt, last) = match next_part(Attribute::Salt, rest) {
        Ok(found) => found,
        Err(at) => return Err(text.len() - rest.len() + at),
    };
    match last_part(Attribute::Count, last) {
        Ok(count) => Ok((nonce, salt, count)),
        Err(at) => Err(text.len() - rest.len() + (rest.len() - last.len() + at)),
    }
}
