//! What the fields of a response say.
ghost use Rattle.std.specs.Prelude.{◌≡◌, IfOk};
ghost use Rattle.std.specs.List.{join_with_byte};
ghost use Rattle.auth_grammar.specs.RoleFields.{challenge_name, info_name};
ghost use Rattle.client_core.specs.Writings.{IsWritten};
ghost use Rattle.client_core.specs.Readings.{IsFew, Says, SaysInfo, SaysItems, challenge_status, is_provable, lines_of};

use crate::request::Sent;
use auth_grammar::{
    GrammarError, ItemList, OctetsList, OutOfMemory, ParamList, Role, read_challenges, read_params,
};
use http_wire::Response;
use std::alloc::Global;

/// What the fields of a response say of authentication.
#[derive(Drop)]
pub(crate) enum Said {
    /// It is a challenge, of these items.
    Challenge(ItemList),
    /// It is no challenge, and the server says these of what was sent.
    Info(ParamList),
    /// It is no challenge, and the server says nothing of what was sent.
    Nothing,
    /// The field is out of grammar at that byte, or a name comes twice there in one item.
    Malformed { at: u32 },
}

/// The status of a challenge (RFC 9110 sections 15.5.2 and 15.5.8).
fn challenge_status(role: Role) -> u16
    ensures { result ≡ challenge_status role }
{
    match role {
        Role::Origin => 401,
        Role::Proxy => 407,
    }
}

/// What the lines of the field with the challenges say.
fn read_items(alloc: Global, lines: &OctetsList) -> Result<Said, OutOfMemory>
    ensures says { IfOk result (λ said. SaysItems (join_with_byte 44 lines.now) said) }
    ensures few { IfOk result IsFew }
    ensures written { IfOk result IsWritten }
{
    match read_challenges(alloc, lines) {
        Ok(items) => {
            // A head has room for far fewer.
            if items.len() > u32::MAX as usize {
                return Err(OutOfMemory);
            }
            Ok(Said::Challenge(items))
        }
        Err(GrammarError::NotGrammar { at }) => Ok(Said::Malformed { at }),
        Err(GrammarError::Twice { at, .. }) => Ok(Said::Malformed { at }),
        Err(GrammarError::OutOfMemory) => Err(OutOfMemory),
    }
}

/// What the lines say in which a server proves itself.
fn read_info(alloc: Global, lines: &OctetsList) -> Result<Said, OutOfMemory>
    ensures says { IfOk result (λ said. SaysInfo lines.now said) }
    ensures few { IfOk result IsFew }
    ensures written { IfOk result IsWritten }
{
    if lines.is_empty() {
        return Ok(Said::Nothing);
    }
    match read_params(alloc, lines) {
        Ok(params) => Ok(Said::Info(params)),
        Err(GrammarError::NotGrammar { at }) => Ok(Said::Malformed { at }),
        Err(GrammarError::Twice { at, .. }) => Ok(Said::Malformed { at }),
        Err(GrammarError::OutOfMemory) => Err(OutOfMemory),
    }
}

/// Whether a server can prove itself in its answer to these credentials.
fn is_provable(sent: &Sent) -> bool
    ensures { result ≡ is_provable sent.now }
{
    match sent {
        Sent::Nothing | Sent::ScramFirst(_) => false,
        Sent::Digest(_) | Sent::ScramFinal(_) | Sent::ScramAgain(_) => true,
    }
}

/// What the challenges of a response say.
fn read_challenge(alloc: Global, role: Role, response: &Response) -> Result<Said, OutOfMemory>
    ensures says { IfOk result (λ said. SaysItems (join_with_byte 44 (lines_of response.now (challenge_name role))) said) }
    ensures few { IfOk result IsFew }
    ensures written { IfOk result IsWritten }
{
    let lines = response.fields.lines(alloc, role.challenge_name())?;
    read_items(alloc, &lines)
}

/// What a response says in which a server proves itself.
fn read_proof(alloc: Global, role: Role, response: &Response) -> Result<Said, OutOfMemory>
    ensures says { IfOk result (λ said. SaysInfo (lines_of response.now (info_name role)) said) }
    ensures few { IfOk result IsFew }
    ensures written { IfOk result IsWritten }
{
    let lines = response.fields.lines(alloc, role.info_name())?;
    read_info(alloc, &lines)
}

/// What the response says in answer to these credentials. A field is looked at only where it counts.
pub(crate) fn said_by(
    alloc: Global,
    role: Role,
    sent: &Sent,
    response: &Response,
) -> Result<Said, OutOfMemory>
    ensures says { IfOk result (λ said. Says role sent.now response.now said) }
    ensures few { IfOk result IsFew }
    ensures written { IfOk result IsWritten }
{
    if response.status == challenge_status(role) {
        return read_challenge(alloc, role, response);
    }
    if !is_provable(sent) {
        return Ok(Said::Nothing);
    }
    read_proof(alloc, role, response)
}
