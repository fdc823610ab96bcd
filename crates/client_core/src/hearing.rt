//! What the messages of SCRAM-SHA-256 in a response say.
ghost use Rattle.std.specs.Prelude.{◌≡◌, IfOk, drop, option_copied, option_map};
ghost use Rattle.client_core.specs.Hearings.{Hears, HearsFinal, HearsFirst, HearsIn, continued, message_in};

use crate::reading::Said;
use crate::request::Sent;
use auth_grammar::{Item, Octets, OutOfMemory, same_name, value_of};
use scram_text::{SCRAM_SCHEME, ScramError, ServerFinal, ServerFirst, read_base64};
use std::alloc::Global;

/// What a server's message says.
#[derive(Drop)]
pub(crate) enum Heard {
    /// No message counts here, or what counts is none.
    Nothing,
    First(ServerFirst),
    Final(ServerFinal),
}

/// The `sid` and the `data` of an item of SCRAM-SHA-256 that has both.
pub(crate) fn message_in(item: &Item) -> Option<(&Octets, &Octets)>
    ensures { option_map (λ found. (found.0.now, found.1.now)) result ≡ message_in item.now }
{
    if !same_name(item.scheme.bytes(), SCRAM_SCHEME) {
        return None;
    }
    let sid = value_of(item.rest.params(), b"sid")?;
    let data = value_of(item.rest.params(), b"data")?;
    Some((sid, data))
}

/// Those of the first item that has both.
pub(crate) fn continued(items: &[Item]) -> Option<(&Octets, &Octets)>
    ensures { option_map (λ found. (found.0.now, found.1.now)) result ≡ continued items.now }
{
    for item in items {
        if let Some(found) = message_in(item) {
            return Some(found);
        }
    }
    None
}

/// What the bytes say as the first message of a server.
fn read_first(alloc: Global, text: &[u8]) -> Result<Heard, OutOfMemory>
    ensures { IfOk result (λ heard. HearsFirst text.now heard) }
{
    match ServerFirst::read(alloc, text) {
        Ok(message) => Ok(Heard::First(message)),
        Err(ScramError::OutOfMemory) => Err(OutOfMemory),
        Err(_) => Ok(Heard::Nothing),
    }
}

/// What the bytes say as the last message of a server.
fn read_final(alloc: Global, text: &[u8]) -> Result<Heard, OutOfMemory>
    ensures { IfOk result (λ heard. HearsFinal text.now heard) }
{
    match ServerFinal::read(alloc, text) {
        Ok(message) => Ok(Heard::Final(message)),
        Err(ScramError::OutOfMemory) => Err(OutOfMemory),
        Err(_) => Ok(Heard::Nothing),
    }
}

/// What the `data` says as the first message of a server, where it is there.
fn hear_first(alloc: Global, found: Option<&Octets>) -> Result<Heard, OutOfMemory>
    ensures { IfOk result (λ heard. HearsIn HearsFirst (option_copied found.entry) heard) }
{
    let Some(message) = found else {
        return Ok(Heard::Nothing);
    };
    match read_base64(alloc, message.bytes())? {
        Some(text) => read_first(alloc, text.bytes()),
        None => Ok(Heard::Nothing),
    }
}

/// What the `data` says as the last message of a server, where it is there.
fn hear_final(alloc: Global, found: Option<&Octets>) -> Result<Heard, OutOfMemory>
    ensures { IfOk result (λ heard. HearsIn HearsFinal (option_copied found.entry) heard) }
{
    let Some(message) = found else {
        return Ok(Heard::Nothing);
    };
    match read_base64(alloc, message.bytes())? {
        Some(text) => read_final(alloc, text.bytes()),
        None => Ok(Heard::Nothing),
    }
}

/// What the message says that counts in answer to these credentials.
pub(crate) fn heard_in(alloc: Global, sent: &Sent, said: &Said) -> Result<Heard, OutOfMemory>
    ensures { IfOk result (λ heard. Hears sent.now said.now heard) }
{
    match (sent, said) {
        (Sent::ScramFirst(_), Said::Challenge(items)) => {
            hear_first(alloc, continued(items.as_slice()).map(|found| found.1))
        }
        (Sent::ScramFinal(_) | Sent::ScramAgain(_), Said::Info(params)) => {
            hear_final(alloc, value_of(params.as_slice(), b"data"))
        }
        _ => Ok(Heard::Nothing),
    }
}
