//! One exchange.
ghost use Rattle.std.specs.Prelude.{IfOk};
ghost use Rattle.dial_exchange.specs.Dials.{dial_state};
ghost use Rattle.dial_exchange.specs.Exchanges.{IsFineReception};
ghost use Rattle.dial_exchange.specs.Talking.{Exchanges, Talks, talk_state};

use crate::events::{Outgoing, Reception};
use crate::reading::receive;
use auth_grammar::OutOfMemory;
use auth_io::{Dial, DialFault, Link, WriteError, send_all};
use std::alloc::Global;

/// Sends a request, and reads its response.
fn talk<L: Link>(alloc: Global, link: &mut L, outgoing: &Outgoing) -> Result<Reception, OutOfMemory>
    ensures { let at = talk_state L.left L.written L.read_faults L.write_faults in
        Talks outgoing.now (at link.old) (at link.new) result }
{
    match send_all(link, outgoing.text.bytes()) {
        Ok(()) => receive(alloc, link, outgoing.to_head),
        Err(WriteError::Failed) => Ok(Reception::Failed),
        Err(WriteError::OutOfMemory) => Err(OutOfMemory),
    }
}

/// Dials the authority of a request, sends it, reads its response, and gives the connection back.
#[tactic(auto, using(crate::proofs::Dials::exchanges_fine))]
pub fn make_exchange<D: Dial>(
    alloc: Global,
    dial: &mut D,
    outgoing: &Outgoing,
) -> Result<Reception, OutOfMemory>
    ensures exchanges { let at = dial_state D.dialled D.coming D.handed D.faults D.link_faults in
        Exchanges outgoing.now (at dial.old) (at dial.new) result }
    ensures fine { IfOk result IsFineReception }
{
    let mut link = match dial.dial(outgoing.authority.bytes()) {
        Ok(link) => link,
        Err(DialFault::Failed) => return Ok(Reception::Failed),
        Err(DialFault::OutOfMemory) => return Err(OutOfMemory),
    };
    let reception = talk(alloc, &mut link, outgoing);
    dial.done(link);
    reception
}
