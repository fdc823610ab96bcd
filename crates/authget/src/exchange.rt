//! A request on a connection of its own.
ghost use Rattle.std.specs.Prelude.{◌≡◌, ◌⊎◌, Err, OnOk};
ghost use Rattle.auth_io.specs.Causes.{Rose};
ghost use Rattle.authget.specs.Exchanges.{Exchanges, Talks};
ghost use Rattle.authget.specs.Outside.{DialRose, dial_of};

use crate::reply::read_reply;
use crate::stop::Stop;
use auth_io::{Dial, DialFault, Link, send_all};
use http_wire::Response;
use std::alloc::Global;

/// Sends the text of a request, and reads the reply.
fn converse<L: Link>(alloc: Global, link: &mut L, text: &[u8]) -> Result<Option<Response>, Stop>
    ensures talks { Talks (L.left link.old) (L.written link.old) (L.written link.new) text.now result }
    ensures read_kept { OnOk result (L.read_faults link.new ≡ L.read_faults link.old) }
    ensures write_kept { OnOk result (L.write_faults link.new ≡ L.write_faults link.old) }
    ensures fault { result ≡ Err Stop.Fault →
        Rose (L.read_faults link.old) (L.read_faults link.new) ⊎ Rose (L.write_faults link.old) (L.write_faults link.new) }
{
    send_all(link, text)?;
    read_reply(alloc, link)
}

/// Makes one request: dials the peer, sends the text, reads the reply, and gives the connection back.
pub(crate) fn exchange<N: Dial>(
    alloc: Global,
    dial: &mut N,
    peer: &[u8],
    text: &[u8],
) -> Result<Option<Response>, Stop>
    ensures exchanges { let at = dial_of N.dialled N.coming N.handed N.faults N.link_faults in
        Exchanges (at dial.old) (at dial.new) peer.now text.now result }
    ensures dial_kept { OnOk result (N.faults dial.new ≡ N.faults dial.old) }
    ensures link_kept { OnOk result (N.link_faults dial.new ≡ N.link_faults dial.old) }
    ensures fault { let at = dial_of N.dialled N.coming N.handed N.faults N.link_faults in
        result ≡ Err Stop.Fault → DialRose (at dial.old) (at dial.new) }
{
    let mut link = match dial.dial(peer) {
        Ok(link) => link,
        Err(DialFault::Failed) => return Err(Stop::Fault),
        Err(DialFault::OutOfMemory) => return Err(Stop::OutOfMemory),
    };
    let reply = converse(alloc, &mut link, text);
    dial.done(link);
    reply
}
