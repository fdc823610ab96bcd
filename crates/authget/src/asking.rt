//! One request, from its credentials to what the reply means.
ghost use Rattle.std.specs.Prelude.{◌≡◌, Err, IfOk, OnOk};
ghost use Rattle.authget.specs.Exchanges.{Asks};
ghost use Rattle.authget.specs.Fetched.{Hears};
ghost use Rattle.authget.specs.Outside.{HasSameFaults, SomeRose, dial_of, outside, views};
ghost use Rattle.authget.specs.Requests.{HasTarget};

use crate::end::End;
use crate::exchange::exchange;
use crate::plan::Plan;
use crate::stop::Stop;
use auth_grammar::OutOfMemory;
use auth_io::{Clock, Dial, Words};
use client_core::{Client, OutRequest, Sent};
use http_wire::Response;
use std::alloc::Global;

/// What a reply means for the URL, or None where it is asked for again.
fn hear(
    client: &mut Client,
    request: &OutRequest,
    sent: &Sent,
    reply: Option<Response>,
    moment: u64,
) -> Result<Option<End>, OutOfMemory>
    ensures { IfOk result (λ how. Hears client.old request.now sent.now reply moment how client.new) }
{
    let Some(response) = reply else {
        return Ok(Some(End::Malformed));
    };
    let outcome = client.on_response(request, sent, &response, moment)?;
    Ok(End::by(outcome, response))
}

/// Makes one request for a URL: with one moment, one draw, and one connection.
pub(crate) fn ask<N: Dial, C: Clock, W: Words>(
    alloc: Global,
    plan: &Plan,
    client: &mut Client,
    url: &[u8],
    dial: &mut N,
    clock: &mut C,
    random: &mut W,
) -> Result<Option<End>, Stop>
    requires { HasTarget plan.now url.now }
    ensures asks { let at = outside (views (dial_of N.dialled N.coming N.handed N.faults N.link_faults) C.shown W.drawn W.faults) in
        Asks plan.now url.now client.old client.new (at dial.old clock.old random.old) (at dial.new clock.new random.new) result }
    ensures kept { let at = outside (views (dial_of N.dialled N.coming N.handed N.faults N.link_faults) C.shown W.drawn W.faults) in
        OnOk result (HasSameFaults (at dial.old clock.old random.old) (at dial.new clock.new random.new)) }
    ensures fault { let at = outside (views (dial_of N.dialled N.coming N.handed N.faults N.link_faults) C.shown W.drawn W.faults) in
        result ≡ Err Stop.Fault → SomeRose (at dial.old clock.old random.old) (at dial.new clock.new random.new) }
{
    let request = plan.request(alloc, url)?;
    let moment = clock.now();
    let Ok(words) = random.draw() else {
        return Err(Stop::Fault);
    };
    let sent = client.credentials_for(&request, moment, &words)?;
    let text = plan.text(alloc, url, &sent)?;
    let reply = exchange(alloc, dial, plan.peer(), text.bytes())?;
    Ok(hear(client, &request, &sent, reply, moment)?)
}
