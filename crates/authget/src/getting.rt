//! The requests for one URL.
ghost use Rattle.std.specs.Prelude.{◌≡◌, Err, OnOk};
ghost use Rattle.authget.specs.Exchanges.{GetsSo};
ghost use Rattle.authget.specs.Outside.{HasSameFaults, SomeRose, dial_of, outside, views};
ghost use Rattle.authget.specs.Requests.{HasTarget};

use crate::asking::ask;
use crate::end::End;
use crate::plan::Plan;
use crate::stop::Stop;
use auth_io::{Clock, Dial, Words};
use client_core::Client;
use std::alloc::Global;

/// How many requests a URL may take.
const REQUEST_LIMIT: u32 = 8;

/// Makes the requests for a URL. Where the last of them is to be made again, it counts as refused.
pub(crate) fn get<N: Dial, C: Clock, W: Words>(
    alloc: Global,
    plan: &Plan,
    client: &mut Client,
    url: &[u8],
    dial: &mut N,
    clock: &mut C,
    random: &mut W,
) -> Result<End, Stop>
    requires { HasTarget plan.now url.now }
    ensures gets { let at = outside (views (dial_of N.dialled N.coming N.handed N.faults N.link_faults) C.shown W.drawn W.faults) in
        GetsSo plan.now url.now client.old client.new (at dial.old clock.old random.old) (at dial.new clock.new random.new) result }
    ensures kept { let at = outside (views (dial_of N.dialled N.coming N.handed N.faults N.link_faults) C.shown W.drawn W.faults) in
        OnOk result (HasSameFaults (at dial.old clock.old random.old) (at dial.new clock.new random.new)) }
    ensures fault { let at = outside (views (dial_of N.dialled N.coming N.handed N.faults N.link_faults) C.shown W.drawn W.faults) in
        result ≡ Err Stop.Fault → SomeRose (at dial.old clock.old random.old) (at dial.new clock.new random.new) }
{
    for made in 0..REQUEST_LIMIT {
        if let Some(end) = ask(alloc, plan, client, url, dial, clock, random)? {
            return Ok(end);
        }
    }
    Ok(End::Refused)
}
