//! Fetching all URLs.
ghost use Rattle.std.specs.Prelude.{◌≡◌, ◌≢◌, ◌⊎◌, ◌≤◌, All, Err, IfOk, OnOk};
ghost use Rattle.auth_io.specs.Causes.{Rose};
ghost use Rattle.authget.specs.Endings.{FetchesSo, scene};
ghost use Rattle.authget.specs.Fetched.{line_for, proof_words, status_by, worse};
ghost use Rattle.authget.specs.Outside.{SomeRose, dial_of, outside, views};
ghost use Rattle.authget.specs.Requests.{HasTarget};
ghost use Rattle.authget.specs.Telling.{heard};
ghost use Rattle.authget.specs.Writings.{Puts};

use crate::end::End;
use crate::getting::get;
use crate::plan::Plan;
use crate::stop::Stop;
use crate::telling::tell;
use auth_grammar::{Octets, OutOfMemory};
use auth_io::{Clock, Dial, Sink, Words, write_all};
use client_core::Client;
use http_wire::Response;
use itoa::Buffer;
use std::alloc::Global;

/// What is told of a response.
fn line_for(
    alloc: Global,
    url: &[u8],
    proved: bool,
    response: &Response,
) -> Result<Octets, OutOfMemory>
    ensures { IfOk result (λ line. line ≡ line_for url.now proved response.now) }
{
    let mut buffer = Buffer::new();
    let mut line = Octets::of(alloc, url)?;
    line.push(b' ')?;
    line.extend(buffer.format(response.status).as_bytes())?;
    line.extend(proof_words(proved))?;
    Ok(line)
}

fn proof_words(proved: bool) -> &'static [u8]
    ensures { result.now ≡ proof_words proved }
{
    if proved { b" mutual\n" } else { b" one-way\n" }
}

/// Writes the body of a response, and tells it where nothing has failed on diag before. Whether nothing has failed yet.
fn put<O: Sink, D: Sink>(
    alloc: Global,
    url: &[u8],
    proved: bool,
    response: &Response,
    output: &mut O,
    diag: &mut D,
    on: bool,
) -> Result<bool, Stop>
    ensures puts { let at = heard D.written D.faults in
        Puts (O.written output.old) (O.written output.new) (at diag.old) (at diag.new) on response.now.body
        (line_for url.now proved response.now) result }
    ensures kept { OnOk result (O.faults output.new ≡ O.faults output.old) }
    ensures fault { result ≡ Err Stop.Fault → Rose (O.faults output.old) (O.faults output.new) }
{
    write_all(output, response.body.bytes())?;
    let line = line_for(alloc, url, proved, response)?;
    Ok(tell(diag, on, line.bytes())?)
}

/// The status behind one more response: 1 from the first on where the server hasn't proved itself.
fn status_after(status: u8, proved: bool) -> u8
    ensures status { result ≡ worse status (status_by proved) }
    ensures known { status ≤ 1 → result ≤ 1 }
{
    if proved { status } else { 1 }
}

/// Fetches all URLs, and answers the status: 0 where the server has proved itself each time, 1 where it has not, and else
/// that of the URL that ends all.
pub(crate) fn fetch_all<N: Dial, O: Sink, D: Sink, C: Clock, W: Words>(
    alloc: Global,
    plan: &Plan,
    client: &mut Client,
    dial: &mut N,
    output: &mut O,
    diag: &mut D,
    clock: &mut C,
    random: &mut W,
) -> Result<u8, Stop>
    requires { All (HasTarget plan.now) plan.now.urls }
    ensures fetches { let at = outside (views (dial_of N.dialled N.coming N.handed N.faults N.link_faults) C.shown W.drawn W.faults) in
        FetchesSo plan.now client.old (scene (at dial.old clock.old random.old) (O.written output.old) (heard D.written D.faults diag.old))
        (scene (at dial.new clock.new random.new) (O.written output.new) (heard D.written D.faults diag.new)) result }
    ensures known { IfOk result (λ status. status ≢ 6) }
    ensures fault { let at = outside (views (dial_of N.dialled N.coming N.handed N.faults N.link_faults) C.shown W.drawn W.faults) in
        result ≡ Err Stop.Fault →
        SomeRose (at dial.old clock.old random.old) (at dial.new clock.new random.new) ⊎ Rose (O.faults output.old) (O.faults output.new) }
{
    let mut status = 0;
    let mut on = true;
    for url in plan.urls.as_slice() {
        let url = url.bytes();
        match get(alloc, plan, client, url, dial, clock, random)? {
            End::Got { proved, response } => {
                on = put(alloc, url, proved, &response, output, diag, on)?;
                status = status_after(status, proved);
            }
            End::Refused => return Ok(2),
            End::WrongProof => return Ok(3),
            End::Malformed => return Ok(4),
            End::NoOffer => return Ok(8),
        }
    }
    Ok(status)
}
