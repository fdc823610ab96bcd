//! All of the program.
ghost use Rattle.std.specs.Prelude.{◌≡◌, ◌≢◌, Err, IfOk, Some, map, string_bytes};
ghost use Rattle.authget.specs.Endings.{Does, Ending, ForClient, Performs, SomeCountRose, TellsUsage, scene, status_of, world};
ghost use Rattle.authget.specs.Outside.{dial_of, outside, views};
ghost use Rattle.authget.specs.Telling.{heard};
ghost use Rattle.authget.specs.Words.{asked_for};

use crate::fetching::fetch_all;
use crate::password::read_line;
use crate::plan::Plan;
use crate::stop::Stop;
use crate::telling::tell;
use crate::words::asked_for;
use auth_grammar::OutOfMemory;
use auth_io::{Clock, Dial, Sink, Source, Words};
use client_core::{Client, ClientError};
use std::alloc::Global;

/// What is told where the words, the name or the password are refused.
const USAGE: &[u8; 46] = b"usage: authget [--proxy=HOST:PORT] NAME URL..\n";

/// The status of that.
const REFUSED: u8 = 5;

/// The client of a user with this password, or None where the name or the password is refused.
fn client_of(alloc: Global, plan: &Plan, password: &[u8]) -> Result<Option<Client>, OutOfMemory>
    ensures { IfOk result (ForClient plan.now password.now) }
{
    match Client::new(alloc, plan.role(), plan.name.bytes(), password) {
        Ok(client) => Ok(Some(client)),
        Err(ClientError::BadName) => Ok(None),
        Err(ClientError::OutOfMemory) => Err(OutOfMemory),
    }
}

/// Does what the words ask for. None where they, the name or the password are refused.
fn perform<N: Dial, S: Source, O: Sink, D: Sink, C: Clock, W: Words>(
    alloc: Global,
    words: &[String],
    dial: &mut N,
    input: &mut S,
    output: &mut O,
    diag: &mut D,
    clock: &mut C,
    random: &mut W,
) -> Result<Option<u8>, Stop>
    ensures performs { let at = outside (views (dial_of N.dialled N.coming N.handed N.faults N.link_faults) C.shown W.drawn W.faults) in
        Performs (asked_for (map string_bytes words.now))
        (world (scene (at dial.old clock.old random.old) (O.written output.old) (heard D.written D.faults diag.old))
        (S.left input.old) (S.faults input.old) (O.faults output.old))
        (world (scene (at dial.new clock.new random.new) (O.written output.new) (heard D.written D.faults diag.new))
        (S.left input.new) (S.faults input.new) (O.faults output.new)) result }
    ensures known { IfOk result (λ status. status ≢ Some 6) }
    ensures fault { let at = outside (views (dial_of N.dialled N.coming N.handed N.faults N.link_faults) C.shown W.drawn W.faults) in
        result ≡ Err Stop.Fault → SomeCountRose
        (world (scene (at dial.old clock.old random.old) (O.written output.old) (heard D.written D.faults diag.old))
        (S.left input.old) (S.faults input.old) (O.faults output.old))
        (world (scene (at dial.new clock.new random.new) (O.written output.new) (heard D.written D.faults diag.new))
        (S.left input.new) (S.faults input.new) (O.faults output.new)) }
{
    let Some(plan) = asked_for(alloc, words)? else {
        return Ok(None);
    };
    let password = read_line(alloc, input)?;
    let Some(mut client) = client_of(alloc, &plan, password.bytes())? else {
        return Ok(None);
    };
    let status = fetch_all(alloc, &plan, &mut client, dial, output, diag, clock, random)?;
    Ok(Some(status))
}

/// Tells how the program is used, and answers the status of a refusal, or that memory failed.
fn refuse<D: Sink>(diag: &mut D) -> u8
    ensures { let at = heard D.written D.faults in TellsUsage (at diag.old) (at diag.new) result }
{
    match tell(diag, true, USAGE) {
        Ok(_) => REFUSED,
        Err(OutOfMemory) => Stop::OutOfMemory.status(),
    }
}

/// Fetches the URLs that the words name, over these objects, and answers the exit status. The words don't include the
/// program's name.
///
/// The statuses: 0 where the server has proved itself in each response, 1 where it has not in some, 2 where the credentials
/// are refused, 3 where a server's proof is wrong, 4 where a reply is malformed or cut short, 5 where the words, the name or
/// the password are refused, 6 where a call of the outside failed, 7 where there was no memory, 8 where nothing is offered
/// that the client answers. At 2, 3, 4 and 8 the URLs behind are not fetched.
pub fn fetch<N: Dial, S: Source, O: Sink, D: Sink, C: Clock, W: Words>(
    alloc: Global,
    words: &Vec<String>,
    dial: &mut N,
    input: &mut S,
    output: &mut O,
    diag: &mut D,
    clock: &mut C,
    random: &mut W,
) -> u8
    // What was written, told, dialled, sent, shown and drawn is what the words and the rounds give, with some ending.
    ensures does { let at = outside (views (dial_of N.dialled N.coming N.handed N.faults N.link_faults) C.shown W.drawn W.faults) in
        (ending : Ending) × (result ≡ status_of ending) × Does (asked_for (map string_bytes words.now.items))
        (world (scene (at dial.old clock.old random.old) (O.written output.old) (heard D.written D.faults diag.old))
        (S.left input.old) (S.faults input.old) (O.faults output.old))
        (world (scene (at dial.new clock.new random.new) (O.written output.new) (heard D.written D.faults diag.new))
        (S.left input.new) (S.faults input.new) (O.faults output.new)) ending }

    // No fault is answered without its cause, and diag's own are none.
    ensures fault { let at = outside (views (dial_of N.dialled N.coming N.handed N.faults N.link_faults) C.shown W.drawn W.faults) in
        result ≡ 6 → SomeCountRose
        (world (scene (at dial.old clock.old random.old) (O.written output.old) (heard D.written D.faults diag.old))
        (S.left input.old) (S.faults input.old) (O.faults output.old))
        (world (scene (at dial.new clock.new random.new) (O.written output.new) (heard D.written D.faults diag.new))
        (S.left input.new) (S.faults input.new) (O.faults output.new)) }
{
    match perform(
        alloc,
        words.as_slice(),
        dial,
        input,
        output,
        diag,
        clock,
        random,
    ) {
        Ok(done) => match done {
            Some(status) => status,
            None => refuse(diag),
        },
        Err(stop) => stop.status(),
    }
}
