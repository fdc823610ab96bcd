//! What a client hears of the server's answer.
ghost use Rattle.std.specs.Prelude.{◌≡◌, OnOk, OnErr};
ghost use Rattle.auth_decide.specs.declared.verdict.Ask.TheVariants as ask;
ghost use Rattle.auth_grammar.specs.declared.items.Role.TheVariants.{Origin};
ghost use Rattle.drill.specs.Steps.{Takes};
ghost use Rattle.drill.specs.World.{answered, told};

use crate::requests::{out_request, response_with};
use auth_decide::Verdict;
use auth_grammar::{ItemList, OutOfMemory};
use client_core::{Client, Sent};
use http_wire::Response;
use std::alloc::Global;

/// The client hears the answer to a request without credentials.
pub(crate) fn hear(
    alloc: Global,
    client: &mut Client,
    verdict: &Verdict,
    moment: u64,
) -> Result<(), OutOfMemory>
    requires { client.old.role ≡ Origin }
    ensures ok { OnOk result (client.new ≡ answered client.old moment (ask.Verdict verdict.now)) }
    ensures err { OnErr result (client.new ≡ client.old) }
{
    match verdict {
        Verdict::Challenge { items } => tell(alloc, client, items, moment),
        _ => Ok(()),
    }
}

/// The client is challenged.
fn tell(
    alloc: Global,
    client: &mut Client,
    items: &ItemList,
    moment: u64,
) -> Result<(), OutOfMemory>
    requires { client.old.role ≡ Origin }
    ensures ok { OnOk result (client.new ≡ told client.old moment items.now) }
    ensures err { OnErr result (client.new ≡ client.old) }
{
    match response_with(alloc, items)? {
        Some(response) => take(alloc, client, &response, moment),
        None => Ok(()),
    }
}

/// The client takes a response to its request without credentials.
fn take(
    alloc: Global,
    client: &mut Client,
    response: &Response,
    moment: u64,
) -> Result<(), OutOfMemory>
    ensures ok { OnOk result (Takes client.old client.new response.now moment) }
    ensures err { OnErr result (client.new ≡ client.old) }
{
    let request = out_request(alloc)?;
    let outcome = client.on_response(&request, &Sent::Nothing, response, moment)?;
    drop(outcome);
    Ok(())
}
