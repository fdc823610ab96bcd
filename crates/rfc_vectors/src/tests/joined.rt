//! The client and the server together: what one writes, the other reads (RFC 7804 section 5, RFC 7616 section 3.4). Both
//! draw zeros alone. Each request has a connection of its own, and all of them one table.
ghost use Rattle.std.specs.Prelude.{◌≤◌, IfOk, length};

use super::exchanges::{files_of, site_of};
use auth_decide::Site;
use auth_grammar::{Item, ItemList, Octets, OutOfMemory, Quoting, Role, write_items};
use auth_io::{MemClock, MemLink, MemWords};
use client_core::{Client, OutRequest, Sent};
use http_wire::{NextResponse, Pair, PairList, Response, ResponseFeed, write_request};
use nonce_shard::{JournalTable, Sizes};
use origin_core::serve_connection;
use std::alloc::Global;
use std::fmt::Write;
use std::test::Fail;

/// A target, and for each of four requests for it the status of the response and what it means to the client: a whole
/// exchange of SCRAM-SHA-256 that is used again, the same where Digest is offered too, and Digest with the counts of one
/// nonce. Where there is no file the server proves itself all the same.
const ROWS: [(&str, &str); 3] = [
    ("/", "401 Retry\n401 Retry\n200 Mutual\n200 Mutual\n"),
    ("/both", "401 Retry\n401 Retry\n404 Mutual\n404 Mutual\n"),
    ("/digest", "401 Retry\n404 Mutual\n404 Mutual\n404 Mutual\n"),
];

fn request_of(alloc: Global, target: &str) -> Result<OutRequest, Fail>
    ensures { IfOk result (λ request. 1 ≤ length request.target) }
{
    if target.len() < 1 {
        return Err("no target")?;
    }
    Ok(OutRequest {
        method: Octets::of(alloc, b"GET")?,
        authority: Octets::of(alloc, b"example.org")?,
        target: Octets::of(alloc, target.as_bytes())?,
        body: Octets::new(alloc),
    })
}

fn item_of(sent: &Sent) -> Option<&Item> {
    match sent {
        Sent::Nothing => None,
        Sent::Digest(item)
        | Sent::ScramFirst(item)
        | Sent::ScramFinal(item)
        | Sent::ScramAgain(item) => Some(item),
    }
}

/// The lines of a request with these credentials.
fn lines_of(alloc: Global, sent: &Sent) -> Result<PairList, OutOfMemory> {
    let mut lines = PairList::new(alloc);
    if let Some(item) = item_of(sent) {
        let mut items = ItemList::new(alloc);
        items.push(item.clone()?)?;
        lines.push(Pair {
            name: Octets::of(alloc, b"Authorization")?,
            value: write_items(alloc, &items, Quoting::Credentials)?,
        })?;
    }
    Ok(lines)
}

/// What the server writes to these bytes, on a connection of their own.
fn served(
    alloc: Global,
    site: &Site,
    table: &mut JournalTable,
    input: Octets,
) -> Result<Octets, Fail> {
    let mut link = MemLink::new(
        alloc,
        input,
        vec![in alloc; 7]?,
        vec![in alloc; 5]?,
        vec![in alloc]?,
        vec![in alloc]?,
        999,
    )?;
    let mut files = files_of(alloc)?;
    let mut clock = MemClock::new(vec![in alloc; 0]?);
    let mut words = MemWords::new(vec![in alloc; [0; 16]]?, vec![in alloc]?);
    serve_connection(
        alloc, &mut link, &mut files, &mut clock, &mut words, table, site,
    )?;
    Ok(Octets::of(alloc, link.written())?)
}

fn response_in(alloc: Global, text: &[u8]) -> Result<Response, Fail> {
    let mut feed = ResponseFeed::new(alloc, false);
    if !feed.has_room(text.len()) {
        return Err("room")?;
    }
    feed.push(text)?;
    match feed.next() {
        NextResponse::Message(response) => Ok(response),
        _ => Err("no response")?,
    }
}

/// The server's response to the request with these credentials.
fn response_to(
    alloc: Global,
    site: &Site,
    table: &mut JournalTable,
    request: &OutRequest,
    sent: &Sent,
) -> Result<Response, Fail> {
    let lines = lines_of(alloc, sent)?;
    let target = request.target.bytes();
    let input = write_request(alloc, b"GET", target, b"example.org", &lines, b"")?;
    let output = served(alloc, site, table, input)?;
    response_in(alloc, output.bytes())
}

/// Makes the request, and tells the status of its response and what it means.
fn ask(
    alloc: Global,
    client: &mut Client,
    site: &Site,
    table: &mut JournalTable,
    request: &OutRequest,
    told: &mut String,
) -> Result<(), Fail>
    requires { 1 ≤ length request.now.target }
{
    let sent = client.credentials_for(request, 0, &[0; 16])?;
    let response = response_to(alloc, site, table, request, &sent)?;
    let outcome = client.on_response(request, &sent, &response, 0)?;
    Ok(writeln!(told, "{} {outcome:?}", response.status)?)
}

/// What four requests of one client come to.
fn told_of(alloc: Global, target: &str) -> Result<String, Fail> {
    let mut client = Client::new(alloc, Role::Origin, b"user", b"pencil")?;
    let site = site_of(alloc)?;
    let mut table = JournalTable::open(alloc, 64, &Sizes::single())?;
    let request = request_of(alloc, target)?;
    let mut told = String::new(alloc);
    for _ in 0..4 {
        ask(alloc, &mut client, &site, &mut table, &request, &mut told)?;
    }
    Ok(told)
}

#[test]
fn client_and_server_prove_themselves_to_each_other(rt: HostRuntime) -> Result<(), Fail> {
    for (target, wanted) in ROWS {
        let told = told_of(rt.alloc(), target)?;
        assert_eq!(rt; told.as_str(), wanted, "for {target}");
    }
    Ok(())
}
