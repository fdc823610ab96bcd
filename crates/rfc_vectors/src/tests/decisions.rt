//! What each kind of request asks of the random source and of the nonce table, and how it ends. The secret, the keys, the
//! responses and the proofs are those of Python's `hashlib` and `hmac`.
ghost use Rattle.std.specs.Prelude.{◌≡◌, IfOk};
ghost use Rattle.nonce_shard.specs.Replies.{CanAnswer};

use arrayvec::ArrayVec;
use auth_decide::{Ask, Decision, NEXT_NONCE_USES, Proof, Site, Verdict};
use auth_grammar::{Item, ItemList, Octets, Rest, Role, value_of};
use cred_store::Store;
use http_wire::{Next, Request, RequestFeed};
use nonce_shard::{Call, Exchange, ExchangeFlag, Reply, What};
use spaces_map::Spaces;
use std::alloc::Global;
use std::fmt::Write;
use std::process::Abort;
use std::test::Fail;

fn store_text() -> &'static [u8] {
    b"authstore 1\nMufasa:http-auth@example.org:sha-256:7987c64c30e25f1b74be53f966b49b90f2808aa92faf9a00262392d7b4794232\nuser:r:scram-sha-256:4096,W22ZaJ0SNY7soEsUEjb6gQ==,WG5d8oPm3OtcPnkdi4Uo7BkeZkBFzpcXkuLmtbsT4qY=,wfPLwcE6nTWhTAmQ7tl2KeoiWGPlZqQxSrmfPwDl2dU=\n"
}

fn spaces_text() -> &'static [u8] {
    b"authspaces 1\n/ required SHA-256 http-auth@example.org\n/sess required SHA-256-sess http-auth@example.org\n/opt optional SHA-256 http-auth@example.org\n/pub none\n/scram required SCRAM-SHA-256 r\n"
}

/// What the table says of the nonce and the count.
#[derive(Clone, Copy)]
enum Held {
    Fresh,
    /// Fresh, after so many uses that the next nonce is offered.
    FreshLate,
    Gone,
    Behind,
    Repeated,
    OtherSession,
    /// Already the first call finds nothing.
    Unheld,
}

/// In a line: what comes, its target, what the table says, what is asked and how it ends, and the lines of the request
/// with an `&` between each two. An item that is offered is counted, and `stale` told.
const ROWS: &str = r#"an open space | /pub/a | Fresh | open 0 | 
no credentials, which are optional | /opt | Fresh | draw issue open 1 | 
no credentials | /a | Fresh | draw issue challenge 1 | 
two lines | /a | Fresh | bad Credentials | Authorization: Basic a & Authorization: Basic a
out of grammar | /a | Fresh | bad Credentials | Authorization: Digest =x
another scheme | /a | Fresh | draw issue challenge 1 | Authorization: Basic YTpi
the count zero | /a | Fresh | bad Field | Authorization: Digest username="Mufasa", realm="http-auth@example.org", uri="/a", algorithm=SHA-256, nonce="AQAAAAAAAAAAAAAAAAAAAAAAAAAAAAAAAAAA", nc=00000000, cnonce="0a4f113b", qop=auth, response="2f66c50c7c87c3ebd2d511335c7f1da97438842bcfc2d3c8c3f526510b51b295"
another uri | /a | Fresh | bad Uri | Authorization: Digest username="Mufasa", realm="http-auth@example.org", uri="/b", algorithm=SHA-256, nonce="AQAAAAAAAAAAAAAAAAAAAAAAAAAAAAAAAAAA", nc=00000001, cnonce="0a4f113b", qop=auth, response="ea4b8e7a17d48d7012d78d3a661a9124a9d803c28bf03a42164b3c6f6bdaa947"
another realm | /a | Fresh | draw issue challenge 1 | Authorization: Digest username="Mufasa", realm="r", uri="/a", algorithm=SHA-256, nonce="AQAAAAAAAAAAAAAAAAAAAAAAAAAAAAAAAAAA", nc=00000001, cnonce="0a4f113b", qop=auth, response="02c4b2bcabf7552d65fd06be1fa6536b5937682b1e762d73eb46dc036041d59e"
a kind that is not offered | /a | Fresh | draw issue challenge 1 | Authorization: Digest username="Mufasa", realm="http-auth@example.org", uri="/a", algorithm=MD5, nonce="AQAAAAAAAAAAAAAAAAAAAAAAAAAAAAAAAAAA", nc=00000001, cnonce="0a4f113b", qop=auth, response="e70ba97d587dba490b8e3d8913f20403"
a quality that is not offered | /a | Fresh | draw issue challenge 1 | Authorization: Digest username="Mufasa", realm="http-auth@example.org", uri="/a", algorithm=SHA-256, nonce="AQAAAAAAAAAAAAAAAAAAAAAAAAAAAAAAAAAA", nc=00000001, cnonce="0a4f113b", qop=auth-int, response="e6c36de0c2f22b3ca347ecc24e7c683bbae572fce72a2acb7d144284a00f9d3e"
an unknown user | /a | Fresh | draw issue challenge 1 | Authorization: Digest username="Simba", realm="http-auth@example.org", uri="/a", algorithm=SHA-256, nonce="AQAAAAAAAAAAAAAAAAAAAAAAAAAAAAAAAAAA", nc=00000001, cnonce="0a4f113b", qop=auth, response="8f89573c3097c1a1c7a66a5cd38cad0dcc0097812a8b8004beddaabb80b8b670"
another nonce | /a | Fresh | draw issue challenge 1 stale | Authorization: Digest username="Mufasa", realm="http-auth@example.org", uri="/a", algorithm=SHA-256, nonce="n", nc=00000001, cnonce="0a4f113b", qop=auth, response="1146bac4ace0045c5dc4c7fe53acc9351d869df3217e298e28e235d327206efa"
a wrong response | /a | Fresh | draw issue challenge 1 | Authorization: Digest username="Mufasa", realm="http-auth@example.org", uri="/a", algorithm=SHA-256, nonce="AQAAAAAAAAAAAAAAAAAAAAAAAAAAAAAAAAAA", nc=00000001, cnonce="0a4f113b", qop=auth, response="0000000000000000000000000000000000000000000000000000000000000000"
a wrong response where credentials are optional | /opt | Fresh | draw issue challenge 1 | Authorization: Digest username="Mufasa", realm="http-auth@example.org", uri="/opt", algorithm=SHA-256, nonce="AQAAAAAAAAAAAAAAAAAAAAAAAAAAAAAAAAAA", nc=00000001, cnonce="0a4f113b", qop=auth, response="0000000000000000000000000000000000000000000000000000000000000000"
a fresh count | /a | Fresh | use admit Mufasa | Authorization: Digest username="Mufasa", realm="http-auth@example.org", uri="/a", algorithm=SHA-256, nonce="AQAAAAAAAAAAAAAAAAAAAAAAAAAAAAAAAAAA", nc=00000001, cnonce="0a4f113b", qop=auth, response="264b353664843e6f239f284670e4815b30d676e986a49df91362b5391f991e42"
a fresh count of a nonce that was used often | /a | FreshLate | use draw issue admit Mufasa next | Authorization: Digest username="Mufasa", realm="http-auth@example.org", uri="/a", algorithm=SHA-256, nonce="AQAAAAAAAAAAAAAAAAAAAAAAAAAAAAAAAAAA", nc=00000001, cnonce="0a4f113b", qop=auth, response="264b353664843e6f239f284670e4815b30d676e986a49df91362b5391f991e42"
a nonce that is gone | /a | Gone | use draw issue challenge 1 stale | Authorization: Digest username="Mufasa", realm="http-auth@example.org", uri="/a", algorithm=SHA-256, nonce="AQAAAAAAAAAAAAAAAAAAAAAAAAAAAAAAAAAA", nc=00000001, cnonce="0a4f113b", qop=auth, response="264b353664843e6f239f284670e4815b30d676e986a49df91362b5391f991e42"
a count behind | /a | Behind | use draw issue challenge 1 stale | Authorization: Digest username="Mufasa", realm="http-auth@example.org", uri="/a", algorithm=SHA-256, nonce="AQAAAAAAAAAAAAAAAAAAAAAAAAAAAAAAAAAA", nc=00000001, cnonce="0a4f113b", qop=auth, response="264b353664843e6f239f284670e4815b30d676e986a49df91362b5391f991e42"
a repeated count | /a | Repeated | use draw issue challenge 1 stale | Authorization: Digest username="Mufasa", realm="http-auth@example.org", uri="/a", algorithm=SHA-256, nonce="AQAAAAAAAAAAAAAAAAAAAAAAAAAAAAAAAAAA", nc=00000001, cnonce="0a4f113b", qop=auth, response="264b353664843e6f239f284670e4815b30d676e986a49df91362b5391f991e42"
a session | /sess | Fresh | peek use admit Mufasa | Authorization: Digest username="Mufasa", realm="http-auth@example.org", uri="/sess", algorithm=SHA-256-sess, nonce="AQAAAAAAAAAAAAAAAAAAAAAAAAAAAAAAAAAA", nc=00000001, cnonce="0a4f113b", qop=auth, response="c71c7075e73dfe836745300c6ff53fea6cbffcf81c1208065203597b75afa0a3"
a session of another prime | /sess | OtherSession | peek use draw issue challenge 1 | Authorization: Digest username="Mufasa", realm="http-auth@example.org", uri="/sess", algorithm=SHA-256-sess, nonce="AQAAAAAAAAAAAAAAAAAAAAAAAAAAAAAAAAAA", nc=00000001, cnonce="0a4f113b", qop=auth, response="c71c7075e73dfe836745300c6ff53fea6cbffcf81c1208065203597b75afa0a3"
a session whose nonce is gone | /sess | Unheld | peek draw issue challenge 1 stale | Authorization: Digest username="Mufasa", realm="http-auth@example.org", uri="/sess", algorithm=SHA-256-sess, nonce="AQAAAAAAAAAAAAAAAAAAAAAAAAAAAAAAAAAA", nc=00000001, cnonce="0a4f113b", qop=auth, response="c71c7075e73dfe836745300c6ff53fea6cbffcf81c1208065203597b75afa0a3"
a first message | /scram | Fresh | draw open continue | Authorization: SCRAM-SHA-256 data="biwsbj11c2VyLHI9ck9wck5HZndFYmVSV2diTkVrcU8="
a first message with the realm | /scram | Fresh | draw open continue | Authorization: SCRAM-SHA-256 realm="r", data="biwsbj11c2VyLHI9ck9wck5HZndFYmVSV2diTkVrcU8="
a first message with another realm | /scram | Fresh | draw issue challenge 1 | Authorization: SCRAM-SHA-256 realm="s", data="biwsbj11c2VyLHI9ck9wck5HZndFYmVSV2diTkVrcU8="
a first message of nobody | /scram | Fresh | draw issue challenge 1 | Authorization: SCRAM-SHA-256 data="biwsbj1ub2JvZHkscj1hYmM="
a first message where SCRAM is not offered | /a | Fresh | draw issue challenge 1 | Authorization: SCRAM-SHA-256 data="biwsbj11c2VyLHI9ck9wck5HZndFYmVSV2diTkVrcU8="
no data where SCRAM is not offered | /a | Fresh | draw issue challenge 1 | Authorization: SCRAM-SHA-256 realm="r"
no data | /scram | Fresh | bad Scram | Authorization: SCRAM-SHA-256 realm="r"
data that is no base64 | /scram | Fresh | bad Scram | Authorization: SCRAM-SHA-256 data="biw"
a first message with channel binding | /scram | Fresh | bad Scram | Authorization: SCRAM-SHA-256 data="cD10bHMtdW5pcXVlLCxuPXVzZXIscj1yT3ByTkdmd0ViZVJXZ2JORWtxTw=="
a last message without a sid | /scram | Fresh | draw issue challenge 1 | Authorization: SCRAM-SHA-256 data="Yz1iaXdz"
a last message out of form | /scram | Fresh | bad Scram | Authorization: SCRAM-SHA-256 sid="AgAAAAAAAAAAAAAAAAAAAAAAAAAAAAAAAAAA", data="biws"
a last message with a sid that is no name | /scram | Fresh | draw issue challenge 1 | Authorization: SCRAM-SHA-256 sid="x", data="Yz1iaXdzLHI9ck9wck5HZndFYmVSV2diTkVrcU9BZ0FBQUFBQUFBQUFBQUFBQUFBQUFBQUFBQUFBQUFBQUFBQUEscD1qYmdJYmtna1VXS09BQ1MyaU42TGRKZmh1Vi9iekZKblIwTHNwcjFNeXNFPQ=="
a last message | /scram | Fresh | take keep admit user | Authorization: SCRAM-SHA-256 sid="AgAAAAAAAAAAAAAAAAAAAAAAAAAAAAAAAAAA", data="Yz1iaXdzLHI9ck9wck5HZndFYmVSV2diTkVrcU9BZ0FBQUFBQUFBQUFBQUFBQUFBQUFBQUFBQUFBQUFBQUFBQUEscD1qYmdJYmtna1VXS09BQ1MyaU42TGRKZmh1Vi9iekZKblIwTHNwcjFNeXNFPQ=="
a last message of an exchange that is gone | /scram | Unheld | take draw issue challenge 1 | Authorization: SCRAM-SHA-256 sid="AgAAAAAAAAAAAAAAAAAAAAAAAAAAAAAAAAAA", data="Yz1iaXdzLHI9ck9wck5HZndFYmVSV2diTkVrcU9BZ0FBQUFBQUFBQUFBQUFBQUFBQUFBQUFBQUFBQUFBQUFBQUEscD1qYmdJYmtna1VXS09BQ1MyaU42TGRKZmh1Vi9iekZKblIwTHNwcjFNeXNFPQ=="
a wrong proof | /scram | Fresh | take draw issue challenge 1 | Authorization: SCRAM-SHA-256 sid="AgAAAAAAAAAAAAAAAAAAAAAAAAAAAAAAAAAA", data="Yz1iaXdzLHI9ck9wck5HZndFYmVSV2diTkVrcU9BZ0FBQUFBQUFBQUFBQUFBQUFBQUFBQUFBQUFBQUFBQUFBQUEscD1qYmdJYmtna1VXS09BQ1MyaU42TGRKZmh1Vi9iekZKblIwTHNwcjFNeXNBPQ=="
another flag | /scram | Fresh | take draw issue challenge 1 | Authorization: SCRAM-SHA-256 sid="AgAAAAAAAAAAAAAAAAAAAAAAAAAAAAAAAAAA", data="Yz1lU3dzLHI9ck9wck5HZndFYmVSV2diTkVrcU9BZ0FBQUFBQUFBQUFBQUFBQUFBQUFBQUFBQUFBQUFBQUFBQUEscD1Hb01CQTMydGFzRnF0Q1o2aE4vWXBIZ3UzMVVIWkl0c3Fia0g1aXp3SXVVPQ=="
a nonce that is the sid | /scram | Fresh | take draw issue challenge 1 | Authorization: SCRAM-SHA-256 sid="AgAAAAAAAAAAAAAAAAAAAAAAAAAAAAAAAAAA", data="Yz1iaXdzLHI9QWdBQUFBQUFBQUFBQUFBQUFBQUFBQUFBQUFBQUFBQUFBQUFBLHA9NEZqbDhQaFhWL0JCYkRqekJITk1qU0JjejZTaDJkam9FVmRUcU41WDhsVT0="
a nonce of another exchange and no count | /scram | Fresh | draw issue challenge 1 | Authorization: SCRAM-SHA-256 sid="AgAAAAAAAAAAAAAAAAAAAAAAAAAAAAAAAAAA", data="Yz1iaXdzLHI9ck9wck5HZndFYmVSV2diTkVrcU9BZ0FBQUFBQUFBQUFBQUVBQUFBQUFBQUFBQUFBQUFBQUFBQUEscD1GOVhlcUN3YWVEbmNQck5DQ0tRTlYveVEwOEcrUzZiZ1B5aGRJbG4wQmFJPQ=="
a session again | /scram | Fresh | recall use admit user | Authorization: SCRAM-SHA-256 sid="AgAAAAAAAAAAAAAAAAAAAAAAAAAAAAAAAAAA", data="Yz1iaXdzLHI9YWJjPT03QVFBQUFBQUFBQUFBQUFBQUFBQUFBQUFBQUFBQUFBQUFBQUFBLHA9V3NDQ1JPZTYwUTVhWURVbWc4bmIxVnFRM04wMWVia25wb0ZTN0lGczlNYz0="
a session again that is gone | /scram | Unheld | recall draw issue challenge 1 | Authorization: SCRAM-SHA-256 sid="AgAAAAAAAAAAAAAAAAAAAAAAAAAAAAAAAAAA", data="Yz1iaXdzLHI9YWJjPT03QVFBQUFBQUFBQUFBQUFBQUFBQUFBQUFBQUFBQUFBQUFBQUFBLHA9V3NDQ1JPZTYwUTVhWURVbWc4bmIxVnFRM04wMWVia25wb0ZTN0lGczlNYz0="
a session again with a wrong proof | /scram | Fresh | recall draw issue challenge 1 | Authorization: SCRAM-SHA-256 sid="AgAAAAAAAAAAAAAAAAAAAAAAAAAAAAAAAAAA", data="Yz1iaXdzLHI9YWJjPT03QVFBQUFBQUFBQUFBQUFBQUFBQUFBQUFBQUFBQUFBQUFBQUFBLHA9V3NDQ1JPZTYwUTVhWURVbWc4bmIxVnFRM04wMWVia25wb0ZTN0lGczlNWT0="
a session again by what is no name | /scram | Fresh | recall draw issue challenge 1 stale | Authorization: SCRAM-SHA-256 sid="AgAAAAAAAAAAAAAAAAAAAAAAAAAAAAAAAAAA", data="Yz1iaXdzLHI9YWJjPT03QlFBQUFBQUFBQUFBQUFBQUFBQUFBQUFBQUFBQUFBQUFBQUFBLHA9MFpOeVdsL3N5R0NEUHNXdTM2TjJaVy9IMkU5U1lHdDA2VGJ0QUc0c3Fmdz0="
a session again by an sr that is gone | /scram | Gone | recall use draw issue challenge 1 stale | Authorization: SCRAM-SHA-256 sid="AgAAAAAAAAAAAAAAAAAAAAAAAAAAAAAAAAAA", data="Yz1iaXdzLHI9YWJjPT03QVFBQUFBQUFBQUFBQUFBQUFBQUFBQUFBQUFBQUFBQUFBQUFBLHA9V3NDQ1JPZTYwUTVhWURVbWc4bmIxVnFRM04wMWVia25wb0ZTN0lGczlNYz0="
a session again with a count behind | /scram | Behind | recall use draw issue challenge 1 stale | Authorization: SCRAM-SHA-256 sid="AgAAAAAAAAAAAAAAAAAAAAAAAAAAAAAAAAAA", data="Yz1iaXdzLHI9YWJjPT03QVFBQUFBQUFBQUFBQUFBQUFBQUFBQUFBQUFBQUFBQUFBQUFBLHA9V3NDQ1JPZTYwUTVhWURVbWc4bmIxVnFRM04wMWVia25wb0ZTN0lGczlNYz0="
a session again with a repeated count | /scram | Repeated | recall use draw issue challenge 1 stale | Authorization: SCRAM-SHA-256 sid="AgAAAAAAAAAAAAAAAAAAAAAAAAAAAAAAAAAA", data="Yz1iaXdzLHI9YWJjPT03QVFBQUFBQUFBQUFBQUFBQUFBQUFBQUFBQUFBQUFBQUFBQUFBLHA9V3NDQ1JPZTYwUTVhWURVbWc4bmIxVnFRM04wMWVia25wb0ZTN0lGczlNYz0=""#;

impl Held {
    fn named(name: &str) -> Held {
        match name {
            "FreshLate" => Held::FreshLate,
            "Gone" => Held::Gone,
            "Behind" => Held::Behind,
            "Repeated" => Held::Repeated,
            "OtherSession" => Held::OtherSession,
            "Unheld" => Held::Unheld,
            _ => Held::Fresh,
        }
    }
}

fn request_of(alloc: Global, target: &str, lines: &str) -> Result<Request, Fail> {
    let mut text = Octets::of(alloc, b"GET ")?;
    text.extend(target.as_bytes())?;
    text.extend(b" HTTP/1.1\r\nHost: example.org\r\n")?;
    for line in lines.split(" & ").filter(|line| !line.is_empty()) {
        text.extend(line.as_bytes())?;
        text.extend(b"\r\n")?;
    }
    text.extend(b"\r\n")?;
    let mut feed = RequestFeed::new(alloc);
    if !feed.has_room(text.len()) {
        return Err("room")?;
    }
    feed.push(text.bytes())?;
    match feed.next() {
        Next::Message(request) => Ok(request),
        _ => Err("no message")?,
    }
}

fn fresh(uses: u32) -> Reply
    ensures { result ≡ Reply.Fresh uses }
{
    Reply::Fresh { uses }
}

/// The exchange of RFC 7677's example, as it began.
fn exchange() -> Exchange {
    let mut bare = ArrayVec::new();
    let _ = bare.try_extend_from_slice(b"n=user,r=rOprNGfwEbeRWgbNEkqO");
    Exchange {
        flag: ExchangeFlag::N,
        bare,
    }
}

/// The reply to a call, and its name.
fn answered(call: &Call, held: Held) -> Result<(Reply, &'static str), Fail>
    ensures { IfOk result (λ answer. CanAnswer answer.0 call.now.what) }
{
    match (&call.what, held) {
        (What::Issue { .. }, _) => Ok((Reply::Issued { serial: 0 }, " issue")),
        (What::Peek { .. }, Held::Unheld) => Ok((Reply::Gone, " peek")),
        (What::Peek { .. }, _) => Ok((Reply::Prime { prime: None }, " peek")),
        (What::Use { .. }, Held::Fresh) => Ok((fresh(NEXT_NONCE_USES - 1), " use")),
        (What::Use { .. }, Held::FreshLate) => Ok((fresh(NEXT_NONCE_USES), " use")),
        (What::Use { .. }, Held::Behind) => Ok((Reply::Behind { high: 200 }, " use")),
        (What::Use { .. }, Held::Repeated) => Ok((Reply::Repeated, " use")),
        (What::Use { .. }, Held::OtherSession) => Ok((Reply::OtherSession, " use")),
        (What::Use { .. }, _) => Ok((Reply::Gone, " use")),
        (What::Open { .. }, _) => Ok((Reply::Opened { serial: 0 }, " open")),
        (What::Take { .. }, Held::Unheld) => Ok((Reply::Gone, " take")),
        (What::Take { .. }, _) => Ok((
            Reply::Taken {
                exchange: exchange(),
            },
            " take",
        )),
        (What::Keep { .. }, _) => Ok((Reply::Kept, " keep")),
        (What::Recall { .. }, Held::Unheld) => Ok((Reply::Gone, " recall")),
        (What::Recall { .. }, _) => Ok((
            Reply::Session {
                exchange: exchange(),
            },
            " recall",
        )),
    }
}

/// Whether an item says `stale=true`.
fn is_stale(item: &Item) -> bool {
    match &item.rest {
        Rest::Params(params) => value_of(params.as_slice(), b"stale").is_some(),
        _ => false,
    }
}

fn tell_items(told: &mut String, name: &str, items: &ItemList) -> Result<(), Fail> {
    write!(told, " {name} {}", items.len())?;
    if items.as_slice().iter().any(|item| is_stale(item)) {
        told.push_str(" stale")?;
    }
    Ok(())
}

fn tell_verdict(told: &mut String, verdict: &Verdict) -> Result<(), Fail> {
    match verdict {
        Verdict::Admit { user, proof } => {
            told.push_str(" admit ")?;
            told.push_str(str::from_utf8(user.bytes())?)?;
            if let Proof::Digest { next: Some(_), .. } = proof {
                told.push_str(" next")?;
            }
            Ok(())
        }
        Verdict::Open { items } => tell_items(told, "open", items),
        Verdict::Challenge { items } => tell_items(told, "challenge", items),
        Verdict::Continue { .. } => Ok(told.push_str(" continue")?),
        Verdict::Bad { why } => Ok(write!(told, " bad {why:?}")?),
    }
}

/// What a decision asks for, and how it ends.
fn told(alloc: Global, site: &Site, request: &Request, held: Held) -> Result<String, Fail> {
    let mut told = String::new(alloc);
    let mut decision = Decision::start(alloc, Role::Origin, request, 0, site, 1)?;
    for _ in 0..5 {
        match decision.next(alloc)? {
            Ask::Draw => {
                told.push_str(" draw")?;
                decision.answer_words(&[0; 16]);
            }
            Ask::Table { call, .. } => {
                let (reply, name) = answered(&call, held)?;
                told.push_str(name)?;
                decision.answer(alloc, &reply)?;
            }
            Ask::Verdict(verdict) => {
                tell_verdict(&mut told, &verdict)?;
                return Ok(told);
            }
        }
    }
    Err("too many asks")?
}

fn check_row(rt: &impl Abort, alloc: Global, site: &Site, row: &str) -> Result<(), Fail> {
    let mut parts = row.split(" | ");
    let name = parts.next().ok_or("no name")?;
    let target = parts.next().ok_or("no target")?;
    let held = Held::named(parts.next().ok_or("no reply")?);
    let wanted = parts.next().ok_or("no end")?;
    let request = request_of(alloc, target, parts.next().ok_or("no lines")?)?;
    let told = told(alloc, site, &request, held)?;
    assert_eq!(rt; told.trim_start(), wanted, "for {name}");
    Ok(())
}

#[test]
fn each_step_asks_and_ends_as_it_should(rt: HostRuntime) -> Result<(), Fail> {
    let alloc = rt.alloc();
    let site = Site {
        store: Store::read(alloc, store_text())?,
        spaces: Spaces::read(alloc, spaces_text())?,
        root: Octets::of(alloc, b"www")?,
    };
    for row in ROWS.lines() {
        check_row(&rt, alloc, &site, row)?;
    }
    Ok(())
}
