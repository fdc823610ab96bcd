//! What no clause says: that a connection is served at all with ample memory, and how an error is shown.
use crate::{End, RespondError, Responder, Response, ServeError, Served, drive};
use auth_grammar::Octets;
use auth_io::{MemClock, MemLink};
use http_wire::Request;
use std::alloc::Global;
use std::process::Abort;
use std::test::Fail;

/// Answers each request by its target, and admits the last.
#[derive(Drop)]
struct Echo;

impl Responder for Echo {
    ghost use Rattle.std.proofs.Common.{◌≡◌, ◌∙◌, [], ◌++◌, refl, ap};
    ghost use Rattle.connection_loop.specs.Machine.{Says};

    type State = ();

    type Ask = ();

    type Event = ();

    ghost machine = { record { asked = λ state incoming done. Says (record { text = incoming.request.target; admitted = incoming.last }) state; ask_of = λ event. event } };

    ghost state = { λ _. tt };

    ghost passed = { λ a b events. events ≡ [] };

    ghost lacked = { λ a b lack ask. ⊥ };

    ghost failed_draws = { λ _. 0 };

    fn respond(
        &mut self,
        _alloc: Global,
        request: &Request,
        last: bool,
        _moment: u64,
    ) -> Result<Response, RespondError> {
        match request.target.copy() {
            Ok(text) => Ok(Response {
                text,
                admitted: last,
            }),
            Err(_) => Err(RespondError::OutOfMemory),
        }
    }

    ghost passed_none = { λ a. refl };

    ghost passed_join = { λ a b c xs ys p q. ap (λ events. events ++ ys) p ∙ q };

    ghost lacked_later = { λ a b c xs p lack ask q. q };
}

/// Serves this input, in pieces of 7, 1 and 7 bytes and then the rest, and checks what was written.
fn serve(
    rt: &impl Abort,
    alloc: Global,
    input: &[u8],
    wanted: &[u8],
) -> Result<Result<Served, ServeError>, Fail> {
    let input = Octets::of(alloc, input)?;
    let (pieces, takes) = (vec![in alloc; 7, 1, 7]?, vec![in alloc; 3]?);
    let (failing_reads, failing_writes) = (vec![in alloc]?, vec![in alloc]?);
    let mut link = MemLink::new(
        alloc,
        input,
        pieces,
        takes,
        failing_reads,
        failing_writes,
        9,
    )?;
    let mut clock = MemClock::new(vec![in alloc; 0]?);
    let result = drive(alloc, &mut link, &mut clock, &mut Echo);
    assert_eq!(rt; link.written(), wanted);
    Ok(result)
}

fn ended(requests: u32, admitted: u32, end: End) -> Result<Served, ServeError> {
    Ok(Served {
        requests,
        admitted,
        end,
    })
}

#[test]
fn answers_in_order_to_each_end(rt: HostRuntime) -> Result<(), Fail> {
    let two = b"GET /a HTTP/1.1\r\nHost: h\r\n\r\nGET /b HTTP/1.1\r\nHost: h\r\n\r\n";
    assert_eq!(rt;
        serve(&rt, rt.alloc(), two, b"/a/b")?,
        ended(2, 0, End::Ended)
    );
    let closing = b"GET /a HTTP/1.0\r\n\r\nGET /b HTTP/1.1\r\n";
    assert_eq!(rt;
        serve(&rt, rt.alloc(), closing, b"/a")?,
        ended(1, 1, End::CloseAsked)
    );
    let expecting =
        b"PUT /a HTTP/1.1\r\nHost: h\r\nContent-Length: 2\r\nExpect: 100-continue\r\n\r\nhi";
    assert_eq!(rt;
        serve(
            &rt,
            rt.alloc(),
            expecting,
            b"HTTP/1.1 100 Continue\r\n\r\n/a"
        )?,
        ended(1, 0, End::Ended)
    );
    assert_eq!(rt;
        serve(&rt, rt.alloc(), b"\r\n\n", b"")?,
        ended(0, 0, End::Ended)
    );
    Ok(())
}

#[test]
fn answers_a_bad_message_by_its_status(rt: HostRuntime) -> Result<(), Fail> {
    let text =
        b"HTTP/1.1 400 Bad Request\r\nDate: Thu, 01 Jan 1970 00:00:00 GMT\r\nContent-Length: 12\r\nConnection: close\r\n\r\nBad Request\n";
    assert_eq!(rt;
        serve(&rt, rt.alloc(), b"GET /\r\n\r\n", text)?,
        ended(0, 0, End::BadMessage)
    );
    let cut = b"GET /a HTTP/1.1\r\nHost: h\r\n\r\nGET /b";
    assert_eq!(rt;
        serve(&rt, rt.alloc(), cut, b"/a")?,
        Err(ServeError::Truncated { at: 28 })
    );
    Ok(())
}

#[test]
fn a_fault_is_shown_by_its_name(rt: HostRuntime) -> Result<(), Fail> {
    let shown = format!(in rt.alloc(); "{}", ServeError::Truncated { at: 3 })?;
    assert_eq!(rt; shown.as_str(), "Truncated");
    Ok(())
}
