//! The head of a request, checked.
ghost use Rattle.std.specs.Prelude.{◌≡◌, ◌≤◌, length, IfOk};
ghost use Rattle.http_wire.specs.Lines.{line_feeds};
ghost use Rattle.http_wire.specs.RequestChecks.{judge};
ghost use Rattle.http_wire.specs.ParsedRequest.{FindsHead};
ghost use Rattle.http_wire.specs.HeadPlace.{empty_line};
ghost use Rattle.http_wire.specs.declared.front.TheConstants.{FIELD_LIMIT, HEAD_LIMIT, LINE_LIMIT};

use crate::fields::Fields;
use crate::front::{FIELD_LIMIT, LINE_LIMIT};
use crate::request::Request;
use crate::request_checks::check_fields;
use auth_grammar::{Octets, OutOfMemory};
use httparse::Status;
use httparse::spans::{EMPTY_HEADER_SPAN, HeaderSpan, RequestSpans, parse_request};
use memchr::memchr_iter;
use std::alloc::Global;

/// A head without a fault, and what it says of the body.
#[derive(Drop)]
pub(crate) struct SoundHead {
    /// The request, without its body.
    pub request: Request,
    pub body_len: u32,
    /// Whether the client waits for a Continue before it sends the body.
    pub expects: bool,
}

/// A head, or the status that tells its first fault.
#[derive(Drop)]
pub(crate) enum Judged {
    Sound(SoundHead),
    Faulty(u16),
}

pub(crate) fn count_lines(text: &[u8]) -> usize
    ensures { result ≡ line_feeds text.now }
{
    let mut feeds = memchr_iter(b'\n', text);
    let mut count = 0;
    'feeds: while let Some(_) = feeds.next() {
        count += 1;
    }
    count
}

/// The spans of the head that the text is, if it is one.
fn parse(text: &[u8], headers: &mut [HeaderSpan]) -> Option<RequestSpans>
    requires room { length headers.old ≡ FIELD_LIMIT }
    requires no_blank { empty_line text.now ≡ 0 }
    requires few { line_feeds text.now ≤ LINE_LIMIT }
    ensures { FindsHead text.now headers.new result }
{
    match parse_request(text, headers) {
        Ok(Status::Complete(head)) => {
            if head.len == text.len() {
                Some(head)
            } else {
                None
            }
        }
        Ok(Status::Partial) => None,
        Err(_) => None,
    }
}

/// Checks the text of a head.
pub(crate) fn judge_text(alloc: Global, text: &[u8]) -> Result<Judged, OutOfMemory>
    requires no_blank { empty_line text.now ≡ 0 }
    requires short { length text.now ≤ HEAD_LIMIT }
    ensures { IfOk result (λ judged. judged ≡ judge text.now) }
{
    if count_lines(text) > LINE_LIMIT {
        return Ok(Judged::Faulty(431));
    }
    let mut headers = [EMPTY_HEADER_SPAN; FIELD_LIMIT];
    let Some(head) = parse(text, &mut headers) else {
        return Ok(Judged::Faulty(400));
    };
    let method = Octets::of(alloc, head.method.of(text))?;
    let target = Octets::of(alloc, head.path.of(text))?;
    match Fields::read(alloc, text, &headers[..head.headers])? {
        Some(fields) => Ok(check_fields(alloc, method, target, head.version, fields)),
        None => Ok(Judged::Faulty(400)),
    }
}
