//! The head of a response, checked.
ghost use Rattle.std.specs.Prelude.{◌≡◌, ◌≤◌, length, IfOk, Some};
ghost use Rattle.http_wire.specs.Lines.{line_feeds};
ghost use Rattle.http_wire.specs.HeadPlace.{head_len};
ghost use Rattle.http_wire.specs.ResponseChecks.{judge_response};
ghost use Rattle.http_wire.specs.ParsedResponse.{FindsResponseHead};
ghost use Rattle.http_wire.specs.declared.front.TheConstants.{FIELD_LIMIT, HEAD_LIMIT, LINE_LIMIT};

use crate::fields::Fields;
use crate::front::{FIELD_LIMIT, LINE_LIMIT};
use crate::request_head::count_lines;
use crate::response_checks::{JudgedResponse, check_response};
use auth_grammar::OutOfMemory;
use httparse::Status;
use httparse::spans::{EMPTY_HEADER_SPAN, HeaderSpan, ResponseSpans, parse_response};
use std::alloc::Global;

/// The spans of the head that the text is, if it is one.
fn parse(text: &[u8], headers: &mut [HeaderSpan]) -> Option<ResponseSpans>
    requires room { length headers.old ≡ FIELD_LIMIT }
    requires whole { head_len text.now ≡ Some (length text.now) }
    requires few { line_feeds text.now ≤ LINE_LIMIT }
    ensures { FindsResponseHead text.now headers.new result }
{
    match parse_response(text, headers) {
        Ok(Status::Complete(head)) => {
            if head.len == text.len() {
                Some(head)
            } else {
                None
            }
        }
        Ok(Status::Partial) => None,
        Err(_) => None,
    }
}

/// Checks the text of a head.
pub(crate) fn judge_response_text(
    alloc: Global,
    to_head: bool,
    text: &[u8],
) -> Result<JudgedResponse, OutOfMemory>
    requires whole { head_len text.now ≡ Some (length text.now) }
    requires short { length text.now ≤ HEAD_LIMIT }
    ensures { IfOk result (λ judged. judged ≡ judge_response to_head text.now) }
{
    if count_lines(text) > LINE_LIMIT {
        return Ok(JudgedResponse::Faulty);
    }
    let mut headers = [EMPTY_HEADER_SPAN; FIELD_LIMIT];
    let Some(head) = parse(text, &mut headers) else {
        return Ok(JudgedResponse::Faulty);
    };
    match Fields::read(alloc, text, &headers[..head.headers])? {
        Some(fields) => Ok(check_response(alloc, to_head, head.code, fields)),
        None => Ok(JudgedResponse::Faulty),
    }
}
