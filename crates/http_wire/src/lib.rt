//! Messages of HTTP/1.1 on a connection (RFC 9112): how a stream of bytes is cut into requests
//! and into responses, and the texts of both.
#![tactic(auto)]

mod answer;
mod chunk_line;
mod fields;
mod front;
mod pair;
mod phase;
mod request;
mod request_checks;
mod request_feed;
mod request_head;
mod request_text;
mod response;
mod response_checks;
mod response_feed;
mod response_head;
mod response_stage;
mod response_step;
mod search;
mod streams;
mod text;
mod unread;
mod values;

pub use answer::{Answer, continue_text, status_body, write_answer};
pub use fields::Fields;
pub use pair::{Pair, PairList};
pub use request::{Next, Request};
pub use request_feed::RequestFeed;
pub use request_text::write_request;
pub use response::{NextResponse, Response};
pub use response_feed::ResponseFeed;
pub use streams::{requests_of, response_of};
pub use values::Values;

#[cfg(test)]
mod tests;
