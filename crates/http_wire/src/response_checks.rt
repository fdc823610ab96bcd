//! The checks of a response's head, and where its body ends (RFC 9112 section 6.3).
ghost use Rattle.std.specs.Prelude.{◌≡◌, codes, true};
ghost use Rattle.http_wire.specs.Fields.{values_of};
ghost use Rattle.http_wire.specs.Values.{are_lengths, first_number};
ghost use Rattle.http_wire.specs.ResponseChecks.{is_other_coding, sized, framing_of, judge_response_fields};

use crate::fields::Fields;
use crate::request_checks::{has_sound_length, is_absent};
use crate::response::Response;
use crate::values::{Values, number};
use auth_grammar::{Octets, same_name};
use std::alloc::Global;

/// The most bytes of a response's body.
pub const RESPONSE_LIMIT: u32 = 16_777_216;

/// How the end of a body is known.
#[derive(Clone, Copy)]
pub(crate) enum Framing {
    Sized(u32),
    /// It is told to be longer than a body may be.
    TooLong,
    Chunked,
    UntilEnd,
}

/// A head without a fault, that isn't of an informational response.
#[derive(Drop)]
pub(crate) struct SoundResponse {
    /// The response, without its body.
    pub response: Response,
    pub framing: Framing,
}

/// A head that was checked.
#[derive(Drop)]
pub(crate) enum JudgedResponse {
    Sound(SoundResponse),
    /// Its status is from 100 to 199.
    Informational,
    Faulty,
}

fn has_other_coding(fields: &Fields) -> bool
    ensures { result ≡ is_other_coding (values_of fields.now (codes "transfer-encoding")) }
{
    match fields.values(b"transfer-encoding") {
        Values::Absent => false,
        Values::One(value) => !same_name(value, b"chunked"),
        Values::Several => true,
    }
}

/// The framing by the length that is told.
fn told_length(fields: &Fields) -> Framing
    requires { are_lengths (values_of fields.now (codes "content-length")) ≡ true }
    ensures { result ≡ sized (first_number (values_of fields.now (codes "content-length"))) }
{
    match fields.values(b"content-length") {
        Values::One(value) => match number(value, RESPONSE_LIMIT) {
            Some(length) => Framing::Sized(length),
            None => Framing::TooLong,
        },
        _ => Framing::Sized(0),
    }
}

fn framing_of(to_head: bool, status: u16, fields: &Fields) -> Framing
    requires { are_lengths (values_of fields.now (codes "content-length")) ≡ true }
    ensures { result ≡ framing_of to_head status fields.now }
{
    if to_head || status == 204 || status == 304 {
        return Framing::Sized(0);
    }
    if !is_absent(fields, b"transfer-encoding") {
        return Framing::Chunked;
    }
    if is_absent(fields, b"content-length") {
        return Framing::UntilEnd;
    }
    told_length(fields)
}

/// What a head says, or that it has a fault.
#[tactic(auto, unfolding(crate::specs::ResponseChecks::judge_response_fields))]
pub(crate) fn check_response(
    alloc: Global,
    to_head: bool,
    status: u16,
    fields: Fields,
) -> JudgedResponse
    ensures { result ≡ judge_response_fields to_head status fields }
{
    if status < 100 || status > 599 {
        return JudgedResponse::Faulty;
    }
    if !has_sound_length(&fields) || has_other_coding(&fields) {
        return JudgedResponse::Faulty;
    }
    if status < 200 {
        return JudgedResponse::Informational;
    }
    let framing = framing_of(to_head, status, &fields);
    JudgedResponse::Sound(SoundResponse {
        response: Response {
            status,
            fields,
            body: Octets::new(alloc),
        },
        framing,
    })
}
