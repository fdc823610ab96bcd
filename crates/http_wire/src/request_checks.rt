//! The checks of a request's head, in the order in which they are told.
ghost use Rattle.std.specs.Prelude.{◌≡◌, nat_le, codes, Some, None, true, if◌then◌else◌};
ghost use Rattle.http_wire.specs.Fields.{values_of};
ghost use Rattle.http_wire.specs.Values.{are_lengths, first_number, is_empty};
ghost use Rattle.http_wire.specs.RequestChecks.{is_wrong_host, judge_fields};

use crate::fields::Fields;
use crate::request::Request;
use crate::request_head::{Judged, SoundHead};
use crate::values::{Values, is_number, number};
use auth_grammar::Octets;
use std::alloc::Global;

/// The most bytes of a request's body.
pub const BODY_LIMIT: u32 = 1_048_576;

fn has_wrong_host(minor: u8, fields: &Fields) -> bool
    ensures { result ≡ is_wrong_host minor (values_of fields.now (codes "host")) }
{
    match fields.values(b"host") {
        Values::Absent => minor == 1,
        Values::One(_) => false,
        Values::Several => true,
    }
}

pub(crate) fn is_absent(fields: &Fields, name: &[u8]) -> bool
    ensures { result ≡ is_empty (values_of fields.now name.now) }
{
    matches!(fields.values(name), Values::Absent)
}

pub(crate) fn has_sound_length(fields: &Fields) -> bool
    ensures { result ≡ are_lengths (values_of fields.now (codes "content-length")) }
{
    match fields.values(b"content-length") {
        Values::Absent => true,
        Values::One(value) => is_number(value),
        Values::Several => false,
    }
}

/// The length of the body, where it isn't above the limit.
fn length(fields: &Fields) -> Option<u32>
    requires { are_lengths (values_of fields.now (codes "content-length")) ≡ true }
    ensures { let n = first_number (values_of fields.now (codes "content-length")) in
        result ≡ (if nat_le n BODY_LIMIT then Some n else None) }
{
    match fields.values(b"content-length") {
        Values::One(value) => number(value, BODY_LIMIT),
        _ => Some(0),
    }
}

/// What a head asks for, or its first fault.
#[tactic(auto, unfolding(crate::specs::RequestChecks::judge_fields, crate::specs::RequestChecks::fault_of, crate::specs::RequestChecks::named_of, crate::specs::RequestChecks::sound_head))]
pub(crate) fn check_fields(
    alloc: Global,
    method: Octets,
    target: Octets,
    minor: u8,
    fields: Fields,
) -> Judged
    ensures { result ≡ judge_fields method target minor fields }
{
    if has_wrong_host(minor, &fields) {
        return Judged::Faulty(400);
    }
    if !is_absent(&fields, b"transfer-encoding") {
        return Judged::Faulty(411);
    }
    if !has_sound_length(&fields) {
        return Judged::Faulty(400);
    }
    let Some(body_len) = length(&fields) else {
        return Judged::Faulty(413);
    };
    if !fields.all_are(b"expect", b"100-continue") {
        return Judged::Faulty(417);
    }
    let closes = minor == 0 || fields.has_token(b"connection", b"close");
    let expects = minor == 1 && !is_absent(&fields, b"expect") && body_len > 0;
    Judged::Sound(SoundHead {
        request: Request {
            method,
            target,
            minor,
            fields,
            body: Octets::new(alloc),
            closes,
        },
        body_len,
        expects,
    })
}
