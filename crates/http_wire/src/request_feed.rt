//! A stream of requests, which comes in pieces.
ghost use Rattle.std.specs.Prelude.{if◌then◌else◌, IsTrue, ◌↔◌, ◌≡◌, ◌<◌, ◌+◌, ◌^◌, [], length, take, OnOk, OnErr, IfOk, true, false, not, ◌&&◌, Some, None};
ghost use Rattle.http_wire.specs.Search.{Tracks};
ghost use Rattle.http_wire.specs.RequestPhase.{IsPhase, IsSettled, is_stopped};
ghost use Rattle.http_wire.specs.RequestFeed.{Gives, pushed};
ghost use Rattle.http_wire.specs.Requests.{with_body, begun_at};
ghost use Rattle.http_wire.specs.declared.front.TheConstants.{HEAD_LIMIT};

use crate::front::{HEAD_LIMIT, behind, front_of, window};
use crate::phase::Phase;
use crate::request::{Next, Request};
use crate::request_head::{Judged, SoundHead, judge_text};
use crate::search::{Place, Search, find_head, line_here};
use crate::unread::Unread;
use auth_grammar::{Octets, OutOfMemory};
use std::alloc::Global;
use std::marker::Model;
use std::mem;

/// Requests that come in pieces. Contracts see what it holds: the bytes behind the messages that it gave, their place,
/// whether a `Continue` was given for them, and whether it stopped at a bad message.
#[derive(Drop)]
pub struct RequestFeed {
    alloc: Global,
    rest: Unread,
    at: u64,
    told: bool,
    phase: Phase,
}

impl Model for RequestFeed {
    ghost use Rattle.std.specs.Prelude.{◌<◌, ◌+◌, ◌^◌, length};
    ghost use Rattle.http_wire.specs.RequestFeed.{Held};

    ghost Value = { Held };

    ghost use Rattle.http_wire.specs.RequestPhase.{is_stopped, IsPhase};

    ghost view = { λ f. record { rest = f.rest; at = f.at; told = f.told; stopped = is_stopped f.phase } };

    ghost invariant = { λ f. IsPhase f.rest f.phase × (f.at + length f.rest < 2 ^ 63) };
}

/// Looks at the bytes that came, from a place on.
fn look(alloc: Global, bytes: &[u8], place: Place) -> Result<Phase, OutOfMemory>
    requires { Tracks (take HEAD_LIMIT bytes.now) place }
    ensures { IfOk result (λ phase. IsSettled bytes.now phase) }
{
    let first = window(bytes);
    match find_head(first, place) {
        Search::Found { start, end } => match judge_text(alloc, &first[start..end])? {
            Judged::Sound(head) => Ok(Phase::Body { head, start, end }),
            Judged::Faulty(status) => Ok(Phase::Stopped { status }),
        },
        Search::Unfound(place) => {
            if bytes.len() < HEAD_LIMIT {
                Ok(Phase::Searching(place))
            } else {
                Ok(Phase::Stopped { status: 431 })
            }
        }
    }
}

/// Looks at the bytes that came.
fn settle(alloc: Global, bytes: &[u8], phase: &mut Phase) -> Result<(), OutOfMemory>
    requires { IsPhase bytes.now phase.old }
    ensures ok { OnOk result (IsSettled bytes.now phase.new) }
    ensures kept { is_stopped phase.old ≡ true → is_stopped phase.new ≡ true }
    ensures err { OnErr result (phase.new ≡ phase.old) }
    ensures err_goes { OnErr result (is_stopped phase.old ≡ false) }
{
    if let Phase::Searching(place) = phase {
        *phase = look(alloc, bytes, *place)?;
    }
    Ok(())
}

impl RequestFeed {
    /// A stream from which nothing came.
    pub fn new(alloc: Global) -> RequestFeed
        ensures { result ≡ record { rest = []; at = 0; told = false; stopped = false } }
    {
        RequestFeed {
            alloc,
            rest: Unread::new(alloc),
            at: 0,
            told: false,
            phase: Phase::START,
        }
    }

    /// Whether that many bytes more may be pushed.
    pub fn has_room(&self, more: usize) -> bool
        ensures { IsTrue result ↔ (self.now.at + length self.now.rest + more < 2 ^ 63) }
    {
        (self.at as u128) + (self.rest.len() as u128) + (more as u128) < 1 << 63
    }

    /// Takes the next piece of the stream. Behind a bad message it does nothing.
    pub fn push(&mut self, piece: &[u8]) -> Result<(), OutOfMemory>
        requires { self.old.at + length self.old.rest + length piece.now < 2 ^ 63 }
        ensures ok { OnOk result (self.new ≡ pushed self.old piece.now) }
        ensures err { OnErr result (self.new ≡ self.old) }
    {
        if matches!(self.phase, Phase::Stopped { .. }) {
            return Ok(());
        }
        self.rest.extend(piece)?;
        Ok(())
    }

    /// What stands at the front of the bytes that came.
    pub fn next(&mut self) -> Next
        ensures { Gives self.old self.new result }
    {
        let Ok(()) = settle(self.alloc, self.rest.as_slice(), &mut self.phase) else {
            return Next::OutOfMemory;
        };
        match mem::replace(&mut self.phase, Phase::START) {
            Phase::Searching(place) => {
                self.phase = Phase::Searching(place);
                Next::NeedMore
            }
            Phase::Stopped { status } => {
                self.phase = Phase::Stopped { status };
                Next::Bad {
                    status,
                    at: self.at,
                }
            }
            Phase::Body { head, start, end } => self.read_body(head, start, end),
        }
    }

    /// What stands at the front, where a head without a fault stands from `start` to `end`.
    fn read_body(&mut self, head: SoundHead, start: usize, end: usize) -> Next
        requires body { IsPhase self.old.rest (Phase.Body head start end) }
        requires goes { self.old.stopped ≡ false }
        ensures { Gives self.old self.new result }
    {
        if owes(head.expects, self.told) {
            self.told = true;
            self.phase = Phase::Body { head, start, end };
            return Next::Continue;
        }
        let rest = behind(self.rest.as_slice(), end);
        if rest.len() < head.body_len as usize {
            self.phase = Phase::Body { head, start, end };
            return Next::NeedMore;
        }
        let Ok(body) = Octets::of(self.alloc, front_of(rest, head.body_len as usize)) else {
            self.phase = Phase::Body { head, start, end };
            return Next::OutOfMemory;
        };
        let count = end + body.len();
        self.rest.take(count);
        self.at += count as u64;
        self.told = false;
        self.phase = Phase::START;
        Next::Message(with_body(head.request, body))
    }

    /// The place of the bytes that weren't given yet, or None where they are whole empty lines alone.
    /// After `NeedMore` that is the place of a message that has begun and isn't whole. It looks through the empty lines
    /// at the front, so it is for the end of the input.
    pub fn rest(&self) -> Option<u64>
        ensures { result ≡ (if begun_at self.now.rest then Some self.now.at else None) }
    {
        if has_begun(self.rest.as_slice()) {
            Some(self.at)
        } else {
            None
        }
    }
}

/// Whether more came than whole empty lines.
fn has_begun(bytes: &[u8]) -> bool
    ensures { result ≡ begun_at bytes.now }
{
    let mut at = 0;
    'lines: loop {
        match line_here(&bytes[at..]) {
            None => return at < bytes.len(),
            Some(0) => return true,
            Some(n) => at += n,
        }
    }
}

/// Whether a `Continue` is to be given.
fn owes(expects: bool, told: bool) -> bool
    ensures { result ≡ (expects && not told) }
{
    expects && !told
}

fn with_body(request: Request, body: Octets) -> Request
    ensures { result ≡ with_body request body }
{
    Request { body, ..request }
}
