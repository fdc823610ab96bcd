//! Responses that come in pieces.
ghost use Rattle.std.specs.Prelude.{Bool, nat_lt, ◌≡◌, ◌≤◌, ◌<◌, ◌+◌, ◌^◌, ◌++◌, ◌↔◌, ℕ, List, [], length, take, drop, min, OnOk, OnErr, IfOk, IsTrue, Some, false, if◌then◌else◌};
ghost use Rattle.http_wire.specs.HeadPlace.{head_len};
ghost use Rattle.http_wire.specs.ChunkLine.{GoesOnLine};
ghost use Rattle.http_wire.specs.Search.{GoesOn};
ghost use Rattle.http_wire.specs.ResponseChecks.{judge_response};
ghost use Rattle.http_wire.specs.Responses.{response_front, body_front, sized_body, open_body, chunks, behind_line, chunk_data, chunk_end, trailers};
ghost use Rattle.http_wire.specs.ResponseFeed.{part_front, stage_front, place_of, ahead, Holds, is_over, GivesResponse, EndsResponse};
ghost use Rattle.http_wire.specs.ResponseSteps.{IsPart, IsStage, Waits, WaitsOrStops, FindsTrailers, has_crlf, Steps, Runs};
ghost use Rattle.http_wire.specs.declared.front.TheConstants.{HEAD_LIMIT};

use crate::chunk_line::{LinePart, LineSearch, chunk_size, find_line};
use crate::front::{HEAD_LIMIT, front_of, window};
use crate::response::{NextResponse, Response};
use crate::response_checks::{Framing, JudgedResponse, RESPONSE_LIMIT, SoundResponse};
use crate::response_head::judge_response_text;
use crate::response_stage::{Part, Stage};
use crate::response_step::Step;
use crate::search::{End, find_end, line_here};
use crate::unread::Unread;
use auth_grammar::{Octets, OutOfMemory};
use std::alloc::Global;
use std::marker::Model;
use std::mem;

/// Responses that come in pieces, of which informational ones are passed over. Contracts see what stands at the front
/// when more bytes come (`ahead`), and how many came.
#[derive(Drop)]
pub struct ResponseFeed {
    alloc: Global,
    to_head: bool,
    count: u64,
    rest: Unread,
    stage: Stage,
}

impl Model for ResponseFeed {
    ghost use Rattle.std.specs.Prelude.{◌<◌, ◌≤◌, ◌^◌, length};
    ghost use Rattle.http_wire.specs.ResponseFeed.{HeldResponse};

    ghost Value = { HeldResponse };

    ghost use Rattle.http_wire.specs.ResponseSteps.{IsStage};

    ghost view = { λ f. record { to_head = f.to_head; count = f.count; rest = f.rest; stage = f.stage } };

    ghost invariant = { λ f. IsStage f.rest f.stage × (length f.rest ≤ f.count) × (f.count < 2 ^ 63) };
}

/// The stage behind a head without a fault.
fn body_stage(head: SoundResponse, at: u64) -> Stage
    ensures front { (to_head : Bool) (bytes : List ℕ)
        → stage_front to_head result at bytes ≡ body_front head.response head.framing at bytes }
    ensures stage { (rest : List ℕ) → IsStage rest result }
{
    let response = head.response;
    match head.framing {
        Framing::Sized(left) => Stage::Body {
            response,
            at,
            part: Part::Known { left },
        },
        Framing::TooLong => Stage::Stopped { at },
        Framing::Chunked => Stage::Body {
            response,
            at,
            part: Part::LINE_START,
        },
        Framing::UntilEnd => Stage::Body {
            response,
            at,
            part: Part::ToEnd,
        },
    }
}

/// The stage behind a chunk line.
fn chunk_stage(response: Response, at: u64, line_at: u64, size: u64) -> Stage
    ensures front { (to_head : Bool) (place : ℕ) (bytes : List ℕ) → stage_front to_head result place bytes
        ≡ behind_line (λ r p b. chunks r at p b) response at line_at place size bytes }
    ensures stage { (rest : List ℕ) → IsStage rest result }
{
    if size == 0 {
        let part = Part::Trailers { from: 0 };
        return Stage::Body { response, at, part };
    }
    if exceeds(response.body.len(), size) {
        return Stage::Stopped { at };
    }
    let part = Part::Data {
        left: size as u32,
        line_at,
    };
    Stage::Body { response, at, part }
}

/// Whether a body of `len` bytes would be too long with `more`.
fn exceeds(len: usize, more: u64) -> bool
    requires { len < 2 ^ 63 }
    ensures { result ≡ nat_lt RESPONSE_LIMIT (len + more) }
{
    more > RESPONSE_LIMIT as u64 || len as u64 + more > RESPONSE_LIMIT as u64
}

impl ResponseFeed {
    /// A stream from which nothing came. `to_head` tells that the request's method was HEAD, so that its response has no
    /// body.
    pub fn new(alloc: Global, to_head: bool) -> ResponseFeed
        ensures to_head { result.to_head ≡ to_head }
        ensures count { result.count ≡ 0 }
        ensures holds { Holds result 0 [] }
    {
        ResponseFeed {
            alloc,
            to_head,
            count: 0,
            rest: Unread::new(alloc),
            stage: Stage::START,
        }
    }

    /// Whether that many bytes more may be pushed.
    pub fn has_room(&self, more: usize) -> bool
        ensures { IsTrue result ↔ (self.now.count + more < 2 ^ 63) }
    {
        (self.count as u128) + (more as u128) < 1 << 63
    }

    /// Takes the next piece of the stream. Behind a fault it does nothing.
    pub fn push(&mut self, piece: &[u8]) -> Result<(), OutOfMemory>
        requires { self.old.count + length piece.now < 2 ^ 63 }
        ensures to_head { OnOk result (self.new.to_head ≡ self.old.to_head) }
        ensures count { OnOk result (self.new.count ≡ (if is_over self.old then self.old.count else self.old.count + length piece.now)) }
        ensures ahead { OnOk result ((more : List ℕ) → ahead self.new more ≡ ahead self.old (piece.now ++ more)) }
        ensures err { OnErr result (self.new ≡ self.old) }
    {
        if matches!(self.stage, Stage::Stopped { .. }) {
            return Ok(());
        }
        self.rest.extend(piece)?;
        self.count += piece.len() as u64;
        Ok(())
    }

    /// What stands at the front of the bytes that came.
    pub fn next(&mut self) -> NextResponse
        ensures { GivesResponse self.old self.new result }
    {
        match self.run() {
            Step::Done(response) => NextResponse::Message(response),
            Step::Fault { at } => NextResponse::Bad { at },
            Step::NoMemory => NextResponse::OutOfMemory,
            Step::Wait | Step::On => NextResponse::NeedMore,
        }
    }

    /// What stands at the front at the end of the input. `NeedMore` never comes from it.
    pub fn finish(&mut self) -> NextResponse
        ensures { EndsResponse self.old self.new result }
    {
        match self.run() {
            Step::Done(response) => NextResponse::Message(response),
            Step::Fault { at } => NextResponse::Bad { at },
            Step::NoMemory => NextResponse::OutOfMemory,
            Step::Wait | Step::On => self.end(),
        }
    }
}

impl ResponseFeed {
    /// Makes all steps that can be made now.
    fn run(&mut self) -> Step
        ensures { Runs (λ more. ahead self.old more) self.old self.new result }
    {
        loop {
            match self.step() {
                Step::On => {}
                step => return step,
            }
        }
    }

    fn step(&mut self) -> Step
        ensures { Steps (λ more. ahead self.old more) self.old self.new result }
    {
        match mem::replace(&mut self.stage, Stage::START) {
            Stage::Head { from } => self.read_head(from),
            Stage::Body { response, at, part } => self.read_part(response, at, part),
            Stage::Stopped { at } => self.stop(at),
        }
    }

    /// Tells a fault from now on.
    fn stop(&mut self, at: u64) -> Step
        ensures result { result ≡ Step.Fault at }
        ensures after { self.new ≡ record self.old { stage = Stage.Stopped at } }
    {
        self.stage = Stage::Stopped { at };
        Step::Fault { at }
    }

    /// The place of the bytes that weren't taken.
    fn place(&self) -> u64
        ensures place { result ≡ place_of self.now }
        ensures bound { result + length self.now.rest < 2 ^ 63 }
    {
        self.count - self.rest.len() as u64
    }

    /// What stands at the front at the end of the input, after all steps that could be made.
    fn end(&mut self) -> NextResponse
        requires { Waits self.old }
        ensures { EndsResponse self.old self.new result }
    {
        match mem::replace(&mut self.stage, Stage::START) {
            Stage::Body {
                response,
                part: Part::ToEnd,
                ..
            } => NextResponse::Message(response),
            Stage::Body { at, .. } | Stage::Stopped { at } => self.end_at(at),
            Stage::Head { .. } => self.end_at(self.place()),
        }
    }

    /// Tells that the input ended inside a response.
    fn end_at(&mut self, at: u64) -> NextResponse
        ensures result { result ≡ NextResponse.Bad at }
        ensures after { self.new ≡ record self.old { stage = Stage.Stopped at } }
    {
        self.stage = Stage::Stopped { at };
        NextResponse::Bad { at }
    }

    /// Goes to a stage.
    fn keep(&mut self, stage: Stage, step: Step) -> Step
        requires { IsStage self.old.rest stage }
        ensures result { result ≡ step }
        ensures after { self.new ≡ record self.old { stage = stage } }
    {
        self.stage = stage;
        step
    }

    /// Moves bytes into a body, as many of the `left` that are missing as there are.
    fn move_body(&mut self, body: &mut Octets, left: usize) -> Result<usize, OutOfMemory>
        ensures count { IfOk result (λ count. count ≡ min left (length self.old.rest)) }
        ensures after { IfOk result (λ count. self.new ≡ record self.old { rest = drop count self.old.rest; stage = Stage.Head 0 }) }
        ensures body { IfOk result (λ count. body.new ≡ body.old ++ take count self.old.rest) }
        ensures err { OnErr result (self.new ≡ record self.old { stage = Stage.Head 0 }) }
        ensures err_body { OnErr result (body.new ≡ body.old) }
        ensures fits { length self.old.rest ≤ self.old.count }
    {
        self.stage = Stage::START;
        let count = left.min(self.rest.len());
        body.extend(front_of(self.rest.as_slice(), count))?;
        self.rest.take(count);
        Ok(count)
    }

    /// Takes bytes and goes on in a stage.
    fn go_on(&mut self, count: usize, stage: Stage) -> Step
        requires count { count ≤ length self.old.rest }
        requires stage { IsStage (drop count self.old.rest) stage }
        ensures result { result ≡ Step.On }
        ensures after { self.new ≡ record self.old { rest = drop count self.old.rest; stage = stage } }
        ensures fits { length self.old.rest ≤ self.old.count }
    {
        self.rest.take(count);
        self.stage = stage;
        Step::On
    }

    /// Takes the last bytes of a response, and gives it.
    fn give(&mut self, count: usize, response: Response) -> Step
        requires { count ≤ length self.old.rest }
        ensures result { result ≡ Step.Done response }
        ensures after { self.new ≡ record self.old { rest = drop count self.old.rest; stage = Stage.Head 0 } }
        ensures fits { length self.old.rest ≤ self.old.count }
    {
        self.rest.take(count);
        self.stage = Stage::START;
        Step::Done(response)
    }

    /// Waits for more bytes, where the first 16,384 aren't there yet, and else tells a fault.
    fn wait_or_stop(&mut self, stage: Stage, at: u64) -> Step
        requires { IsStage self.old.rest stage }
        ensures { WaitsOrStops self.old self.new stage at result }
    {
        if self.rest.len() < HEAD_LIMIT {
            self.stage = stage;
            return Step::Wait;
        }
        self.stop(at)
    }

    /// Reads a head that doesn't end before `from`.
    fn read_head(&mut self, from: usize) -> Step
        requires search { GoesOn (take HEAD_LIMIT self.old.rest) 0 from }
        requires goes { is_over self.old ≡ false }
        ensures { Steps (λ more. response_front self.old.to_head (place_of self.old) (self.old.rest ++ more)) self.old self.new result }
    {
        let first = window(self.rest.as_slice());
        let end = match find_end(first, from) {
            End::At(end) => end,
            End::Missing(from) => return self.wait_or_stop(Stage::Head { from }, self.place()),
        };
        let Ok(judged) = judge_response_text(self.alloc, self.to_head, front_of(first, end)) else {
            return self.keep(Stage::Head { from }, Step::NoMemory);
        };
        self.pass_head(judged, end)
    }

    /// Takes a head of `end` bytes.
    fn pass_head(&mut self, judged: JudgedResponse, end: usize) -> Step
        requires head { head_len (take HEAD_LIMIT self.old.rest) ≡ Some end }
        requires judged { judged ≡ judge_response self.old.to_head (take end self.old.rest) }
        requires goes { is_over self.old ≡ false }
        ensures { Steps (λ more. response_front self.old.to_head (place_of self.old) (self.old.rest ++ more)) self.old self.new result }
    {
        match judged {
            JudgedResponse::Faulty => self.stop(self.place()),
            JudgedResponse::Informational => self.go_on(end, Stage::START),
            JudgedResponse::Sound(head) => {
                let stage = body_stage(head, self.place() + end as u64);
                self.go_on(end, stage)
            }
        }
    }

    fn read_part(&mut self, response: Response, at: u64, part: Part) -> Step
        requires part { IsPart self.old.rest part }
        requires goes { is_over self.old ≡ false }
        ensures { Steps (λ more. part_front response at part (place_of self.old) (self.old.rest ++ more)) self.old self.new result }
    {
        match part {
            Part::Known { left } => self.read_known(response, at, left),
            Part::ToEnd => self.read_to_end(response, at),
            Part::SizeLine { from, part } => self.read_size_line(response, at, from, part),
            Part::Data { left, line_at } => self.read_data(response, at, left, line_at),
            Part::DataEnd { line_at } => self.read_data_end(response, at, line_at),
            Part::Trailers { from } => self.read_trailers(response, at, from),
        }
    }

    fn read_known(&mut self, mut response: Response, at: u64, left: u32) -> Step
        requires { is_over self.old ≡ false }
        ensures { Steps (λ more. sized_body response at left (self.old.rest ++ more)) self.old self.new result }
    {
        let Ok(count) = self.move_body(&mut response.body, left as usize) else {
            let part = Part::Known { left };
            return self.keep(Stage::Body { response, at, part }, Step::NoMemory);
        };
        if count == left as usize {
            return self.give(0, response);
        }
        let part = Part::Known {
            left: left - count as u32,
        };
        self.keep(Stage::Body { response, at, part }, Step::Wait)
    }

    fn read_to_end(&mut self, mut response: Response, at: u64) -> Step
        requires { is_over self.old ≡ false }
        ensures { Steps (λ more. open_body response at (self.old.rest ++ more)) self.old self.new result }
    {
        if exceeds(response.body.len(), self.rest.len() as u64) {
            return self.stop(at);
        }
        let part = Part::ToEnd;
        let count = self.rest.len();
        let Ok(_) = self.move_body(&mut response.body, count) else {
            return self.keep(Stage::Body { response, at, part }, Step::NoMemory);
        };
        self.keep(Stage::Body { response, at, part }, Step::Wait)
    }

    fn read_size_line(&mut self, response: Response, at: u64, from: usize, part: LinePart) -> Step
        requires line { GoesOnLine (take HEAD_LIMIT self.old.rest) from part }
        requires goes { is_over self.old ≡ false }
        ensures { Steps (λ more. chunks response at (place_of self.old) (self.old.rest ++ more)) self.old self.new result }
    {
        let first = window(self.rest.as_slice());
        match find_line(first, from, part) {
            LineSearch::Found(count) => {
                let size = chunk_size(front_of(first, count));
                let stage = chunk_stage(response, at, self.place(), size);
                self.go_on(count, stage)
            }
            LineSearch::Going { from, part } => {
                let part = Part::SizeLine { from, part };
                self.wait_or_stop(Stage::Body { response, at, part }, self.place())
            }
            LineSearch::Refused => self.stop(self.place()),
        }
    }

    fn read_data(&mut self, mut response: Response, at: u64, left: u32, line_at: u64) -> Step
        requires some { 0 < left }
        requires goes { is_over self.old ≡ false }
        ensures { Steps
            (λ more. chunk_data (λ r p b. chunks r at p b) response at line_at (place_of self.old) left
            (self.old.rest ++ more)) self.old self.new result }
    {
        let Ok(count) = self.move_body(&mut response.body, left as usize) else {
            let part = Part::Data { left, line_at };
            return self.keep(Stage::Body { response, at, part }, Step::NoMemory);
        };
        if count == left as usize {
            let part = Part::DataEnd { line_at };
            return self.keep(Stage::Body { response, at, part }, Step::On);
        }
        let part = Part::Data {
            left: left - count as u32,
            line_at,
        };
        self.keep(Stage::Body { response, at, part }, Step::Wait)
    }

    fn read_data_end(&mut self, response: Response, at: u64, line_at: u64) -> Step
        requires { is_over self.old ≡ false }
        ensures { Steps (λ more. chunk_end (λ p b. chunks response at p b) at line_at (place_of self.old) (self.old.rest
            ++ more)) self.old self.new result }
    {
        match has_crlf(self.rest.as_slice()) {
            Some(true) => {
                let part = Part::LINE_START;
                self.go_on(2, Stage::Body { response, at, part })
            }
            Some(false) => self.stop(line_at),
            None => {
                let part = Part::DataEnd { line_at };
                self.keep(Stage::Body { response, at, part }, Step::Wait)
            }
        }
    }

    fn read_trailers(&mut self, response: Response, at: u64, from: usize) -> Step
        requires search { GoesOn (take HEAD_LIMIT self.old.rest) 0 from }
        requires goes { is_over self.old ≡ false }
        ensures { Steps (λ more. trailers response at (self.old.rest ++ more)) self.old self.new result }
    {
        match find_trailers_end(window(self.rest.as_slice()), from) {
            End::At(end) => self.give(end, response),
            End::Missing(from) => {
                let part = Part::Trailers { from };
                self.wait_or_stop(Stage::Body { response, at, part }, at)
            }
        }
    }
}

/// Whether CR LF stands at the front, where the bytes tell.
fn has_crlf(bytes: &[u8]) -> Option<bool>
    ensures { result ≡ has_crlf bytes.now }
{
    match bytes {
        [] | [b'\r'] => None,
        [b'\r', b'\n', ..] => Some(true),
        [_, ..] => Some(false),
    }
}

/// The end of the trailers.
fn find_trailers_end(first: &[u8], from: usize) -> End
    requires { GoesOn first.now 0 from }
    ensures { FindsTrailers first.now result }
{
    match line_here(first) {
        Some(0) => find_end(first, from),
        Some(end) => End::At(end),
        None => End::Missing(from),
    }
}
