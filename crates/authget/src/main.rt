//! The program `authget`: fetching with HTTP authentication.
#![tactic(auto)]

mod asking;
mod end;
mod exchange;
mod fetch;
mod fetching;
mod getting;
mod password;
mod plan;
mod reply;
mod request;
mod stop;
mod telling;
#[cfg(test)]
mod tests;
mod urls;
mod words;

use crate::fetch::fetch;
use crate::stop::Stop;
use auth_grammar::OutOfMemory;
use auth_io::{OsWords, StdLink, SystemClock, TcpDial};
use std::alloc::Global;
use std::env;
use std::io::{self, ErrorKind};
use std::process::ExitCode;

/// The words of the command line, without the program's name. Where they aren't all text there are none.
fn words_of(rt: &HostRuntime, alloc: Global) -> Result<Vec<String>, OutOfMemory> {
    match env::args(rt) {
        Ok(args) => Ok(args.skip(1).collect(alloc)?),
        Err(error) if error.kind() == ErrorKind::OutOfMemory => Err(OutOfMemory),
        Err(_) => Ok(Vec::new(alloc)),
    }
}

/// Fetches over TCP, with the standard streams and the system's clock and random words.
fn fetch_over(rt: &HostRuntime, words: &Vec<String>) -> u8 {
    fetch(
        rt.alloc(),
        words,
        &mut TcpDial::new(rt),
        &mut StdLink::new(rt.stdin(), io::sink()),
        &mut StdLink::new(io::empty(), rt.stdout()),
        &mut StdLink::new(io::empty(), rt.stderr()),
        &mut SystemClock::new(rt),
        &mut OsWords::new(rt),
    )
}

fn main(rt: HostRuntime) -> ExitCode {
    match words_of(&rt, rt.alloc()) {
        Ok(words) => ExitCode::from(fetch_over(&rt, &words)),
        Err(OutOfMemory) => ExitCode::from(Stop::OutOfMemory.status()),
    }
}
