//! The program `authd`: HTTP authentication at a server.
#![tactic(auto)]

mod account;
mod check;
mod command;
mod crew;
mod drill_plan;
mod drilling;
mod failure;
mod import;
mod input;
mod lines;
mod listen;
mod loading;
mod migrate;
mod network;
mod numbers;
mod options;
mod passwd;
mod password;
mod pipe;
mod printing;
mod proxying;
mod report;
mod run;
mod saving;
mod show;
mod switch;
#[cfg(test)]
mod tests;

use crate::command::crew_of;
use crate::failure::Failure;
use crate::network::listen_on;
use crate::run::run;
use auth_grammar::OutOfMemory;
use auth_io::{DiskFiles, OsWords, StdLink, SystemClock};
use std::alloc::Global;
use std::env;
use std::io::{self, ErrorKind};
use std::process::ExitCode;
use std::sync::Wait;
use std::thread::Threads;

/// The words of the command line, without the program's name. Where they aren't all text there are none.
fn words_of(rt: &HostRuntime, alloc: Global) -> Result<Vec<String>, OutOfMemory> {
    match env::args(rt) {
        Ok(args) => Ok(args.skip(1).collect(alloc)?),
        Err(error) if error.kind() == ErrorKind::OutOfMemory => Err(OutOfMemory),
        Err(_) => Ok(Vec::new(alloc)),
    }
}

/// Does what the words ask for over the standard streams.
fn run_alone(rt: &HostRuntime, alloc: Global, words: &Vec<String>) -> u8 {
    run(
        alloc,
        words,
        &mut StdLink::new(rt.stdin(), rt.stdout()),
        &mut DiskFiles::new(rt, alloc),
        &mut SystemClock::new(rt),
        &mut OsWords::new(rt),
        &mut StdLink::new(io::empty(), rt.stderr()),
    )
}

/// Does what the words of the command line ask for.
fn perform<R: Threads + Wait + Sync>(
    rt: &HostRuntime,
    threads: &R,
    alloc: Global,
) -> Result<u8, OutOfMemory> {
    let words = words_of(rt, alloc)?;
    match crew_of(alloc, &words)? {
        Some(crew) => listen_on(rt, threads, alloc, &words, &crew),
        None => Ok(run_alone(rt, alloc, &words)),
    }
}

fn main(rt: HostRuntime) -> ExitCode {
    match perform(&rt, &rt, rt.alloc()) {
        Ok(status) => ExitCode::from(status),
        Err(OutOfMemory) => ExitCode::from(Failure::OutOfMemory.status()),
    }
}
