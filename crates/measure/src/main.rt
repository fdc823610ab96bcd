//! The program `measure`: does one job of a size through the libraries, so that it can be timed from outside.
#![tactic(auto)]

mod challenges;
mod filler;
mod job;
mod requests;
mod responses;
mod stores;
mod uses;

use crate::job::{Failure, Job};
use std::alloc::Global;
use std::env;
use std::process::ExitCode;

/// The job and the size that the words of the command line say.
fn job_of(rt: &HostRuntime, alloc: Global) -> Result<(Job, u32), Failure> {
    let Ok(args) = env::args(rt) else {
        return Err(Failure::Usage);
    };
    let words: Vec<String> = args.skip(1).collect(alloc)?;
    let [name, size] = words.as_slice() else {
        return Err(Failure::Usage);
    };
    match (Job::named(name.as_bytes()), size.parse::<u32>()) {
        (Some(job), Ok(size)) => Ok((job, size)),
        _ => Err(Failure::Usage),
    }
}

/// Does the job that the words say, and prints what it counted.
fn perform(rt: &HostRuntime) -> Result<(), Failure> {
    let alloc = rt.alloc();
    let (job, size) = job_of(rt, alloc)?;
    let count = job.perform(alloc, size)?;
    match println!(rt; "{} {count}", job.unit()) {
        Ok(()) => Ok(()),
        Err(_) => Err(Failure::Write),
    }
}

fn main(rt: HostRuntime) -> ExitCode {
    match perform(&rt) {
        Ok(()) => ExitCode::SUCCESS,
        Err(failure) => ExitCode::from(failure.status()),
    }
}
