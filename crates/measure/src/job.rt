//! The jobs, and why one isn't done.
use crate::challenges::items_of_challenges;
use crate::requests::{body_in_pieces, target_by_bytes};
use crate::responses::body_of_chunks;
use crate::stores::entries_of_store;
use crate::uses::used_counts;
use auth_grammar::OutOfMemory;
use std::alloc::{AllocError, AllocFailed, Global};

/// What is to be done.
#[derive(Clone, Copy)]
pub(crate) enum Job {
    Challenges,
    Response,
    Body,
    Head,
    Store,
    Uses,
}

/// Why a job isn't done.
#[derive(Clone, Copy)]
pub(crate) enum Failure {
    /// Other words than a job and a size.
    Usage,
    /// A library refuses what the job made, as where it is longer than is allowed.
    Refused,
    /// The count isn't written.
    Write,
    OutOfMemory,
}

impl From<OutOfMemory> for Failure {
    fn from(_error: OutOfMemory) -> Failure {
        Failure::OutOfMemory
    }
}

impl From<nonce_shard::OutOfMemory> for Failure {
    fn from(_error: nonce_shard::OutOfMemory) -> Failure {
        Failure::OutOfMemory
    }
}

impl From<AllocError> for Failure {
    fn from(_error: AllocError) -> Failure {
        Failure::OutOfMemory
    }
}

impl<T: Drop> From<AllocFailed<T>> for Failure {
    fn from(_error: AllocFailed<T>) -> Failure {
        Failure::OutOfMemory
    }
}

impl Failure {
    /// The exit status.
    pub(crate) fn status(self) -> u8 {
        match self {
            Failure::Usage => 2,
            Failure::Refused => 3,
            Failure::Write => 4,
            Failure::OutOfMemory => 7,
        }
    }
}

impl Job {
    pub(crate) fn named(name: &[u8]) -> Option<Job> {
        match name {
            b"challenges" => Some(Job::Challenges),
            b"response" => Some(Job::Response),
            b"body" => Some(Job::Body),
            b"head" => Some(Job::Head),
            b"store" => Some(Job::Store),
            b"uses" => Some(Job::Uses),
            _ => None,
        }
    }

    /// What the job counts.
    pub(crate) fn unit(self) -> &'static str {
        match self {
            Job::Challenges => "items",
            Job::Response | Job::Body => "bytes of body",
            Job::Head => "bytes of target",
            Job::Store => "entries",
            Job::Uses => "fresh counts",
        }
    }

    /// Does the job, and tells what it counted.
    pub(crate) fn perform(self, alloc: Global, size: u32) -> Result<usize, Failure> {
        match self {
            Job::Challenges => items_of_challenges(alloc, size),
            Job::Response => body_of_chunks(alloc, size),
            Job::Body => body_in_pieces(alloc, size),
            Job::Head => target_by_bytes(alloc, size),
            Job::Store => entries_of_store(alloc, size),
            Job::Uses => used_counts(alloc, size),
        }
    }
}
