//! Workers serve at the same time: the file of one connection is held until another connection was answered.
use super::listen::{accept_of, listen_over, worker_of};
use super::pipe::{bare_request, store_text};
use auth_grammar::{Octets, OutOfMemory};
use auth_io::{
    Accept, Failed, FileAnswer, Files, MemAccept, MemClock, MemLink, MemWords, Replaced,
};
use listen_core::Worker;
use std::alloc::Global;
use std::process::Abort;
use std::sync::Wait;
use std::sync::atomic::{AtomicU64, Ordering};
use std::test::Fail;
use std::thread::Threads;

/// How often it is looked whether the other connection was answered.
const TURNS: u32 = 1_000_000_000;

/// Hands out connections, and notes when one came back.
#[derive(Drop)]
struct NotingAccept<'n> {
    accept: MemAccept,
    back: &'n AtomicU64,
}

impl<'n> Accept for NotingAccept<'n> {
    type In = MemLink;

    ghost coming = { λ s. ⟦<MemAccept as Accept>⟧.coming s.accept };

    ghost handed = { λ s. ⟦<MemAccept as Accept>⟧.handed s.accept };

    ghost faults = { λ s. ⟦<MemAccept as Accept>⟧.faults s.accept };

    ghost link_faults = { λ s. ⟦<MemAccept as Accept>⟧.link_faults s.accept };

    fn accept(&mut self) -> Result<MemLink, Failed> {
        self.accept.accept()
    }

    fn done(&mut self, link: MemLink) {
        self.accept.done(link);
        self.back.store(1, Ordering::SeqCst);
    }
}

/// The files of a site, of which one is held until a connection of `other` came back, where there is that.
#[derive(Drop)]
struct HoldingFiles<'n> {
    alloc: Global,
    other: Option<&'n AtomicU64>,
    faults: u64,
}

/// Whether a connection came back in time.
fn came_back(other: &AtomicU64) -> bool {
    for _ in 0..TURNS {
        if other.load(Ordering::SeqCst) == 1 {
            return true;
        }
    }
    false
}

impl<'n> HoldingFiles<'n> {
    /// The file that is held.
    fn held(&self) -> Option<&'static [u8]> {
        match self.other {
            Some(other) if !came_back(other) => None,
            _ => Some(b"hello\n"),
        }
    }

    fn text_of(&self, name: &[u8]) -> Option<&'static [u8]> {
        match name {
            b"store" => Some(store_text()),
            b"spaces" => Some(b"authspaces 1\n/ none\n"),
            _ => self.held(),
        }
    }
}

impl<'n> Files for HoldingFiles<'n> {
    ghost use Rattle.std.specs.Prelude.{None};

    ghost contents = { λ _. None };

    ghost asked = { λ _. None };

    ghost faults = { λ s. s.faults };

    fn read(&mut self, name: &[u8], limit: u64) -> FileAnswer {
        let Some(text) = self.text_of(name) else {
            self.faults = self.faults.saturating_add(1);
            return FileAnswer::Failed;
        };
        if text.len() as u64 > limit {
            return FileAnswer::TooLarge;
        }
        match Octets::of(self.alloc, text) {
            Ok(text) => FileAnswer::Found(text),
            Err(OutOfMemory) => FileAnswer::OutOfMemory,
        }
    }

    fn replace(&mut self, _name: &[u8], _bytes: &[u8]) -> Replaced {
        Replaced::OutOfMemory
    }
}

type HoldingWorker<'n> = Worker<NotingAccept<'n>, HoldingFiles<'n>, MemClock, MemWords>;

/// A worker of one connection, which asks for a file.
fn worker_with<'n>(
    alloc: Global,
    back: &'n AtomicU64,
    other: Option<&'n AtomicU64>,
) -> Result<HoldingWorker<'n>, Fail> {
    let accept = NotingAccept {
        accept: accept_of(alloc, bare_request())?,
        back,
    };
    let files = HoldingFiles {
        alloc,
        other,
        faults: 0,
    };
    worker_of(alloc, accept, files)
}

/// The worker at the first or at the second place has the file that is held. A worker that served both connections, one
/// after the other, would give up at one of the two places.
fn check_held<R: Threads + Wait + Sync + Abort>(
    rt: &R,
    alloc: Global,
    at_first: bool,
) -> Result<(), Fail> {
    let (first_back, second_back) = (AtomicU64::new(0), AtomicU64::new(0));
    let (first_other, second_other) = if at_first {
        (Some(&second_back), None)
    } else {
        (None, Some(&first_back))
    };
    let first = worker_with(alloc, &first_back, first_other)?;
    let second = worker_with(alloc, &second_back, second_other)?;
    let workers = vec![in alloc; first, second]?;
    let ended = listen_over(rt, alloc, "listen store spaces www h:80 2 1", workers)?;
    assert_eq!(rt; ended.status, 0);
    for worker in &ended.workers {
        for link in worker.accept.accept.ended() {
            assert!(rt; link.written().starts_with(b"HTTP/1.1 200 OK\r\n"));
        }
    }
    Ok(())
}

#[test]
fn a_connection_is_answered_while_the_file_of_another_is_held(rt: HostRuntime) -> Result<(), Fail> {
    let alloc = rt.alloc();
    check_held(&rt, alloc, true)?;
    check_held(&rt, alloc, false)
}
