//! What no clause says: the texts that the program prints, and that it ends well with memory to spare.
mod at_once;
mod drills;
mod listen;
mod pipe;
mod proxying;
mod rows;
mod secrets;
mod show;

use crate::run::run;
use auth_grammar::Octets;
use auth_io::{MemClock, MemFiles, MemLink, MemSink, MemWords};
use std::alloc::Global;
use std::process::Abort;
use std::test::Fail;

/// Which call of each object fails, counted from 1. None does where it is 0.
#[derive(Clone, Copy)]
struct Failing {
    read: u32,
    write: u32,
    file: u32,
    draw: u32,
    diag: u32,
}

const NONE: Failing = Failing {
    read: 0,
    write: 0,
    file: 0,
    draw: 0,
    diag: 0,
};

/// What a run of the program left: its status, what it wrote on the link and on diag, and how often it read
/// the link and asked the files, and what the file `s` holds.
#[derive(Drop)]
struct Ran {
    status: u8,
    link: Octets,
    diag: Octets,
    reads: usize,
    asked: usize,
    store: Option<Octets>,
}

/// A link with this input, of which the first read gives at most `piece` bytes.
fn link_of(alloc: Global, input: &[u8], piece: u32, failing: Failing) -> Result<MemLink, Fail> {
    let pieces = vec![in alloc; piece]?;
    let takes = vec![in alloc; 3]?;
    let failing_reads = vec![in alloc; failing.read]?;
    let failing_writes = vec![in alloc; failing.write]?;
    Ok(MemLink::new(
        alloc,
        Octets::of(alloc, input)?,
        pieces,
        takes,
        failing_reads,
        failing_writes,
        999,
    )?)
}

/// What a file holds, where it is there.
fn file_of(files: &MemFiles, name: &[u8]) -> Result<Option<Octets>, Fail> {
    match files.get(name) {
        Some(text) => Ok(Some(text.copy()?)),
        None => Ok(None),
    }
}

/// The words of a text, between which stands a space each.
fn words_of(alloc: Global, text: &str) -> Result<Vec<String>, Fail> {
    let mut words = Vec::new(alloc);
    for word in text.split(' ') {
        words.push(String::from_str(alloc, word)?)?;
    }
    Ok(words)
}

/// Runs the program over memory. Between the words stands a space each.
fn run_over(
    alloc: Global,
    words: &str,
    link: &mut MemLink,
    contents: Vec<(Octets, Octets)>,
    failing: Failing,
) -> Result<Ran, Fail> {
    let mut files = MemFiles::new(
        alloc,
        contents,
        vec![in alloc; failing.file]?,
        vec![in alloc]?,
    );
    let mut diag = MemSink::new(alloc, vec![in alloc; 5]?, vec![in alloc; failing.diag]?);
    let status = run(
        alloc,
        &words_of(alloc, words)?,
        link,
        &mut files,
        &mut MemClock::new(vec![in alloc; 0]?),
        &mut MemWords::new(vec![in alloc; [0; 16]]?, vec![in alloc; failing.draw]?),
        &mut diag,
    );
    Ok(Ran {
        status,
        link: Octets::of(alloc, link.written())?,
        diag: Octets::of(alloc, diag.written())?,
        reads: link.reads().len(),
        asked: files.asked().len(),
        store: file_of(&files, b"s")?,
    })
}

fn check(rt: &impl Abort, ran: &Ran, status: u8, link: &[u8], diag: &[u8], row: &[u8]) {
    assert_eq!(rt; ran.status, status, "status of {row:?}");
    assert_eq!(rt; ran.link.bytes(), link, "output of {row:?}");
    assert_eq!(rt; ran.diag.bytes(), diag, "diag of {row:?}");
}

#[test]
fn other_words_are_answered_with_usage(rt: HostRuntime) -> Result<(), Fail> {
    let alloc = rt.alloc();
    let lines =
        "\n-\nshow -\nshow x\nShow\nshows\nshow \npipe\npipe a b\npipe a b c d\npipe a  c\npipe a b -c\ncheck a\ncheck a b c\ncheck a -b\nimport a\nimport a b c\npasswd a b c\npasswd a b c md5 d\npasswd a b c MD5\npasswd a b:b c md5\npasswd a b c:c md5\nlisten a b c 127.0.0.1:8080 1 1\nproxy a b 127.0.0.1:8080 1 1\n--help\n\
         disable a b\nenable a b c d\nmigrate\nmigrate a b\nmigrate -a\nmigrate a --rounds=5000\ndisable a b c --rounds=5000\npasswd a b c md5 --rounds=5000\n--rounds=5000 passwd a b c scram-sha-256\npasswd --rounds=5000 a b c scram-sha-256 --rounds=5000\n\
         passwd a b c scram-sha-256 --rounds=4095\npasswd a b c scram-sha-256 --rounds=1000001\npasswd a b c scram-sha-256 --rounds=05000\npasswd a b c scram-sha-256 --rounds=+5000\npasswd a b c scram-sha-256 --rounds=\npasswd a b c scram-sha-256 --rounds\npasswd a b c scram-sha-256 --round=5000\npasswd a b --rounds=5000\npasswd a b  scram-sha-256 --rounds=5000\n\
         drill\ndrill --seed=1\ndrill --steps=1\ndrill --seed=1 --steps=0\ndrill --seed=1 --steps=4097\ndrill --seed=18446744073709551616 --steps=1\ndrill --seed=01 --steps=1\ndrill --seed=+1 --steps=1\ndrill --seed=-1 --steps=1\ndrill --seed= --steps=1\ndrill --seed=1 --steps=\ndrill --seed=1 --steps=01\n\
         drill --seed=1 --seed=2\ndrill --steps=1 --steps=1\ndrill --seed=1 --seed=1 --steps=1\ndrill --seed=1 --steps=1 --steps=1\ndrill --seed=1 --steps=1 a\ndrill a --seed=1 --steps=1\ndrill --seed=1  --steps=1\n--seed=1 drill --steps=1\n--seed=1 --steps=1 drill\ndrill seed=1 --steps=1\ndrill --seed=1 --step=1\ndrill --seed 1 --steps 1\nDrill --seed=1 --steps=1\npipe --seed=1 --steps=1";
    for words in lines.split('\n') {
        let mut link = link_of(alloc, b"a b=c", 2, NONE)?;
        let ran = run_over(alloc, words, &mut link, vec![in alloc]?, NONE)?;
        check(
            &rt,
            &ran,
            2,
            b"",
            b"usage: authd COMMAND WORDS\n",
            words.as_bytes(),
        );
        assert_eq!(rt; (ran.reads, ran.asked), (0, 0), "calls of {words:?}");
    }
    Ok(())
}

#[test]
fn a_fault_of_diag_changes_no_status(rt: HostRuntime) -> Result<(), Fail> {
    let alloc = rt.alloc();
    let failing = Failing { diag: 2, ..NONE };
    let mut link = link_of(alloc, b"", 2, failing)?;
    let ran = run_over(alloc, "pipe", &mut link, vec![in alloc]?, failing)?;
    check(&rt, &ran, 2, b"", b"usage", b"a failing write of diag");
    Ok(())
}
