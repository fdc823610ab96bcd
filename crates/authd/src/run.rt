//! All of the program that waits for nobody.
ghost use Rattle.std.specs.Prelude.{◌≡◌, ℕ, IfErr, OnErr, OnOk, map, string_bytes, take};
ghost use Rattle.std.specs.Io.KnownBytes.{Appends};
ghost use Rattle.connection_loop.specs.Account.{link_of};
ghost use Rattle.authd.specs.Endings.{Ending, FailureSays, IsRefusal, Reports, Tells, line_of};
ghost use Rattle.authd.specs.Options.{asked_for};
ghost use Rattle.authd.specs.Outside.{IsUntouched, SomeRose, objects, views};
ghost use Rattle.origin_core.specs.Outside.{files_state};
ghost use Rattle.authd.specs.Run.{Does};

use crate::check::check;
use crate::command::Command;
use crate::drilling::print_drill;
use crate::failure::Failure;
use crate::import::import;
use crate::migrate::migrate;
use crate::options::asked_for;
use crate::passwd::passwd;
use crate::pipe::pipe;
use crate::printing::tell;
use crate::show::show;
use crate::switch::switch;
use auth_grammar::OutOfMemory;
use auth_io::{Clock, Files, Link, Sink, Words};
use std::alloc::Global;

/// Does what the words ask for, over these objects, and answers the exit status. The words don't include the
/// program's name. A failure of status 2, 3 or 5 is told by a line on `diag`, whose own faults change nothing.
pub fn run<L: Link, F: Files, C: Clock, W: Words, D: Sink>(
    alloc: Global,
    words: &Vec<String>,
    link: &mut L,
    files: &mut F,
    clock: &mut C,
    random: &mut W,
    diag: &mut D,
) -> u8
    // What the words ask for is done, with some ending, which the status and the line on diag tell. A fault that ends it has
    // its own cause.
    ensures does { let v = views (link_of L.left L.given L.written L.reads) L.read_faults L.write_faults
        (files_state F.contents F.asked F.faults) C.shown W.drawn W.faults in
        let before = objects link.old files.old clock.old random.old in
        let now = objects link.new files.new clock.new random.new in
        (ending : Ending) × Does v (asked_for (map string_bytes words.now.items)) before now ending × IfErr ending (FailureSays v before now)
        × Reports ending (D.written diag.old) (D.written diag.new) (D.faults diag.old) (D.faults diag.new) result }

    // Where the words, the input or a file is refused nothing is written, and no file changes.
    ensures refused { let v = views (link_of L.left L.given L.written L.reads) L.read_faults L.write_faults
        (files_state F.contents F.asked F.faults) C.shown W.drawn W.faults in
        IsRefusal result
        → IsUntouched v (objects link.old files.old clock.old random.old) (objects link.new files.new clock.new random.new) }

    // No fault is answered without its cause.
    ensures fault { let v = views (link_of L.left L.given L.written L.reads) L.read_faults L.write_faults
        (files_state F.contents F.asked F.faults) C.shown W.drawn W.faults in
        result ≡ 4 → SomeRose v (objects link.old files.old clock.old random.old) (objects link.new files.new clock.new random.new) }
{
    let ending = perform(alloc, words.as_slice(), link, files, clock, random);
    report(alloc, ending, diag)
}

/// Does what the words ask for.
fn perform<L: Link, F: Files, C: Clock, W: Words>(
    alloc: Global,
    words: &[String],
    link: &mut L,
    files: &mut F,
    clock: &mut C,
    random: &mut W,
) -> Result<(), Failure>
    ensures does { let v = views (link_of L.left L.given L.written L.reads) L.read_faults L.write_faults
        (files_state F.contents F.asked F.faults) C.shown W.drawn W.faults in
        Does v (asked_for (map string_bytes words.now)) (objects link.old files.old clock.old random.old)
        (objects link.new files.new clock.new random.new) result }
    ensures says { let v = views (link_of L.left L.given L.written L.reads) L.read_faults L.write_faults
        (files_state F.contents F.asked F.faults) C.shown W.drawn W.faults in
        IfErr result (FailureSays v (objects link.old files.old clock.old random.old) (objects link.new files.new clock.new random.new)) }
{
    match asked_for(words) {
        // `listen` and `proxy` are done over workers
        Command::Usage | Command::Listen(_) | Command::Proxy(_) => Err(Failure::Usage),
        Command::Show => show(alloc, link),
        Command::Pipe(place) => pipe(alloc, &place, link, files, clock, random),
        Command::Check { store, spaces } => check(alloc, store, spaces, link, files),
        Command::Import { store, htdigest } => import(alloc, store, htdigest, link, files),
        Command::Passwd(account) => passwd(alloc, &account, link, files, random),
        Command::Switch { holder, on } => switch(alloc, &holder, on, link, files),
        Command::Migrate { store } => migrate(alloc, store, link, files),
        Command::Drill(plan) => print_drill(alloc, plan, link),
    }
}

/// Tells a failure, and answers the exit status.
pub(crate) fn report<D: Sink>(alloc: Global, ending: Result<(), Failure>, diag: &mut D) -> u8
    ensures { Reports ending (D.written diag.old) (D.written diag.new) (D.faults diag.old) (D.faults diag.new) result }
{
    let Err(failure) = ending else {
        return 0;
    };
    match tell_failure(alloc, failure, diag) {
        Ok(()) => failure.status(),
        Err(OutOfMemory) => 7,
    }
}

/// Writes the line of a failure.
fn tell_failure<D: Sink>(alloc: Global, failure: Failure, diag: &mut D) -> Result<(), OutOfMemory>
    ensures ok { OnOk result (Tells (D.written diag.old) (D.written diag.new) (D.faults diag.old) (D.faults diag.new) (line_of failure)) }
    ensures err { OnErr result ((n : ℕ) × Appends (D.written diag.old) (D.written diag.new) (take n (line_of failure))) }
{
    let line = failure.line(alloc)?;
    tell(diag, line.bytes())
}
