//! The command `pipe`: one connection is served.
ghost use Rattle.std.specs.Prelude.{◌≡◌, IfErr, IfOk};
ghost use Rattle.connection_loop.specs.Account.{link_of};
ghost use Rattle.authd.specs.Endings.{FailureSays};
ghost use Rattle.authd.specs.Outside.{objects, views};
ghost use Rattle.origin_core.specs.Outside.{files_state};
ghost use Rattle.authd.specs.Pipe.{Pipes, ServesSite, fresh_table};

use crate::command::Place;
use crate::failure::Failure;
use crate::loading::site_of;
use auth_decide::Site;
use auth_io::{Clock, Files, Link, Words};
use nonce_shard::{JournalTable, Sizes};
use origin_core::{CONNECTION_CALLS, serve_alone};
use std::alloc::Global;

/// Serves one connection by the site at a place.
pub(crate) fn pipe<L: Link, F: Files, C: Clock, W: Words>(
    alloc: Global,
    place: &Place<'_>,
    link: &mut L,
    files: &mut F,
    clock: &mut C,
    random: &mut W,
) -> Result<(), Failure>
    ensures pipes { let v = views (link_of L.left L.given L.written L.reads) L.read_faults L.write_faults
        (files_state F.contents F.asked F.faults) C.shown W.drawn W.faults in
        Pipes v place.now.store.now place.now.spaces.now place.now.root.now
        (objects link.old files.old clock.old random.old) (objects link.new files.new clock.new random.new) result }
    ensures says { let v = views (link_of L.left L.given L.written L.reads) L.read_faults L.write_faults
        (files_state F.contents F.asked F.faults) C.shown W.drawn W.faults in
        IfErr result (FailureSays v (objects link.old files.old clock.old random.old) (objects link.new files.new clock.new random.new)) }
{
    let site = site_of(alloc, files, place)?;
    serve(alloc, &site, link, files, clock, random)
}

/// A table for one connection.
fn open_table(alloc: Global) -> Result<JournalTable, Failure>
    ensures ok { IfOk result (λ table. table ≡ fresh_table) }
    ensures err { IfErr result (λ failure. failure ≡ Failure.OutOfMemory) }
{
    match JournalTable::open(alloc, CONNECTION_CALLS, &Sizes::single()) {
        Ok(table) => Ok(table),
        Err(_) => Err(Failure::OutOfMemory),
    }
}

/// Serves one connection by a site.
fn serve<L: Link, F: Files, C: Clock, W: Words>(
    alloc: Global,
    site: &Site,
    link: &mut L,
    files: &mut F,
    clock: &mut C,
    random: &mut W,
) -> Result<(), Failure>
    ensures serves { let v = views (link_of L.left L.given L.written L.reads) L.read_faults L.write_faults
        (files_state F.contents F.asked F.faults) C.shown W.drawn W.faults in
        ServesSite v site.now (objects link.old files.old clock.old random.old) (objects link.new files.new clock.new random.new) result }
    ensures says { let v = views (link_of L.left L.given L.written L.reads) L.read_faults L.write_faults
        (files_state F.contents F.asked F.faults) C.shown W.drawn W.faults in
        IfErr result (FailureSays v (objects link.old files.old clock.old random.old) (objects link.new files.new clock.new random.new)) }
{
    let mut table = open_table(alloc)?;
    serve_alone(alloc, link, files, clock, random, &mut table, site)?;
    Ok(())
}
