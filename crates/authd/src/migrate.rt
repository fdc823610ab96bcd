//! The command `migrate`: a store is written again, in the last version of its text.
ghost use Rattle.std.specs.Prelude.{◌≡◌, IfErr, IfOk, length};
ghost use Rattle.connection_loop.specs.Account.{link_of};
ghost use Rattle.authd.specs.Endings.{LinkFilesSay};
ghost use Rattle.authd.specs.Migrate.{Migrates};
ghost use Rattle.origin_core.specs.Outside.{files_state};

use crate::failure::{Failure, numbered_line};
use crate::loading::store_of;
use crate::saving::save;
use auth_io::{Files, Link};
use std::alloc::Global;

/// Reads a store and saves it, and prints how many entries it has.
pub(crate) fn migrate<L: Link, F: Files>(
    alloc: Global,
    name: &[u8],
    link: &mut L,
    files: &mut F,
) -> Result<(), Failure>
    ensures migrates { let at = link_of L.left L.given L.written L.reads in
        Migrates (files_state F.contents F.asked F.faults) name.now files.old files.new (at link.old) (at link.new) result }
    ensures says { IfErr result
        (LinkFilesSay L.written L.read_faults L.write_faults
        (files_state F.contents F.asked F.faults) link.old link.new files.old files.new) }
{
    let store = store_of(alloc, files, name)?;
    let line = numbered_line(alloc, b"migrated ", store.entries() as u64)?;
    save(alloc, name, &store, line.bytes(), link, files)
}
