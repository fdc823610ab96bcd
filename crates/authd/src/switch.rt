//! The commands `disable` and `enable`: the secrets of a name in a realm are switched off and on.
ghost use Rattle.std.specs.Prelude.{◌≡◌, ◌≤◌, IfErr, IfOk, count_by};
ghost use Rattle.connection_loop.specs.Account.{link_of};
ghost use Rattle.cred_store.specs.Changes.{with_flag};
ghost use Rattle.cred_store.specs.LookUps.{is_of};
ghost use Rattle.authd.specs.Endings.{LinkFilesSay};
ghost use Rattle.authd.specs.Switch.{SavesSome, Switches, switched_line};
ghost use Rattle.origin_core.specs.Outside.{files_state};

use crate::command::Holder;
use crate::failure::{Failure, numbered_line};
use crate::loading::store_of;
use crate::printing::print;
use crate::saving::save;
use auth_grammar::{Octets, OutOfMemory};
use auth_io::{Files, Link};
use cred_store::Store;
use std::alloc::Global;

/// Gives the entries of a name in a realm the flag, and prints how many they are. Where there are none the file stays.
pub(crate) fn switch<L: Link, F: Files>(
    alloc: Global,
    holder: &Holder<'_>,
    on: bool,
    link: &mut L,
    files: &mut F,
) -> Result<(), Failure>
    ensures switches { let at = link_of L.left L.given L.written L.reads in
        Switches (files_state F.contents F.asked F.faults) holder.now.store.now holder.now.name.now holder.now.realm.now on
        files.old files.new (at link.old) (at link.new) result }
    ensures says { IfErr result
        (LinkFilesSay L.written L.read_faults L.write_faults
        (files_state F.contents F.asked F.faults) link.old link.new files.old files.new) }
{
    let mut store = store_of(alloc, files, holder.store)?;
    let count = store.set_enabled(holder.name, holder.realm, on);
    let line = switched_line(alloc, on, count)?;
    save_some(
        alloc,
        holder.store,
        &store,
        count,
        line.bytes(),
        link,
        files,
    )
}

/// Saves a store of which so many entries were changed, where there are some, and prints the line.
fn save_some<L: Link, F: Files>(
    alloc: Global,
    name: &[u8],
    store: &Store,
    count: u32,
    line: &[u8],
    link: &mut L,
    files: &mut F,
) -> Result<(), Failure>
    ensures saves { let at = link_of L.left L.given L.written L.reads in
        SavesSome (files_state F.contents F.asked F.faults) files.old files.new name.now count store.now line.now
        (at link.old) (at link.new) result }
    ensures says { IfErr result
        (LinkFilesSay L.written L.read_faults L.write_faults
        (files_state F.contents F.asked F.faults) link.old link.new files.old files.new) }
{
    if count == 0 {
        return print(link, line);
    }
    save(alloc, name, store, line, link, files)
}

/// The line that tells how many entries were given the flag.
fn switched_line(alloc: Global, on: bool, count: u32) -> Result<Octets, OutOfMemory>
    ensures { IfOk result (λ line. line ≡ switched_line on count) }
{
    if on {
        return numbered_line(alloc, b"enabled ", count as u64);
    }
    numbered_line(alloc, b"disabled ", count as u64)
}
