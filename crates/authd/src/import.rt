//! The command `import`: the secrets of a text of htdigest are taken into a store.
ghost use Rattle.std.specs.Prelude.{◌≡◌, ◌++◌, ◌≤◌, IfErr, IfOk, OnOk, length};
ghost use Rattle.connection_loop.specs.Account.{link_of};
ghost use Rattle.authd.specs.Endings.{LinkFilesSay};
ghost use Rattle.authd.specs.Import.{Imports, LoadsImport, TakesPairs, imported_line};
ghost use Rattle.authd.specs.Saving.{Saves};
ghost use Rattle.origin_core.specs.Outside.{files_state};

use crate::failure::{Failure, Refusal};
use crate::loading::{kept_store, text_of};
use crate::printing::push_number;
use crate::saving::save;
use auth_grammar::{Octets, OutOfMemory};
use auth_io::{Files, Link};
use cred_store::{Store, StoreError};
use std::alloc::Global;

/// A store with the secrets of a text of htdigest, and for how many pairs of a user and a realm it has them.
#[derive(Drop)]
struct Imported {
    store: Store,
    count: u32,
}

/// Takes the secrets of a text of htdigest into a store, which has no entries where it isn't there.
pub(crate) fn import<L: Link, F: Files>(
    alloc: Global,
    store: &[u8],
    htdigest: &[u8],
    link: &mut L,
    files: &mut F,
) -> Result<(), Failure>
    ensures imports { let at = link_of L.left L.given L.written L.reads in
        Imports (files_state F.contents F.asked F.faults) store.now htdigest.now files.old files.new (at link.old) (at link.new) result }
    ensures says { IfErr result
        (LinkFilesSay L.written L.read_faults L.write_faults
        (files_state F.contents F.asked F.faults) link.old link.new files.old files.new) }
{
    let imported = load_imported(alloc, files, store, htdigest)?;
    save_imported(alloc, store, &imported, link, files)
}

/// Reads the store, and then what is to be taken into it.
fn load_imported<F: Files>(
    alloc: Global,
    files: &mut F,
    store: &[u8],
    htdigest: &[u8],
) -> Result<Imported, Failure>
    ensures loads { LoadsImport (files_state F.contents F.asked F.faults) files.old files.new store.now htdigest.now result }
    ensures contents { F.contents files.new ≡ F.contents files.old }
    ensures later { F.faults files.old ≤ F.faults files.new }
{
    let store = kept_store(alloc, files, store)?;
    let text = text_of(files, htdigest, Refusal::HtdigestAbsent)?;
    take_pairs(alloc, store, text.bytes())
}

/// Takes the secrets of a text into a store.
fn take_pairs(alloc: Global, store: Store, text: &[u8]) -> Result<Imported, Failure>
    ensures { TakesPairs text.now store result }
{
    let mut store = store;
    if u32::MAX as usize - (store.entries() as usize) < text.len() {
        return Err(Failure::OutOfMemory);
    }
    match store.import_htdigest(alloc, text) {
        Ok(count) => Ok(Imported { store, count }),
        Err(StoreError::BadLine { line, .. }) => {
            Err(Failure::Refused(Refusal::HtdigestLine { line }))
        }
        Err(_) => Err(Failure::OutOfMemory),
    }
}

/// Saves what was imported.
fn save_imported<L: Link, F: Files>(
    alloc: Global,
    name: &[u8],
    imported: &Imported,
    link: &mut L,
    files: &mut F,
) -> Result<(), Failure>
    ensures saves { let at = files_state F.contents F.asked F.faults in
        let link_at = link_of L.left L.given L.written L.reads in
        Saves (at files.old) (at files.new) name.now imported.now.store (imported_line imported.now.count)
        (link_at link.old) (link_at link.new) result }
    ensures says { IfErr result
        (LinkFilesSay L.written L.read_faults L.write_faults
        (files_state F.contents F.asked F.faults) link.old link.new files.old files.new) }
{
    let line = imported_line(alloc, imported.count)?;
    save(alloc, name, &imported.store, line.bytes(), link, files)
}

/// The line that tells how many pairs were taken.
fn imported_line(alloc: Global, count: u32) -> Result<Octets, OutOfMemory>
    ensures { IfOk result (λ line. line ≡ imported_line count) }
{
    let mut line = Octets::of(alloc, b"imported ")?;
    push_number(&mut line, count as u64)?;
    line.push(b'\n')?;
    Ok(line)
}
