//! Saving a store.
ghost use Rattle.std.specs.Prelude.{◌≡◌, IfErr};
ghost use Rattle.auth_io.specs.declared.files.Replaced.{Replaced as Answer};
ghost use Rattle.connection_loop.specs.Account.{link_of};
ghost use Rattle.authd.specs.Endings.{LinkFilesSay};
ghost use Rattle.authd.specs.Saving.{ReplacesFile, Saves, ending_of};
ghost use Rattle.origin_core.specs.Outside.{files_state};

use crate::failure::{Failure, Fault};
use crate::printing::print;
use auth_io::{Files, Link, Replaced};
use cred_store::Store;
use std::alloc::Global;

/// Replaces the file of a store by its text, and then prints a line.
pub(crate) fn save<L: Link, F: Files>(
    alloc: Global,
    name: &[u8],
    store: &Store,
    line: &[u8],
    link: &mut L,
    files: &mut F,
) -> Result<(), Failure>
    ensures saves { let at = files_state F.contents F.asked F.faults in
        let link_at = link_of L.left L.given L.written L.reads in
        Saves (at files.old) (at files.new) name.now store.now line.now (link_at link.old) (link_at link.new) result }
    ensures says { IfErr result
        (LinkFilesSay L.written L.read_faults L.write_faults
        (files_state F.contents F.asked F.faults) link.old link.new files.old files.new) }
{
    let text = store.write(alloc)?;
    replace(files, name, text.bytes())?;
    print(link, line)
}

/// Replaces a file.
fn replace<F: Files>(files: &mut F, name: &[u8], text: &[u8]) -> Result<(), Failure>
    ensures { let at = files_state F.contents F.asked F.faults in
        (answer : Answer) × ReplacesFile (at files.old) (at files.new) name.now text.now answer × (result ≡ ending_of answer) }
{
    match files.replace(name, text) {
        Replaced::Done => Ok(()),
        Replaced::Failed => Err(Failure::Fault(Fault::File)),
        Replaced::OutOfMemory => Err(Failure::OutOfMemory),
    }
}
