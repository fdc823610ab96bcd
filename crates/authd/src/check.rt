//! The command `check`: how many secrets and spaces there are.
ghost use Rattle.std.specs.Prelude.{◌≡◌, ◌++◌, Err, IfErr, IfOk, OnOk, length};
ghost use Rattle.connection_loop.specs.Account.{link_of};
ghost use Rattle.authd.specs.Check.{Checks, PrintsCounts, counts_line};
ghost use Rattle.authd.specs.Endings.{LinkFilesSay};
ghost use Rattle.origin_core.specs.Outside.{files_state};

use crate::command::Place;
use crate::failure::Failure;
use crate::loading::site_of;
use crate::printing::{print, push_number};
use auth_decide::Site;
use auth_grammar::{Octets, OutOfMemory};
use auth_io::{Files, Link};
use std::alloc::Global;

/// Reads a store and spaces, and prints how many entries the one has and how many the other.
pub(crate) fn check<L: Link, F: Files>(
    alloc: Global,
    store: &[u8],
    spaces: &[u8],
    link: &mut L,
    files: &mut F,
) -> Result<(), Failure>
    ensures checks { let at = link_of L.left L.given L.written L.reads in
        Checks (files_state F.contents F.asked F.faults) store.now spaces.now files.old files.new (at link.old) (at link.new) result }
    ensures says { IfErr result
        (LinkFilesSay L.written L.read_faults L.write_faults
        (files_state F.contents F.asked F.faults) link.old link.new files.old files.new) }
{
    let place = Place {
        store,
        spaces,
        root: b"",
    };
    let site = site_of(alloc, files, &place)?;
    let line = counts_line(alloc, &site)?;
    print(link, line.bytes())
}

/// The line that tells the counts of a site.
fn counts_line(alloc: Global, site: &Site) -> Result<Octets, OutOfMemory>
    ensures { IfOk result (λ line. line ≡ counts_line (length site.now.store) (length site.now.spaces)) }
{
    let mut line = Octets::of(alloc, b"store ")?;
    push_number(&mut line, site.store.entries() as u64)?;
    line.extend(b" spaces ")?;
    push_number(&mut line, site.spaces.count() as u64)?;
    line.push(b'\n')?;
    Ok(line)
}
