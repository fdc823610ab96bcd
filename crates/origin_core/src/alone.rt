//! Serving one connection with a table of its own.
ghost use Rattle.std.specs.Prelude.{◌≡◌, ◌≢◌, ◌≤◌, ℕ, []};
ghost use Rattle.auth_io.specs.Causes.{Rose};
ghost use Rattle.connection_loop.specs.Account.{link_of};
ghost use Rattle.nonce_shard.specs.Journal.{seat_of};
ghost use Rattle.origin_core.specs.Admissions.{ServesConnection};
ghost use Rattle.origin_core.specs.Outside.{outside_at};
ghost use Rattle.request_deciding.specs.Serving.{server};

use crate::serving::serve_connection;
use auth_decide::Site;
use auth_io::{Clock, Files, Link, Words};
use connection_loop::{ServeError, Served};
use nonce_shard::JournalTable;
use std::alloc::Global;

/// How many calls of the nonce table one connection can make: three for each of its 4096 requests.
pub const CONNECTION_CALLS: u32 = 12_288;

/// Serves one connection as `serve_connection` does, with a new table that nobody else uses. It has room for all calls
/// that a connection can make, so it is never worn.
pub fn serve_alone<L: Link, F: Files, C: Clock, W: Words>(
    alloc: Global,
    link: &mut L,
    files: &mut F,
    clock: &mut C,
    random: &mut W,
    table: &mut JournalTable,
    site: &Site,
) -> Result<Served, ServeError>
    requires new { table.old.calls ≡ [] }
    requires room { CONNECTION_CALLS ≤ table.old.limit }
    ensures serves { let link_at = link_of L.left L.given L.written L.reads in
        let at = outside_at F.contents F.asked F.faults W.drawn W.faults seat_of in
        ServesConnection (at files.old random.old table.old) (at files.new random.new table.new) (link_at link.old) (link_at link.new)
        (C.shown clock.old) (C.shown clock.new) (server site.now 1) result }
    ensures never_worn { (calls : ℕ) → result ≢ Err (ServeError.Worn calls) }
    ensures read_fault { result ≡ Err ServeError.ReadFault → Rose (L.read_faults link.old) (L.read_faults link.new) }
    ensures write_fault { result ≡ Err ServeError.WriteFault → Rose (L.write_faults link.old) (L.write_faults link.new) }
{
    serve_connection(alloc, link, files, clock, random, table, site)
}
