//! Reading.
ghost use Rattle.std.specs.Prelude.{◌≡◌, ◌∷◌, [], ◌++◌, ◌≤◌, ◌+◌, ℕ, List, Ok, Err, OnOk, length, false};
ghost use Rattle.std.specs.List.{AllByRecursion};
ghost use Rattle.auth_io.specs.Causes.{Rose};
ghost use Rattle.connection_loop.specs.Account.{LinkPassed, link_of};
ghost use Rattle.connection_loop.specs.Steps.{IsBetween, ReadsPiece, ReadsWaiting, Finds};

use crate::sending::write_all;
use crate::served::ServeError;
use auth_io::Link;
use http_wire::{Next, Request, RequestFeed, continue_text};

/// What came over the connection.
#[derive(Drop)]
pub enum Arrived {
    Message(Request),
    Bad { status: u16 },
    /// The input ended, and no whole message stands there.
    NoMore,
}

/// How many bytes one read takes at most.
pub const PIECE_BYTES: usize = 4096;

/// Memory for one read, which all reads of a connection share.
pub type Piece = [u8; PIECE_BYTES];

/// Reads a piece of the input into the feed. Whether there was any.
fn read_piece<L: Link>(
    link: &mut L,
    feed: &mut RequestFeed,
    piece: &mut Piece,
) -> Result<bool, ServeError>
    requires going { feed.old.stopped ≡ false }
    requires within { feed.old.at + length feed.old.rest ≤ L.given link.old }
    ensures piece { let at = link_of L.left L.given L.written L.reads in ReadsPiece (at link.old) (at link.new) feed.old feed.new result }
    ensures read_later { L.read_faults link.old ≤ L.read_faults link.new }
    ensures write_faults { L.write_faults link.new ≡ L.write_faults link.old }
    ensures fault { result ≡ Err ServeError.ReadFault → Rose (L.read_faults link.old) (L.read_faults link.new) }
{
    let Ok(count) = link.read(piece) else {
        return Err(ServeError::ReadFault);
    };
    feed.push(&piece[..count])?;
    Ok(count > 0)
}

/// Reads on until a message stands at the front of the input, or none can. A Continue that is due is written on the way.
pub fn next_message<L: Link>(
    link: &mut L,
    feed: &mut RequestFeed,
    piece: &mut Piece,
) -> Result<Arrived, ServeError>
    requires between { IsBetween feed.old }
    requires within { feed.old.at + length feed.old.rest ≤ L.given link.old }
    ensures reads { let at = link_of L.left L.given L.written L.reads in
        (got : List ℕ) × (put : List ℕ) × (reads : List (ℕ × ℕ))
        × LinkPassed (at link.old) (at link.new) got put reads
        × AllByRecursion (ReadsWaiting feed.old.rest got put) reads
        × Finds (feed.old.rest ++ got) feed.old.at put feed.new (L.left link.new) result }
    ensures within { OnOk result (feed.new.at + length feed.new.rest ≤ L.given link.new) }
    ensures read_later { L.read_faults link.old ≤ L.read_faults link.new }
    ensures write_later { L.write_faults link.old ≤ L.write_faults link.new }
    ensures fault { result ≡ Err ServeError.ReadFault → Rose (L.read_faults link.old) (L.read_faults link.new) }
    ensures write_fault { result ≡ Err ServeError.WriteFault → Rose (L.write_faults link.old) (L.write_faults link.new) }
{
    'message: loop {
        match feed.next() {
            Next::Message(request) => return Ok(Arrived::Message(request)),
            Next::Continue => write_all(link, continue_text())?,
            Next::NeedMore => {
                if !read_piece(link, feed, piece)? {
                    return Ok(Arrived::NoMore);
                }
            }
            Next::Bad { status, .. } => return Ok(Arrived::Bad { status }),
            Next::OutOfMemory => return Err(ServeError::OutOfMemory),
        }
    }
}
