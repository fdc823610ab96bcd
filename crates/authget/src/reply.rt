//! Reading the reply to a request.
ghost use Rattle.std.specs.Prelude.{◌≡◌, ◌≤◌, Err, OnOk};
ghost use Rattle.auth_io.specs.Causes.{Rose};
ghost use Rattle.authget.specs.Replies.{ReadsPiece, ReadsReply, told};

use crate::stop::Stop;
use auth_io::Link;
use http_wire::{NextResponse, Response, ResponseFeed};
use std::alloc::Global;

/// How many bytes are read at a time.
const PIECE: usize = 4_096;

/// Reads a piece of the reply into the feed. Whether there was any.
fn read_piece<L: Link>(link: &mut L, feed: &mut ResponseFeed) -> Result<bool, Stop>
    requires { feed.old.count ≤ L.given link.old }
    ensures piece { ReadsPiece feed.old feed.new (L.left link.old) (L.left link.new) (L.given link.old) (L.given link.new) result }
    ensures written { L.written link.new ≡ L.written link.old }
    ensures write_faults { L.write_faults link.new ≡ L.write_faults link.old }
    ensures kept { OnOk result (L.read_faults link.new ≡ L.read_faults link.old) }
    ensures fault { result ≡ Err Stop.Fault → Rose (L.read_faults link.old) (L.read_faults link.new) }
{
    let mut piece = [0; PIECE];
    let Ok(count) = link.read(&mut piece) else {
        return Err(Stop::Fault);
    };
    feed.push(&piece[..count])?;
    Ok(count > 0)
}

/// The reply where a feed gives this at the end of the bytes.
fn reply_of(next: NextResponse) -> Result<Option<Response>, Stop>
    ensures { result ≡ told next }
{
    match next {
        NextResponse::Message(response) => Ok(Some(response)),
        NextResponse::Bad { .. } | NextResponse::NeedMore => Ok(None),
        NextResponse::OutOfMemory => Err(Stop::OutOfMemory),
    }
}

/// Reads the reply to a request that was sent. None where what comes is no response, or ends inside one.
pub(crate) fn read_reply<L: Link>(alloc: Global, link: &mut L) -> Result<Option<Response>, Stop>
    ensures reply { ReadsReply (L.left link.old) (L.left link.new) result }
    ensures written { L.written link.new ≡ L.written link.old }
    ensures write_faults { L.write_faults link.new ≡ L.write_faults link.old }
    ensures kept { OnOk result (L.read_faults link.new ≡ L.read_faults link.old) }
    ensures fault { result ≡ Err Stop.Fault → Rose (L.read_faults link.old) (L.read_faults link.new) }
{
    let mut feed = ResponseFeed::new(alloc, false);
    'reply: loop {
        match feed.next() {
            NextResponse::NeedMore => {
                if !read_piece(link, &mut feed)? {
                    return reply_of(feed.finish());
                }
            }
            NextResponse::Message(response) => return Ok(Some(response)),
            NextResponse::Bad { .. } => return Ok(None),
            NextResponse::OutOfMemory => return Err(Stop::OutOfMemory),
        }
    }
}
