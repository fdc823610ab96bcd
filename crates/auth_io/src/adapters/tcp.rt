//! Connections over TCP.
ghost use Rattle.std.specs.Prelude.{◌≡◌, IfSome, IfOk};

use crate::accept::Accept;
use crate::adapters::counts::{Counts, read_some, write_some};
use crate::stream::{Failed, Link, Wrote};
use std::io::{ErrorKind, Read, Write};
use std::net::{OpenListener, OpenStream, Shutdown};
use std::time::Duration;

/// How many seconds a read or a write waits for a silent peer, before it is a fault of its connection.
pub const SILENCE_SECONDS: u64 = 60;

/// How often, one after the other, a connection may be gone before it was handed out. One more is a fault of handing out.
pub const ACCEPT_TRIES: u32 = 1_000;

/// How many reads of what the peer still sends are made before a connection is closed.
pub const LINGER_READS: u32 = 64;

/// How many bytes each of these reads takes at most.
pub const LINGER_BYTES: usize = 16_384;

/// How many milliseconds each of these reads waits at most.
pub const LINGER_MILLISECONDS: u64 = 100;

/// A connection over a TCP stream. It sends what is written with no delay, and a read or a write that waits for the
/// peer longer than `SILENCE_SECONDS` is a fault.
#[derive(Drop)]
pub struct TcpLink<S> {
    stream: S,
    counts: Counts,
    /// Whether the input has ended or a call has failed, so that no input can be left unread.
    over: bool,
}

impl<S: Read + Write + OpenStream + Drop> TcpLink<S> {
    ghost use Rattle.auth_io.specs.Handing.{has_fault};

    /// An error is the stream's, which refused an option of its socket: the peer may be gone.
    pub fn new(stream: S) -> std::io::Result<TcpLink<S>>
        ensures given { IfOk result (λ link. ⟦<TcpLink<S> as Link>⟧.given link ≡ 0) }
        ensures read_faults { IfOk result (λ link. ⟦<TcpLink<S> as Link>⟧.read_faults link ≡ 0) }
        ensures write_faults { IfOk result (λ link. ⟦<TcpLink<S> as Link>⟧.write_faults link ≡ 0) }
    {
        let silence = Some(Duration::from_secs(SILENCE_SECONDS));
        stream.set_nodelay(true)?;
        stream.set_read_timeout(silence)?;
        stream.set_write_timeout(silence)?;
        Ok(TcpLink {
            stream,
            counts: Counts::new(),
            over: false,
        })
    }

    /// Whether a read or a write of it has failed.
    pub(crate) fn has_fault(&self) -> bool
        ensures { result ≡ has_fault self.now.counts.read_faults self.now.counts.write_faults }
    {
        self.counts.has_fault()
    }

    /// Closes the connection. A system that closes a socket with unread input resets the connection, and the peer may
    /// lose the last reply. So where input may be left, the peer is told that nothing more is written, and what it
    /// still sends is read and dropped, for a bounded number of bytes and a bounded time.
    pub fn close(self) {
        let TcpLink {
            mut stream,
            counts: _,
            over,
        } = self;
        if !over {
            drop_input(&mut stream);
        }
    }
}

/// Ends the output, then reads to the end of the input, or as far as the limits allow.
fn drop_input<S: Read + OpenStream>(stream: &mut S) {
    let wait = Duration::from_millis(LINGER_MILLISECONDS);
    if stream.shutdown(Shutdown::Write).is_err() || stream.set_read_timeout(Some(wait)).is_err() {
        return;
    }
    let mut piece = [0; LINGER_BYTES];
    for _ in 0..LINGER_READS {
        match stream.read(&mut piece) {
            Ok(0) | Err(_) => return,
            Ok(_) => {}
        }
    }
}

impl<S: Read + Write + OpenStream + Drop> Link for TcpLink<S> {
    ghost use Rattle.std.specs.Prelude.{None};

    ghost left = { λ _. None };

    ghost written = { λ _. None };

    ghost given = { λ s. s.counts.given };

    ghost reads = { λ _. None };

    ghost read_faults = { λ s. s.counts.read_faults };

    ghost write_faults = { λ s. s.counts.write_faults };

    fn read(&mut self, into: &mut [u8]) -> Result<usize, Failed> {
        let count = read_some(&mut self.stream, into);
        self.over = self.over || count.unwrap_or(0) == 0;
        self.counts.read(count)
    }

    fn write(&mut self, from: &[u8]) -> Wrote {
        let wrote = write_some(&mut self.stream, from);
        self.over = self.over || wrote == Wrote::Failed;
        self.counts.wrote(wrote)
    }
}

/// Hands out the connections of a listening socket, which several of these may share.
#[derive(Drop)]
pub struct TcpAccept<'l, L> {
    listener: &'l L,
    faults: u64,
    link_faults: u64,
}

impl<'l, L> TcpAccept<'l, L> {
    /// Over a socket that listens already.
    pub fn new(listener: &'l L) -> TcpAccept<'l, L>
        ensures faults { result.faults ≡ 0 }
        ensures link_faults { result.link_faults ≡ 0 }
    {
        TcpAccept {
            listener,
            faults: 0,
            link_faults: 0,
        }
    }
}

/// Whether an error of accepting is that of one connection, whose peer or whose way to it is gone.
fn is_of_one_connection(kind: ErrorKind) -> bool {
    matches!(
        kind,
        ErrorKind::ConnectionAborted
            | ErrorKind::ConnectionReset
            | ErrorKind::Interrupted
            | ErrorKind::HostUnreachable
            | ErrorKind::NetworkUnreachable
            | ErrorKind::NetworkDown
            | ErrorKind::TimedOut
    )
}

/// The next connection that is still there, or None where the listening socket failed.
fn next_link<L: OpenListener>(listener: &L) -> Option<TcpLink<L::Stream>>
where
    L::Stream: Read + Write + OpenStream,
    ensures read_faults { IfSome result (λ link. ⟦<TcpLink<L::Stream> as Link>⟧.read_faults link ≡ 0) }
    ensures write_faults { IfSome result (λ link. ⟦<TcpLink<L::Stream> as Link>⟧.write_faults link ≡ 0) }
{
    for _ in 0..ACCEPT_TRIES {
        match listener.accept() {
            Ok((stream, _)) => {
                if let Ok(link) = TcpLink::new(stream) {
                    return Some(link);
                }
            }
            Err(error) if is_of_one_connection(error.kind()) => {}
            Err(_) => return None,
        }
    }
    None
}

impl<'l, L: OpenListener> Accept for TcpAccept<'l, L>
where
    L::Stream: Read + Write + OpenStream,
{
    ghost use Rattle.std.specs.Prelude.{None};

    type In = TcpLink<L::Stream>;

    ghost coming = { λ _. None };

    ghost handed = { λ _. None };

    ghost faults = { λ s. s.faults };

    ghost link_faults = { λ s. s.link_faults };

    fn accept(&mut self) -> Result<TcpLink<L::Stream>, Failed> {
        match next_link(self.listener) {
            Some(link) => Ok(link),
            None => {
                self.faults = self.faults.saturating_add(1);
                Err(Failed)
            }
        }
    }

    fn done(&mut self, link: TcpLink<L::Stream>) {
        if link.has_fault() {
            self.link_faults = self.link_faults.saturating_add(1);
        }
        link.close();
    }
}
