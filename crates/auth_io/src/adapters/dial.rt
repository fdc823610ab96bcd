//! Connections that are made over TCP.
ghost use Rattle.std.specs.Prelude.{◌≡◌, IfOk};

use crate::adapters::tcp::TcpLink;
use crate::dial::{Dial, DialFault};
use crate::stream::Link;
use std::io::{self, ErrorKind};
use std::net::{HostAddrs, Net, SocketAddr, TcpStream, ToSocketAddrs};
use std::time::Duration;

/// The port of an authority that spells none (RFC 9110 section 4.2.1).
pub const DEFAULT_PORT: u16 = 80;

/// How many addresses of a host are tried.
pub const CONNECT_TRIES: usize = 3;

/// How many seconds each of them has to answer, so that a dial takes at most 30.
pub const CONNECT_SECONDS: u64 = 10;

/// Makes connections to authorities, whose hosts are looked up by the system.
#[derive(Drop)]
pub struct TcpDial<'r, R> {
    net: &'r R,
    faults: u64,
    link_faults: u64,
}

impl<'r, R> TcpDial<'r, R> {
    /// Over the system's network. Nothing was dialled.
    pub fn new(net: &'r R) -> TcpDial<'r, R>
        ensures faults { result.faults ≡ 0 }
        ensures link_faults { result.link_faults ≡ 0 }
    {
        TcpDial {
            net,
            faults: 0,
            link_faults: 0,
        }
    }
}

/// Why nobody was reached.
#[derive(Clone, Copy)]
enum Unreached {
    Failed,
    Memory,
}

impl From<io::Error> for Unreached {
    fn from(error: io::Error) -> Unreached {
        match error.kind() {
            ErrorKind::OutOfMemory => Unreached::Memory,
            _ => Unreached::Failed,
        }
    }
}

/// The port that digits spell, and the usual one where there are none (RFC 3986 section 3.2.3).
fn port_of(digits: &str) -> Result<u16, Unreached> {
    if digits.is_empty() {
        return Ok(DEFAULT_PORT);
    }
    if !digits.as_bytes().iter().all(|byte| byte.is_ascii_digit()) {
        return Err(Unreached::Failed);
    }
    digits.parse().map_err(|_| Unreached::Failed)
}

/// The addresses of an authority.
fn addresses_of<R: Net>(net: &R, authority: &str) -> Result<HostAddrs, Unreached> {
    match authority.rsplit_once(':') {
        Some((host, port)) => Ok((host, port_of(port)?).to_socket_addrs(net)?),
        None => Ok((authority, DEFAULT_PORT).to_socket_addrs(net)?),
    }
}

fn connect_to<R: Net>(net: &R, address: &SocketAddr) -> Result<TcpLink<R::Stream>, Unreached>
    ensures read_faults { IfOk result (λ link. ⟦<TcpLink<R::Stream> as Link>⟧.read_faults link ≡ 0) }
    ensures write_faults { IfOk result (λ link. ⟦<TcpLink<R::Stream> as Link>⟧.write_faults link ≡ 0) }
{
    let limit = Duration::from_secs(CONNECT_SECONDS);
    let stream = TcpStream::connect_timeout(net, address, limit)?;
    Ok(TcpLink::new(stream)?)
}

/// A connection to the first address of this authority that answers.
fn connect<R: Net>(net: &R, authority: &[u8]) -> Result<TcpLink<R::Stream>, Unreached>
    ensures read_faults { IfOk result (λ link. ⟦<TcpLink<R::Stream> as Link>⟧.read_faults link ≡ 0) }
    ensures write_faults { IfOk result (λ link. ⟦<TcpLink<R::Stream> as Link>⟧.write_faults link ≡ 0) }
{
    let text = str::from_utf8(authority).map_err(|_| Unreached::Failed)?;
    for address in addresses_of(net, text)?.take(CONNECT_TRIES) {
        match connect_to(net, &address) {
            Ok(link) => return Ok(link),
            Err(Unreached::Memory) => return Err(Unreached::Memory),
            Err(Unreached::Failed) => {}
        }
    }
    Err(Unreached::Failed)
}

impl<'r, R: Net> Dial for TcpDial<'r, R> {
    ghost use Rattle.std.specs.Prelude.{None};

    type Out = TcpLink<R::Stream>;

    ghost dialled = { λ _. None };

    ghost coming = { λ _. None };

    ghost handed = { λ _. None };

    ghost faults = { λ s. s.faults };

    ghost link_faults = { λ s. s.link_faults };

    fn dial(&mut self, authority: &[u8]) -> Result<TcpLink<R::Stream>, DialFault> {
        match connect(self.net, authority) {
            Ok(link) => Ok(link),
            Err(Unreached::Memory) => Err(DialFault::OutOfMemory),
            Err(Unreached::Failed) => {
                self.faults = self.faults.saturating_add(1);
                Err(DialFault::Failed)
            }
        }
    }

    fn done(&mut self, link: TcpLink<R::Stream>) {
        if link.has_fault() {
            self.link_faults = self.link_faults.saturating_add(1);
        }
        link.close();
    }
}
