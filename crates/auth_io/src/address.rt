//! Addresses: a host and a port (RFC 9110 section 4.2).
ghost use Rattle.std.specs.Prelude.{◌≡◌};
ghost use Rattle.std.specs.List.{list_all};
ghost use Rattle.auth_io.specs.Addresses.{is_address, is_host, is_host_byte, is_port};

use auth_grammar::{after_first, before_first, number_in};

/// A letter, a digit, `.` or `-`, as names of hosts and addresses in dots have them.
fn is_host_byte(byte: u8) -> bool
    ensures { result ≡ is_host_byte byte }
{
    byte.is_ascii_uppercase()
        || byte.is_ascii_lowercase()
        || byte.is_ascii_digit()
        || byte == b'.'
        || byte == b'-'
}

fn has_host_bytes(host: &[u8]) -> bool
    ensures { result ≡ list_all is_host_byte host.now }
{
    host.iter().all(|&byte| is_host_byte(byte))
}

/// Whether a text is the name of a host, or an address in dots: one or more letters, digits, `.` and `-`.
pub fn is_host(host: &[u8]) -> bool
    ensures { result ≡ is_host host.now }
{
    !host.is_empty() && has_host_bytes(host)
}

/// Whether it is a port of 1 to 65535.
fn is_port(port: &[u8]) -> bool
    ensures { result ≡ is_port port.now }
{
    number_in(1, 65_535, port).is_some()
}

/// Whether a text is a host, a colon, and a port of 1 to 65535 with no leading zero.
pub fn is_address(text: &[u8]) -> bool
    ensures { result ≡ is_address text.now }
{
    is_host(before_first(text, b':')) && is_port(after_first(text, b':'))
}
