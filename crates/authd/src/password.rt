//! Reading a password.
ghost use Rattle.std.specs.Prelude.{◌≡◌, ◌≤◌, Err};
ghost use Rattle.auth_io.specs.Causes.{Rose};
ghost use Rattle.authd.specs.Passwords.{ReadsByte, ReadsLine, ReadsPassword};

use crate::failure::{Failure, Fault};
use auth_grammar::{Octets, PASSWORD_LIMIT, is_password, without_return};
use auth_io::Link;
use std::alloc::Global;

/// How many bytes are read at most, which are those of the longest password and the end of its line.
const LINE_LIMIT: usize = PASSWORD_LIMIT + 2;

/// Reads a byte of the input, if there is one.
fn read_byte<L: Link>(link: &mut L) -> Result<Option<u8>, Failure>
    ensures byte { ReadsByte (L.left link.old) (L.left link.new) result }
    ensures written { L.written link.new ≡ L.written link.old }
    ensures write_faults { L.write_faults link.new ≡ L.write_faults link.old }
    ensures later { L.read_faults link.old ≤ L.read_faults link.new }
    ensures fault { result ≡ Err (Failure.Fault Fault.Read) → Rose (L.read_faults link.old) (L.read_faults link.new) }
{
    let mut byte = [0; 1];
    let Ok(count) = link.read(&mut byte) else {
        return Err(Failure::Fault(Fault::Read));
    };
    Ok(byte[..count].first().copied())
}

/// Reads the first line of the input, without its end. No more than 130 bytes are read.
fn read_line<L: Link>(alloc: Global, link: &mut L) -> Result<Octets, Failure>
    ensures line { ReadsLine (L.left link.old) (L.left link.new) result }
    ensures written { L.written link.new ≡ L.written link.old }
    ensures write_faults { L.write_faults link.new ≡ L.write_faults link.old }
    ensures later { L.read_faults link.old ≤ L.read_faults link.new }
    ensures fault { result ≡ Err (Failure.Fault Fault.Read) → Rose (L.read_faults link.old) (L.read_faults link.new) }
{
    let mut line = Octets::new(alloc);
    while line.len() < LINE_LIMIT {
        let Some(byte) = read_byte(link)? else {
            return Ok(line);
        };
        if byte == b'\n' {
            return Ok(Octets::of(alloc, without_return(line.bytes()))?);
        }
        line.push(byte)?;
    }
    Ok(line)
}

/// Reads the password that the first line of the input is. `Usage` comes exactly where it isn't 1 to 128 printable bytes.
pub(crate) fn read_password<L: Link>(alloc: Global, link: &mut L) -> Result<Octets, Failure>
    ensures password { ReadsPassword (L.left link.old) (L.left link.new) result }
    ensures written { L.written link.new ≡ L.written link.old }
    ensures write_faults { L.write_faults link.new ≡ L.write_faults link.old }
    ensures fault { result ≡ Err (Failure.Fault Fault.Read) → Rose (L.read_faults link.old) (L.read_faults link.new) }
{
    let line = read_line(alloc, link)?;
    if !is_password(line.bytes()) {
        return Err(Failure::Usage);
    }
    Ok(line)
}
