//! Reading the password.
ghost use Rattle.std.specs.Prelude.{◌≡◌, Err, OnOk};
ghost use Rattle.auth_io.specs.Causes.{Rose};
ghost use Rattle.authget.specs.Passwords.{ReadsByte, ReadsLine};

use crate::stop::Stop;
use auth_grammar::{Octets, PASSWORD_LIMIT, without_return};
use auth_io::Source;
use std::alloc::Global;

/// How many bytes are read at most, which are those of the longest password and the end of its line.
const LINE_LIMIT: usize = PASSWORD_LIMIT + 2;

/// Reads a byte of the input, if there is one.
fn read_byte<S: Source>(input: &mut S) -> Result<Option<u8>, Stop>
    ensures byte { ReadsByte (S.left input.old) (S.left input.new) result }
    ensures kept { OnOk result (S.faults input.new ≡ S.faults input.old) }
    ensures fault { result ≡ Err Stop.Fault → Rose (S.faults input.old) (S.faults input.new) }
{
    let mut byte = [0; 1];
    let Ok(count) = input.read(&mut byte) else {
        return Err(Stop::Fault);
    };
    Ok(byte[..count].first().copied())
}

/// Reads the first line of the input, without its end. No more than 130 bytes are read.
pub(crate) fn read_line<S: Source>(alloc: Global, input: &mut S) -> Result<Octets, Stop>
    ensures line { ReadsLine (S.left input.old) (S.left input.new) result }
    ensures kept { OnOk result (S.faults input.new ≡ S.faults input.old) }
    ensures fault { result ≡ Err Stop.Fault → Rose (S.faults input.old) (S.faults input.new) }
{
    let mut line = Octets::new(alloc);
    while line.len() < LINE_LIMIT {
        let Some(byte) = read_byte(input)? else {
            return Ok(line);
        };
        if byte == b'\n' {
            return Ok(Octets::of(alloc, without_return(line.bytes()))?);
        }
        line.push(byte)?;
    }
    Ok(line)
}
