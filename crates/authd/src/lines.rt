//! The lines of a text.
ghost use Rattle.std.specs.Prelude.{◌≡◌, IfOk};
ghost use Rattle.std.specs.Str.Lines.{lines};

use auth_grammar::{Octets, OctetsList, OutOfMemory, cut_at, without_return};
use std::alloc::Global;

/// The lines of a text. Each ends with LF or CR LF, but the last one need not.
pub(crate) fn lines_of(alloc: Global, text: &[u8]) -> Result<OctetsList, OutOfMemory>
    ensures { IfOk result (λ list. list ≡ lines text.now) }
{
    let mut list = OctetsList::new(alloc);
    let mut rest = text;
    while let Some((line, behind)) = cut_at(rest, b'\n') {
        list.push(Octets::of(alloc, without_return(line))?)?;
        rest = behind;
    }
    if !rest.is_empty() {
        list.push(Octets::of(alloc, rest)?)?;
    }
    Ok(list)
}
