//! The line that tells how a drill went.
ghost use Rattle.std.specs.Prelude.{◌≡◌, ◌++◌, decimal, OnOk};

use auth_grammar::{Octets, OutOfMemory};
use itoa::Buffer;

/// Adds a label and a number in decimal digits.
pub(crate) fn push_number(line: &mut Octets, label: &[u8], number: u64) -> Result<(), OutOfMemory>
    ensures { OnOk result (line.new ≡ line.old ++ label.now ++ decimal number) }
{
    line.extend(label)?;
    line.extend(Buffer::new().format(number).as_bytes())?;
    Ok(())
}
