//! Reading a whole input of limited length.
ghost use Rattle.std.specs.Prelude.{◌≡◌, ◌≤◌, Err, length};
ghost use Rattle.auth_io.specs.Causes.{Rose};
ghost use Rattle.authd.specs.declared.input.TheConstants.{INPUT_LIMIT};
ghost use Rattle.authd.specs.Inputs.{ReadsInput, ReadsPiece};

use crate::failure::{Failure, Fault, Refusal};
use auth_grammar::Octets;
use auth_io::Link;
use std::alloc::Global;

/// How many bytes an input may have.
pub(crate) const INPUT_LIMIT: usize = 16_384;

/// How many bytes are read at a time.
const PIECE: usize = 4_096;

/// Reads a piece of the input, no more than up to the first byte that is too many. Whether there was any.
fn read_piece<L: Link>(link: &mut L, input: &mut Octets) -> Result<bool, Failure>
    requires { length input.old ≤ INPUT_LIMIT }
    ensures piece { ReadsPiece (L.left link.old) (L.left link.new) input.old input.new result }
    ensures written { L.written link.new ≡ L.written link.old }
    ensures write_faults { L.write_faults link.new ≡ L.write_faults link.old }
    ensures later { L.read_faults link.old ≤ L.read_faults link.new }
    ensures fault { result ≡ Err (Failure.Fault Fault.Read) → Rose (L.read_faults link.old) (L.read_faults link.new) }
{
    let mut piece = [0; PIECE];
    let room = (INPUT_LIMIT + 1 - input.len()).min(PIECE);
    let into = &mut piece[..room];
    let Ok(count) = link.read(into) else {
        return Err(Failure::Fault(Fault::Read));
    };
    input.extend(&into[..count])?;
    Ok(count > 0)
}

/// Reads the input to its end. `TooLong` comes where it has more bytes than `INPUT_LIMIT`, of which no more than one is read.
pub(crate) fn read_input<L: Link>(alloc: Global, link: &mut L) -> Result<Octets, Failure>
    ensures input { ReadsInput (L.left link.old) (L.left link.new) result }
    ensures written { L.written link.new ≡ L.written link.old }
    ensures write_faults { L.write_faults link.new ≡ L.write_faults link.old }
    ensures later { L.read_faults link.old ≤ L.read_faults link.new }
    ensures fault { result ≡ Err (Failure.Fault Fault.Read) → Rose (L.read_faults link.old) (L.read_faults link.new) }
{
    let mut input = Octets::new(alloc);
    while input.len() <= INPUT_LIMIT {
        if !read_piece(link, &mut input)? {
            return Ok(input);
        }
    }
    Err(Failure::Refused(Refusal::TooLong))
}
