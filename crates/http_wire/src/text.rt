//! Texts that are written piece by piece.
ghost use Rattle.std.specs.Prelude.{◌≡◌, ◌++◌, [], IfOk, OnOk, decimal};
ghost use Rattle.std.specs.List.{flat_map};
ghost use Rattle.http_wire.specs.FieldLines.{pair_line, length_line, close_line};

use crate::pair::Pair;
use auth_grammar::OutOfMemory;
use itoa::Buffer;
use std::alloc::Global;

/// The bytes of a head for which a new text has room.
const HEAD_ROOM: usize = 1024;

/// An empty text that has room for a head and so many bytes of a body.
pub(crate) fn with_room(alloc: Global, body: usize) -> Result<Vec<u8>, OutOfMemory>
    ensures { IfOk result (λ text. text.items ≡ []) }
{
    Ok(Vec::with_capacity(alloc, body.saturating_add(HEAD_ROOM))?)
}

pub(crate) fn put(out: &mut Vec<u8>, bytes: &[u8]) -> Result<(), OutOfMemory>
    ensures { OnOk result (out.new.items ≡ out.old.items ++ bytes.now) }
{
    out.extend_from_slice(bytes)?;
    Ok(())
}

pub(crate) fn put_number(out: &mut Vec<u8>, n: u64) -> Result<(), OutOfMemory>
    ensures { OnOk result (out.new.items ≡ out.old.items ++ decimal n) }
{
    let mut buffer = Buffer::new();
    put(out, buffer.format(n).as_bytes())
}

pub(crate) fn put_pair(out: &mut Vec<u8>, pair: &Pair) -> Result<(), OutOfMemory>
    ensures { OnOk result (out.new.items ≡ out.old.items ++ pair_line pair.now) }
{
    put(out, pair.name.bytes())?;
    put(out, b": ")?;
    put(out, pair.value.bytes())?;
    put(out, b"\r\n")
}

pub(crate) fn put_pairs(out: &mut Vec<u8>, pairs: &[Pair]) -> Result<(), OutOfMemory>
    ensures { OnOk result (out.new.items ≡ out.old.items ++ flat_map pair_line pairs.now) }
{
    for pair in pairs {
        put_pair(out, pair)?;
    }
    Ok(())
}

#[tactic(auto, unfolding(crate::specs::FieldLines::length_line))]
pub(crate) fn put_length(out: &mut Vec<u8>, count: usize) -> Result<(), OutOfMemory>
    ensures { OnOk result (out.new.items ≡ out.old.items ++ length_line count) }
{
    put(out, b"Content-Length: ")?;
    put_number(out, count as u64)?;
    put(out, b"\r\n")
}

#[tactic(auto, unfolding(crate::specs::FieldLines::close_line))]
pub(crate) fn put_close(out: &mut Vec<u8>, close: bool) -> Result<(), OutOfMemory>
    ensures { OnOk result (out.new.items ≡ out.old.items ++ close_line close) }
{
    if close {
        put(out, b"Connection: close\r\n")
    } else {
        Ok(())
    }
}
