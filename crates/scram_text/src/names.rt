//! Users' names as they are written.
ghost use Rattle.std.specs.Prelude.{◌≡◌, ◌≤◌, ◌+◌, ◌↔◌, ℕ, List, IfOk, IfNone, IfSome, IsTrue, OnOk, ◌++◌, [], length};
ghost use Rattle.scram_text.specs.Bytes.{escape, escaped};
ghost use Rattle.scram_text.specs.Contents.{WritesName};
ghost use Rattle.scram_text.specs.Names.{BeginsByte, BeginsName, GoesInto};
ghost use Rattle.scram_text.specs.Reaching.{Reaches};

use crate::bytes::first_byte;
use auth_grammar::{Octets, OutOfMemory, behind, is_printable};
use std::alloc::Global;

/// Whether the text writes a name.
pub(crate) fn is_written_name(text: &[u8]) -> bool
    ensures { IsTrue result ↔ ((name : List ℕ) × WritesName text.now name) }
{
    if let None = first_byte(text) {
        return false;
    }
    match first_byte(behind_name(text)) {
        Some(_) => false,
        None => true,
    }
}

/// How far the text could go on as a written name.
pub(crate) fn name_reach(text: &[u8]) -> usize
    ensures reach { Reaches (λ t. (name : List ℕ) × WritesName t name) text.now result }
    ensures within { result ≤ length text.now }
{
    let more = behind_name(text);
    text.len() - more.len() + partial_byte(more)
}

/// The name that the text writes.
pub(crate) fn name_written(alloc: Global, text: &[u8]) -> Result<Octets, OutOfMemory>
    requires { (name : List ℕ) × WritesName text.now name }
    ensures { IfOk result (λ name. WritesName text.now name) }
{
    let mut name = Octets::new(alloc);
    let mut rest = text;
    while let Some((byte, more)) = first_of_name(rest) {
        name.push(byte)?;
        rest = more;
    }
    Ok(name)
}

/// What stands behind the bytes of a name with which the text begins.
fn behind_name(text: &[u8]) -> &[u8]
    ensures { (name : List ℕ) × BeginsName text.now name result.now }
{
    let mut rest = text;
    while let Some((_byte, more)) = first_of_name(rest) {
        rest = more;
    }
    rest
}

/// The byte of a name with which the text begins, and what stands behind it.
fn first_of_name(text: &[u8]) -> Option<(u8, &[u8])>
    ensures some { IfSome result (λ found. BeginsByte text.now found.0 found.1.now) }
    ensures none { IfNone result ((byte : ℕ) (more : List ℕ) → BeginsByte text.now byte more → ⊥) }
{
    match text {
        [b'=', b'2', b'C', more @ ..] => Some((b',', more)),
        [b'=', b'3', b'D', more @ ..] => Some((b'=', more)),
        [b'=' | b',', ..] => None,
        [byte, more @ ..] if is_printable(*byte) => Some((*byte, more)),
        _ => None,
    }
}

/// How far a text that begins with no byte of a name goes into one.
fn partial_byte(text: &[u8]) -> usize
    requires { (byte : ℕ) (more : List ℕ) → BeginsByte text.now byte more → ⊥ }
    ensures into { GoesInto text.now result }
    ensures within { result ≤ length text.now }
{
    if let Some(_) = behind(text, b"=2") {
        return 2;
    }
    if let Some(_) = behind(text, b"=3") {
        return 2;
    }
    match behind(text, b"=") {
        Some(_) => 1,
        None => 0,
    }
}

/// Adds the name at the end of the text, as it is written.
pub(crate) fn push_written(text: &mut Octets, name: &[u8]) -> Result<(), OutOfMemory>
    ensures { OnOk result (text.new ≡ text.old ++ escaped name.now) }
{
    for byte in name {
        match *byte {
            b',' => text.extend(b"=2C")?,
            b'=' => text.extend(b"=3D")?,
            _ => text.push(*byte)?,
        }
    }
    Ok(())
}
