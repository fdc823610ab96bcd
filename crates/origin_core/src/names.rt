//! The file that a path names.
ghost use Rattle.std.specs.Prelude.{◌≡◌, ◌==◌, ◌&&◌, nat_le, IfOk};
ghost use Rattle.std.specs.List.{list_all, slice_split};
ghost use Rattle.origin_core.specs.Names.{is_name_byte, is_segment, is_file_name, is_folder, with_index, file_name};

use auth_grammar::{Octets, OutOfMemory};
use std::alloc::Global;

/// What stands for a folder that is read.
const INDEX: &[u8] = b"index.html";

fn is_name_byte(byte: u8) -> bool
    ensures { result ≡ is_name_byte byte }
{
    is_visible(byte) && byte != b'%' && byte != b'\\'
}

fn is_visible(byte: u8) -> bool
    ensures { result ≡ (nat_le 33 byte && nat_le byte 126) }
{
    33 <= byte && byte <= 126
}

fn is_segment(segment: &[u8]) -> bool
    ensures { result ≡ is_segment segment.now }
{
    !matches!(segment, b"" | b"." | b"..")
}

fn has_name_bytes(name: &[u8]) -> bool
    ensures { result ≡ list_all is_name_byte name.now }
{
    name.iter().all(|&byte| is_name_byte(byte))
}

fn has_segments(name: &[u8]) -> bool
    ensures { result ≡ list_all is_segment (slice_split (λ b. b == 47) name.now) }
{
    name.split(|byte| *byte == b'/').all(is_segment)
}

/// Whether it is a name below the root.
fn is_file_name(name: &[u8]) -> bool
    ensures { result ≡ is_file_name name.now }
{
    has_name_bytes(name) && has_segments(name)
}

/// Whether nothing stands in the last segment.
fn is_folder(name: &[u8]) -> bool
    ensures { result ≡ is_folder name.now }
{
    name.is_empty() || name[name.len() - 1] == b'/'
}

/// The name below the root that a path stands for. A folder is read by its index.
fn with_index(alloc: Global, reads: bool, name: &[u8]) -> Result<Octets, OutOfMemory>
    ensures { IfOk result (λ whole. whole ≡ with_index reads name.now) }
{
    let mut whole = Octets::of(alloc, name)?;
    if reads && is_folder(name) {
        whole.extend(INDEX)?;
    }
    Ok(whole)
}

/// The name of the file that a path names, for a method that reads or for one that replaces. None where the path
/// doesn't begin with a slash, has an empty segment or one that leads out of its folder, or a byte that no name has.
#[tactic(auto, unfolding(crate::specs::Names::file_name))]
pub fn file_name(
    alloc: Global,
    root: &[u8],
    reads: bool,
    path: &[u8],
) -> Result<Option<Octets>, OutOfMemory>
    ensures { IfOk result (λ name. name ≡ file_name root.now reads path.now) }
{
    let [b'/', below @ ..] = path else {
        return Ok(None);
    };
    let name = with_index(alloc, reads, below)?;
    if !is_file_name(name.bytes()) {
        return Ok(None);
    }
    let mut whole = Octets::of(alloc, root)?;
    whole.push(b'/')?;
    whole.extend(name.bytes())?;
    Ok(Some(whole))
}
