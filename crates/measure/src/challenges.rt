//! A field of many challenges.
use crate::filler::add_times;
use crate::job::Failure;
use auth_grammar::{GrammarError, Octets, OctetsList, read_challenges};
use std::alloc::Global;

/// One challenge of 42 bytes, and what divides it from the next one.
fn challenge() -> &'static [u8] {
    b"Digest realm=\"a\", nonce=\"bc\", qop=\"auth\", "
}

/// Reads one line with so many bytes of whole challenges, and tells how many items they are.
pub(crate) fn items_of_challenges(alloc: Global, bytes: u32) -> Result<usize, Failure> {
    let mut line = Octets::new(alloc);
    add_times(&mut line, challenge(), bytes / 42)?;
    let mut lines = OctetsList::new(alloc);
    lines.push(line)?;
    match read_challenges(alloc, &lines) {
        Ok(items) => Ok(items.len()),
        Err(GrammarError::OutOfMemory) => Err(Failure::OutOfMemory),
        Err(_) => Err(Failure::Refused),
    }
}
