//! Tables of messages, with values from the standards.
use auth_grammar::{Octets, OutOfMemory};
use std::alloc::Global;

mod requests;
mod responses;
mod texts;

/// A text with a part that stands many times.
fn repeated(
    alloc: Global,
    front: &[u8],
    part: &[u8],
    count: u32,
    back: &[u8],
) -> Result<Octets, OutOfMemory> {
    let mut text = Octets::of(alloc, front)?;
    for _ in 0..count {
        text.extend(part)?;
    }
    text.extend(back)?;
    Ok(text)
}
