//! Long texts.
use auth_grammar::{Octets, OutOfMemory};

/// Adds a part so many times.
pub(crate) fn add_times(text: &mut Octets, part: &[u8], times: u32) -> Result<(), OutOfMemory> {
    for _ in 0..times {
        text.extend(part)?;
    }
    Ok(())
}
