//! A store of many entries.
use crate::job::Failure;
use auth_hash::Algorithm;
use cred_store::{Store, StoreError};
use std::alloc::{AllocError, Global};
use std::fmt::Write;

/// How many of the entries are looked up, at most.
const LOOK_UPS: u32 = 300;

/// The text of a store of so many entries.
fn store_text(alloc: Global, entries: u32) -> Result<String, AllocError> {
    let mut text = String::from_str(alloc, "authstore 1\n")?;
    for number in 0..entries {
        writeln!(text, "u{number:08}:r:md5:00112233445566778899aabbccddeeff")?;
    }
    Ok(text)
}

/// Whether the entry of this number is found.
fn has_entry(alloc: Global, store: &Store, number: u32) -> Result<bool, AllocError> {
    let name = format!(in alloc; "u{number:08}")?;
    let found = store.secret(name.as_bytes(), b"r", Algorithm::Md5);
    Ok(found.is_some())
}

/// Looks some of the entries up, spread over all of them.
fn look_up(alloc: Global, store: &Store, entries: u32) -> Result<(), Failure> {
    let step = entries / LOOK_UPS + 1;
    for number in (0..entries).step_by(step as usize) {
        if !has_entry(alloc, store, number)? {
            return Err(Failure::Refused);
        }
    }
    Ok(())
}

/// Reads a store of so many entries, looks some of them up, and tells how many it has.
pub(crate) fn entries_of_store(alloc: Global, entries: u32) -> Result<usize, Failure> {
    let text = store_text(alloc, entries)?;
    match Store::read(alloc, text.as_bytes()) {
        Ok(store) => {
            look_up(alloc, &store, entries)?;
            Ok(store.entries() as usize)
        }
        Err(StoreError::OutOfMemory) => Err(Failure::OutOfMemory),
        Err(_) => Err(Failure::Refused),
    }
}
