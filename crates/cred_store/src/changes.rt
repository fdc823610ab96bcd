//! Changes of entries that stand in the order of their keys.
ghost use Rattle.std.specs.Prelude.{◌≡◌, ◌<◌, ◌^◌, IfOk, OnErr, OnOk, count_by, length};
ghost use Rattle.std.specs.List.{list_any};
ghost use Rattle.cred_store.specs.Changes.{put, put_all, switched, with_flag, without};
ghost use Rattle.cred_store.specs.Keys.{IsRising};
ghost use Rattle.cred_store.specs.LookUps.{is_of};

use crate::entries::place_of;
use crate::entry::{Entry, is_of};
use auth_grammar::OutOfMemory;
use std::alloc::Global;

/// Puts the entry in at its place, instead of the one that has its key, if there is one.
pub(crate) fn put(entries: &mut Vec<Entry>, entry: Entry) -> Result<(), OutOfMemory>
    requires { IsRising entries.old.items }
    ensures ok { OnOk result (entries.new.items ≡ put entry entries.old.items) }
    ensures err { OnErr result (entries.new.items ≡ entries.old.items) }
{
    match place_of(
        entries.as_slice(),
        entry.name.bytes(),
        entry.realm.bytes(),
        entry.secret.kind(),
    ) {
        Ok(at) => entries[at] = entry,
        Err(at) => entries.insert(at, entry)?,
    }
    Ok(())
}

/// Puts the entries in, the last one first, so that of two that have one key the first stays.
pub(crate) fn put_all(entries: &mut Vec<Entry>, more: Vec<Entry>) -> Result<(), OutOfMemory>
    requires { IsRising entries.old.items }
    ensures { OnOk result (entries.new.items ≡ put_all more.items entries.old.items) }
{
    let mut more = more;
    while let Some(entry) = more.pop() {
        put(entries, entry)?;
    }
    Ok(())
}

/// Takes the entries of this name and realm out, and tells whether there were any.
pub(crate) fn take_out(entries: &mut Vec<Entry>, name: &[u8], realm: &[u8]) -> bool
    ensures there { result ≡ list_any (is_of name.now realm.now) entries.old.items }
    ensures left { entries.new.items ≡ without name.now realm.now entries.old.items }
{
    let there = entries.iter().any(|entry| is_of(entry, name, realm));
    entries.retain(|entry| !is_of(entry, name, realm));
    there
}

/// Gives the entries of this name and realm the flag.
pub(crate) fn set_flag(entries: &mut Vec<Entry>, name: &[u8], realm: &[u8], on: bool)
    ensures { entries.new.items ≡ with_flag name.now realm.now on entries.old.items }
{
    for entry in entries.iter_mut() {
        switch(entry, name, realm, on);
    }
}

/// Gives the entry the flag, where it is of this name and realm.
fn switch(entry: &mut Entry, name: &[u8], realm: &[u8], on: bool)
    ensures { entry.new ≡ switched name.now realm.now on entry.old }
{
    if is_of(entry, name, realm) {
        entry.on = on;
    }
}

/// How many entries are of this name and realm.
pub(crate) fn count_of(entries: &[Entry], name: &[u8], realm: &[u8]) -> u32
    requires { length entries.now < 2 ^ 32 }
    ensures { result ≡ count_by (is_of name.now realm.now) entries.now }
{
    entries
        .iter()
        .filter(|entry| is_of(entry, name, realm))
        .count() as u32
}

/// A copy of the entries.
pub(crate) fn copy_of(alloc: Global, entries: &[Entry]) -> Result<Vec<Entry>, OutOfMemory>
    ensures { IfOk result (λ copy. copy.items ≡ entries.now) }
{
    let mut copy = Vec::new(alloc);
    for entry in entries {
        copy.push(entry.copy(alloc)?)?;
    }
    Ok(copy)
}
