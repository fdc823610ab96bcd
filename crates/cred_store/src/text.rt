//! Reading and writing the text of a store.
ghost use Rattle.std.specs.Prelude.{◌≡◌, ◌≢◌, ◌+◌, ◌<◌, ◌^◌, ◌++◌, ◌∷◌, [], ℕ, List, IfErr, IfOk, OnOk, length};
ghost use Rattle.std.specs.List.{flat_map};
ghost use Rattle.cred_store.specs.Faults.{BeginsFaulty, FaultAfter, FaultBehind};
ghost use Rattle.cred_store.specs.Keys.{IsRising};
ghost use Rattle.cred_store.specs.Texts.{IsEntry, IsStore, entry_line, entry_said, header, store_text};
ghost use Rattle.cred_store.specs.Values.{flag_text};
ghost use Rattle.cred_store.specs.declared.version.Version.TheVariants.{Two};

use crate::entry::{Entry, compare};
use crate::error::{LineFault, StoreError};
use crate::line::{Line, read_line};
use crate::value::write_secret;
use crate::version::{HEADER_TWO, Version};
use auth_grammar::{Octets, OutOfMemory, Sequence, cut_at};
use std::alloc::Global;
use std::cmp::Ordering;

/// Reads the entries of a text, which stands behind the first line.
pub(crate) fn read_entries(
    alloc: Global,
    version: Version,
    text: &[u8],
) -> Result<Vec<Entry>, StoreError>
    ensures store { IfOk result (λ entries. IsStore version entries.items) }
    ensures few { IfOk result (λ entries. length entries.items < 2 ^ 32) }
    ensures text { IfOk result (λ entries. text.now ≡ flat_map (entry_line version) entries.items) }
    ensures err { IfErr result (FaultBehind version (header version ++ text.now)) }
{
    let mut entries = Sequence::new(alloc);
    let mut rest = text;
    while !rest.is_empty() {
        let number = line_number(entries.len())?;
        let (entry, more) = next_entry(alloc, version, entries.as_slice(), rest, number)?;
        entries.push(entry)?;
        rest = more;
    }
    Ok(entries.into_vec())
}

/// The number of the line behind the first one and so many others.
fn line_number(before: usize) -> Result<u32, OutOfMemory>
    ensures number { IfOk result (λ number. number ≡ before + 2) }
    ensures bound { IfOk result (λ number. number < 2 ^ 32) }
{
    if before > u32::MAX as usize - 2 {
        return Err(OutOfMemory);
    }
    Ok(before as u32 + 2)
}

/// Reads the entry with whose line a text begins, which stands behind these entries, and what follows it.
fn next_entry<'t>(
    alloc: Global,
    version: Version,
    entries: &[Entry],
    text: &'t [u8],
    number: u32,
) -> Result<(Entry, &'t [u8]), StoreError>
    requires { text.now ≢ [] }
    ensures entry { IfOk result (λ r. IsEntry version r.0) }
    ensures text { IfOk result (λ r. text.now ≡ entry_line version r.0 ++ r.1.now) }
    ensures rising { IfOk result (λ r. IsRising entries.now → IsRising (entries.now ++ r.0 ∷ [])) }
    ensures err { IfErr result (FaultAfter version entries.now text.now number) }
{
    let (line, rest) = match next_line(version, text) {
        Ok(read) => read,
        Err(why) => return Err(StoreError::BadLine { line: number, why }),
    };
    check_order(version, entries, &line, number)?;
    let entry = Entry::of(alloc, line.name, line.realm, line.secret, line.on)?;
    Ok((entry, rest))
}

/// Reads the line with which a text begins, and what follows it.
fn next_line(version: Version, text: &[u8]) -> Result<(Line<'_>, &[u8]), LineFault>
    requires { text.now ≢ [] }
    ensures entry { IfOk result (λ r. IsEntry version (entry_said r.0)) }
    ensures text { IfOk result (λ r. text.now ≡ entry_line version (entry_said r.0) ++ r.1.now) }
    ensures err { IfErr result (λ why. BeginsFaulty version why text.now) }
{
    let Some((line, rest)) = cut_at(text, b'\n') else {
        return Err(LineFault::Form);
    };
    match read_line(version, line) {
        Ok(line) => Ok((line, rest)),
        Err(why) => Err(why),
    }
}

/// Whether a line may stand behind these entries.
fn check_order(
    version: Version,
    entries: &[Entry],
    line: &Line<'_>,
    number: u32,
) -> Result<(), StoreError>
    ensures rising { OnOk result (IsRising entries.now → IsRising (entries.now ++ entry_said line.now ∷ [])) }
    ensures err { IfErr result (λ error. (text more : List ℕ) → IsEntry version (entry_said line.now)
        → text ≡ entry_line version (entry_said line.now) ++ more → FaultAfter version entries.now text number error) }
{
    let Some(last) = entries.last() else {
        return Ok(());
    };
    match compare(last, line.name, line.realm, line.secret.kind()) {
        Ordering::Less => Ok(()),
        Ordering::Equal => Err(StoreError::Repeated { line: number }),
        Ordering::Greater => Err(StoreError::Unsorted { line: number }),
    }
}

/// The text of the entries.
pub(crate) fn write_entries(alloc: Global, entries: &[Entry]) -> Result<Octets, OutOfMemory>
    ensures { IfOk result (λ text. text ≡ store_text entries.now) }
{
    let mut text = Octets::of(alloc, HEADER_TWO)?;
    for entry in entries {
        write_line(alloc, &mut text, entry)?;
    }
    Ok(text)
}

/// Adds the line of an entry.
fn write_line(alloc: Global, text: &mut Octets, entry: &Entry) -> Result<(), OutOfMemory>
    ensures { OnOk result (text.new ≡ text.old ++ entry_line Two entry.now) }
{
    write_part(text, entry.name.bytes(), b':')?;
    write_part(text, entry.realm.bytes(), b':')?;
    write_part(text, entry.secret.kind().name(), b':')?;
    write_part(text, flag_text(entry.on), b':')?;
    write_secret(alloc, text, &entry.secret)?;
    text.push(b'\n')?;
    Ok(())
}

/// How a flag is written.
fn flag_text(on: bool) -> &'static [u8]
    ensures { result.now ≡ flag_text on }
{
    if on { b"on" } else { b"off" }
}

/// Adds a part of a line, and the byte that ends it.
fn write_part(text: &mut Octets, part: &[u8], end: u8) -> Result<(), OutOfMemory>
    ensures { OnOk result (text.new ≡ text.old ++ (part.now ++ end ∷ [])) }
{
    text.extend(part)?;
    text.push(end)?;
    Ok(())
}
