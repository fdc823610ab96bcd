//! Reading texts of htdigest, the program of Apache's HTTP server.
ghost use Rattle.std.specs.Prelude.{◌≡◌, ◌≢◌, ◌+◌, ◌<◌, ◌≤◌, ◌^◌, ◌++◌, ◌∷◌, [], true, List, IfErr, IfNone, IfOk, IfSome, OnOk, length};
ghost use Rattle.std.specs.Str.{str_to_ascii_lowercase};
ghost use Rattle.std.specs.Str.Lines.{lines};
ghost use Rattle.auth_grammar.specs.Plain.{is_plain_name};
ghost use Rattle.cred_store.specs.Faults.{colons};
ghost use Rattle.cred_store.specs.Htdigest.{ArePairs, HasThreeParts, IsPair, IsPairFaulty, PairFault, PairFaultBehind, md5_secret};
ghost use Rattle.cred_store.specs.Kinds.{IsSecret};
ghost use Rattle.cred_store.specs.declared.entry.Entry.{Entry as EntryValue};

use crate::entry::{Entry, Secret};
use crate::error::{LineFault, StoreError};
use crate::value::digest_of;
use auth_grammar::{OutOfMemory, Sequence, cut_at, is_plain_name, without_return};
use auth_hash::Algorithm;
use std::alloc::Global;

/// The three parts of a line.
#[derive(Clone, Copy)]
struct Parts<'t> {
    name: &'t [u8],
    realm: &'t [u8],
    value: &'t [u8],
}

/// Reads the entries that the lines say, in their order. Empty lines say none.
pub(crate) fn read_pairs(alloc: Global, text: &[u8]) -> Result<Vec<Entry>, StoreError>
    requires { length text.now < 2 ^ 32 }
    ensures pairs { IfOk result (λ entries. ArePairs (lines text.now) entries.items) }
    ensures few { IfOk result (λ entries. length entries.items ≤ length text.now) }
    ensures err { IfErr result (PairFaultBehind text.now) }
{
    let mut pairs = Sequence::new(alloc);
    let mut rest = text;
    let mut number = 0;
    while !rest.is_empty() {
        let (line, more) = first_line(rest);
        number += 1;
        add_pair(alloc, &mut pairs, line, number)?;
        rest = more;
    }
    Ok(pairs.into_vec())
}

/// Adds the entry that a line says, if it is not empty.
fn add_pair(
    alloc: Global,
    pairs: &mut Sequence<Entry>,
    line: &[u8],
    number: u32,
) -> Result<(), StoreError>
    ensures ok { OnOk result ((added : List EntryValue) × ArePairs (line.now ∷ []) added × (pairs.new ≡ pairs.old ++ added)) }
    ensures err { IfErr result (PairFault line.now number) }
{
    if line.is_empty() {
        return Ok(());
    }
    let entry = read_pair(alloc, line, number)?;
    pairs.push(entry)?;
    Ok(())
}

/// Reads the entry that a line says.
fn read_pair(alloc: Global, line: &[u8], number: u32) -> Result<Entry, StoreError>
    requires { line.now ≢ [] }
    ensures pair { IfOk result (IsPair line.now) }
    ensures err { IfErr result (PairFault line.now number) }
{
    let parts = match checked_parts(line) {
        Ok(parts) => parts,
        Err(why) => return Err(StoreError::BadLine { line: number, why }),
    };
    let Some(secret) = md5_secret(alloc, parts.value)? else {
        let why = LineFault::Value;
        return Err(StoreError::BadLine { line: number, why });
    };
    Ok(Entry::of(alloc, parts.name, parts.realm, secret, true)?)
}

/// The parts of a line, of which the name and the realm may stand in a store.
fn checked_parts(line: &[u8]) -> Result<Parts<'_>, LineFault>
    ensures parts { IfOk result (λ p. HasThreeParts line.now p.name.now p.realm.now p.value.now) }
    ensures name { IfOk result (λ p. is_plain_name p.name.now ≡ true) }
    ensures realm { IfOk result (λ p. is_plain_name p.realm.now ≡ true) }
    ensures err { IfErr result (λ why. IsPairFaulty why line.now) }
{
    let Some(parts) = parts_of(line) else {
        return Err(LineFault::Form);
    };
    if !is_plain_name(parts.name) {
        return Err(LineFault::Name);
    }
    if !is_plain_name(parts.realm) {
        return Err(LineFault::Realm);
    }
    Ok(parts)
}

/// The parts of a line, between which its two colons stand.
fn parts_of(line: &[u8]) -> Option<Parts<'_>>
    ensures some { IfSome result (λ p. HasThreeParts line.now p.name.now p.realm.now p.value.now) }
    ensures none { IfNone result (colons line.now ≢ 2) }
{
    let Some((name, rest)) = cut_at(line, b':') else {
        return None;
    };
    let Some((realm, value)) = cut_at(rest, b':') else {
        return None;
    };
    if value.contains(&b':') {
        return None;
    }
    Some(Parts { name, realm, value })
}

/// The secret that a value is, which has hexadecimal digits in either case.
fn md5_secret(alloc: Global, value: &[u8]) -> Result<Option<Secret>, OutOfMemory>
    ensures some { IfOk result (λ found. IfSome found (λ s. (s ≡ md5_secret value.now) × IsSecret s)) }
    ensures none { IfOk result (λ found. IfNone found (IsSecret (md5_secret value.now) → ⊥)) }
{
    let digits = lower_of(alloc, value)?;
    Ok(digest_of(Algorithm::Md5, digits.as_slice()))
}

/// The text in lower case.
fn lower_of(alloc: Global, text: &[u8]) -> Result<Vec<u8>, OutOfMemory>
    ensures { IfOk result (λ lower. lower.items ≡ str_to_ascii_lowercase text.now) }
{
    Ok(
        text.iter()
            .map(|byte| byte.to_ascii_lowercase())
            .collect(alloc)?,
    )
}

/// The first line of a text, without the line feed at its end and a carriage return before that,
/// and what follows it.
fn first_line(text: &[u8]) -> (&[u8], &[u8])
    requires { text.now ≢ [] }
    ensures lines { lines text.now ≡ result.0.now ∷ lines result.1.now }
    ensures shorter { length result.1.now < length text.now }
{
    match cut_at(text, b'\n') {
        Some((line, rest)) => (without_return(line), rest),
        None => (text, &[]),
    }
}
