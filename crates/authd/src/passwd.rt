//! The command `passwd`: the secret of a password is set in a store.
ghost use Rattle.std.specs.Prelude.{◌≡◌, ◌≤◌, ◌++◌, ◌∷◌, [], true, IfErr, IfOk, OnOk};
ghost use Rattle.auth_grammar.specs.Plain.{is_plain_name};
ghost use Rattle.connection_loop.specs.Account.{link_of};
ghost use Rattle.cred_store.specs.Changes.{put as put_in};
ghost use Rattle.cred_store.specs.Kinds.{IsSecret, kind_name};
ghost use Rattle.cred_store.specs.Texts.{entry_at};
ghost use Rattle.authd.specs.Endings.{LinkFilesSay, LinkFilesWordsSay};
ghost use Rattle.authd.specs.Passwd.{IsUnfit, MakesKeys, MakesSecret, Passwds, Sets, SetsEntry, owner, set_line};
ghost use Rattle.authd.specs.Saving.{Saves};
ghost use Rattle.origin_core.specs.Outside.{files_state};

use crate::account::Account;
use crate::failure::{Failure, Fault};
use crate::loading::kept_store;
use crate::password::read_password;
use crate::saving::save;
use arrayvec::ArrayVec;
use auth_grammar::{Octets, OutOfMemory, is_plain_name};
use auth_io::{Files, Link, Words};
use cred_store::{Secret, SecretKind, Store};
use std::alloc::Global;

/// Sets the secret of the password that the first line of the input is. A store that isn't there has no entries.
pub(crate) fn passwd<L: Link, F: Files, W: Words>(
    alloc: Global,
    account: &Account<'_>,
    link: &mut L,
    files: &mut F,
    random: &mut W,
) -> Result<(), Failure>
    ensures passwds { let at = link_of L.left L.given L.written L.reads in
        Passwds (files_state F.contents F.asked F.faults) W.drawn W.faults account.now.store.now account.now.name.now
        account.now.realm.now account.now.kind.now account.now.rounds files.old files.new random.old random.new
        (at link.old) (at link.new) result }
    ensures says { IfErr result
        (LinkFilesWordsSay L.written L.read_faults L.write_faults
        (files_state F.contents F.asked F.faults) W.faults link.old link.new files.old files.new random.old random.new) }
{
    let kind = kind_of(account)?;
    set_password(alloc, account, kind, link, files, random)
}

/// The kind of the account. `Usage` comes where no store has such a kind, name or realm.
fn kind_of(account: &Account<'_>) -> Result<SecretKind, Failure>
    ensures fit { IfOk result
        (λ kind. (account.now.kind.now ≡ kind_name kind) × (is_plain_name account.now.name.now ≡ true)
        × (is_plain_name account.now.realm.now ≡ true)) }
    ensures unfit { IfErr result
        (λ failure. (failure ≡ Failure.Usage) × IsUnfit account.now.name.now account.now.realm.now account.now.kind.now) }
{
    let Some(kind) = SecretKind::named(account.kind) else {
        return Err(Failure::Usage);
    };
    if !is_plain_name(account.name) || !is_plain_name(account.realm) {
        return Err(Failure::Usage);
    }
    Ok(kind)
}

/// Reads a password, and sets its secret.
fn set_password<L: Link, F: Files, W: Words>(
    alloc: Global,
    account: &Account<'_>,
    kind: SecretKind,
    link: &mut L,
    files: &mut F,
    random: &mut W,
) -> Result<(), Failure>
    requires name { is_plain_name account.now.name.now ≡ true }
    requires realm { is_plain_name account.now.realm.now ≡ true }
    ensures sets { let at = link_of L.left L.given L.written L.reads in
        Sets (files_state F.contents F.asked F.faults) W.drawn W.faults account.now.store.now
        (owner account.now.name.now account.now.realm.now kind account.now.rounds)
        (set_line account.now.name.now account.now.realm.now account.now.kind.now) files.old files.new random.old
        random.new (at link.old) (at link.new) result }
    ensures says { IfErr result
        (LinkFilesWordsSay L.written L.read_faults L.write_faults
        (files_state F.contents F.asked F.faults) W.faults link.old link.new files.old files.new random.old random.new) }
{
    let password = read_password(alloc, link)?;
    set_secret(alloc, account, kind, password.bytes(), link, files, random)
}

/// Sets the secret of a password in the store of an account, and saves it.
fn set_secret<L: Link, F: Files, W: Words>(
    alloc: Global,
    account: &Account<'_>,
    kind: SecretKind,
    password: &[u8],
    link: &mut L,
    files: &mut F,
    random: &mut W,
) -> Result<(), Failure>
    requires name { is_plain_name account.now.name.now ≡ true }
    requires realm { is_plain_name account.now.realm.now ≡ true }
    ensures sets { let at = link_of L.left L.given L.written L.reads in
        SetsEntry (files_state F.contents F.asked F.faults) W.drawn W.faults account.now.store.now
        (owner account.now.name.now account.now.realm.now kind account.now.rounds)
        (set_line account.now.name.now account.now.realm.now account.now.kind.now) password.now files.old files.new
        random.old random.new (at link.old) (at link.new) result }
    ensures says { IfErr result
        (LinkFilesWordsSay L.written L.read_faults L.write_faults
        (files_state F.contents F.asked F.faults) W.faults link.old link.new files.old files.new random.old random.new) }
{
    let store = kept_store(alloc, files, account.store)?;
    let secret = secret_of(account, kind, password, random)?;
    save_secret(alloc, account, store, &secret, link, files)
}

/// The secret of a password.
fn secret_of<W: Words>(
    account: &Account<'_>,
    kind: SecretKind,
    password: &[u8],
    random: &mut W,
) -> Result<Secret, Failure>
    ensures makes { MakesSecret W.drawn W.faults
        (owner account.now.name.now account.now.realm.now kind account.now.rounds) kind password.now random.old random.new result }
    ensures form { IfOk result IsSecret }
{
    match kind {
        SecretKind::Digest(alg) => Ok(Secret::of_password(
            alg,
            account.name,
            account.realm,
            password,
        )),
        SecretKind::ScramSha256 => keys_of(password, account.rounds, random),
    }
}

/// The keys of a password, by a salt that is drawn.
fn keys_of<W: Words>(password: &[u8], rounds: u32, random: &mut W) -> Result<Secret, Failure>
    requires { 1 ≤ rounds }
    ensures makes { MakesKeys password.now rounds (W.drawn random.old) (W.drawn random.new) (W.faults random.old)
        (W.faults random.new) result }
    ensures form { IfOk result IsSecret }
{
    let Ok(words) = random.draw() else {
        return Err(Failure::Fault(Fault::Draw));
    };
    let mut salt = ArrayVec::new();
    let _ = salt.try_extend_from_slice(&words);
    Ok(Secret::of_salted(password, &salt, rounds))
}

/// Saves a store with a secret.
fn save_secret<L: Link, F: Files>(
    alloc: Global,
    account: &Account<'_>,
    store: Store,
    secret: &Secret,
    link: &mut L,
    files: &mut F,
) -> Result<(), Failure>
    requires name { is_plain_name account.now.name.now ≡ true }
    requires realm { is_plain_name account.now.realm.now ≡ true }
    requires form { IsSecret secret.now }
    ensures saves { let at = files_state F.contents F.asked F.faults in
        let link_at = link_of L.left L.given L.written L.reads in
        Saves (at files.old) (at files.new) account.now.store.now
        (put_in (entry_at account.now.name.now account.now.realm.now secret.now true) store)
        (set_line account.now.name.now account.now.realm.now account.now.kind.now) (link_at link.old) (link_at link.new) result }
    ensures says { IfErr result
        (LinkFilesSay L.written L.read_faults L.write_faults
        (files_state F.contents F.asked F.faults) link.old link.new files.old files.new) }
{
    let mut store = store;
    put(alloc, &mut store, account, secret)?;
    let line = set_line(alloc, account)?;
    save(alloc, account.store, &store, line.bytes(), link, files)
}

/// Puts a secret into a store.
fn put(
    alloc: Global,
    store: &mut Store,
    account: &Account<'_>,
    secret: &Secret,
) -> Result<(), Failure>
    requires name { is_plain_name account.now.name.now ≡ true }
    requires realm { is_plain_name account.now.realm.now ≡ true }
    requires form { IsSecret secret.now }
    ensures ok { OnOk result (store.new ≡ put_in (entry_at account.now.name.now account.now.realm.now secret.now true) store.old) }
    ensures err { IfErr result (λ failure. failure ≡ Failure.OutOfMemory) }
{
    if store.entries() == u32::MAX {
        return Err(Failure::OutOfMemory);
    }
    match store.set(alloc, account.name, account.realm, secret) {
        Ok(()) => Ok(()),
        Err(_) => Err(Failure::OutOfMemory),
    }
}

/// The line that tells what was set.
fn set_line(alloc: Global, account: &Account<'_>) -> Result<Octets, OutOfMemory>
    ensures { IfOk result (λ line. line ≡ set_line account.now.name.now account.now.realm.now account.now.kind.now) }
{
    let mut line = Octets::of(alloc, b"set ")?;
    line.extend(account.name)?;
    line.push(b' ')?;
    line.extend(account.realm)?;
    line.push(b' ')?;
    line.extend(account.kind)?;
    line.push(b'\n')?;
    Ok(line)
}
