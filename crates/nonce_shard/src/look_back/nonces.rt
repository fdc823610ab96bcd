//! What a list of answered calls says of a nonce.
ghost use Rattle.std.specs.Prelude.{◌≡◌, ◌<◌, true, length, slice_get};
ghost use Rattle.std.specs.Option.{option_copied};
ghost use Rattle.count_window.specs.Window.{high, is_admitted};
ghost use Rattle.nonce_shard.specs.Replies.{reply_to};
ghost use Rattle.nonce_shard.specs.Nonces.{nonce_in, nonces, is_live, fresh_count, admitted, fresh_prime, first_prime, use_reply};

use crate::calls::{NonceKind, Prime, Reply, What};
use crate::copies::copy_prime;
use crate::history::Answered;
use crate::names::{TableName, is_same};
use crate::nonces::{Nonce, Wanted, is_other_session, serves};
use crate::sizes::Setting;
use count_window::WIDTH;

fn issued_by(a: &Answered) -> Option<Nonce>
    ensures { result ≡ nonce_in a.now.call.what a.now.time }
{
    match a.call.what {
        What::Issue {
            kind,
            space,
            random,
        } => Some(Nonce {
            kind,
            space,
            random,
            time: a.time,
        }),
        _ => None,
    }
}

pub fn count_nonces(past: &[Answered]) -> usize
    ensures { result ≡ length (nonces past.now) }
{
    past.iter().filter_map(|a| issued_by(a)).count()
}

fn nonce_at(past: &[Answered], serial: u64) -> Option<Nonce>
    ensures { result ≡ slice_get (nonces past.now) serial }
{
    let mut left = serial;
    for a in past {
        if let Some(nonce) = issued_by(a) {
            if left == 0 {
                return Some(nonce);
            }
            left -= 1;
        }
    }
    None
}

fn count_of(name: &TableName, a: &Answered) -> Option<u32>
    ensures { result ≡ fresh_count name.now a.now.call.what a.now.reply }
{
    match (&a.call.what, &a.reply) {
        (What::Use { nonce, count, .. }, Reply::Fresh { .. }) if is_same(nonce, name) => {
            Some(*count)
        }
        _ => None,
    }
}

fn count_admitted(past: &[Answered], name: &TableName) -> usize
    ensures { result ≡ length (admitted past.now name.now) }
{
    past.iter().filter_map(|a| count_of(name, a)).count()
}

/// Whether the name's nonce may be used.
pub fn is_nonce_live(
    setting: &Setting,
    past: &[Answered],
    name: &TableName,
    wanted: &Wanted,
) -> bool
    ensures live { result ≡ is_live setting.now.sizes setting.now.number past.now name.now
        wanted.now.kind wanted.now.space wanted.now.time }
    ensures uses { result ≡ true → length (admitted past.now name.now) < u32.MAX }
{
    match nonce_at(past, name.serial) {
        Some(nonce) => {
            let later = (count_nonces(past) as u64)
                .saturating_sub(name.serial)
                .saturating_sub(1);
            serves(setting, name, wanted, &nonce)
                && later < setting.sizes.nonces as u64
                && count_admitted(past, name) < setting.sizes.uses as usize
        }
        None => false,
    }
}

fn prime_of<'a>(name: &TableName, a: &'a Answered) -> Option<&'a Prime>
    ensures { option_copied result ≡ fresh_prime name.now a.now.call.what a.now.reply }
{
    match (&a.call.what, &a.reply) {
        (What::Use { nonce, prime, .. }, Reply::Fresh { .. }) if is_same(nonce, name) => {
            prime.as_ref()
        }
        _ => None,
    }
}

/// The prime that the nonce holds.
pub fn find_prime<'a>(past: &'a [Answered], name: &TableName) -> Option<&'a Prime>
    ensures { option_copied result ≡ first_prime past.now name.now }
{
    for a in past {
        if let Some(found) = prime_of(name, a) {
            return Some(found);
        }
    }
    None
}

/// A copy of it.
pub fn copy_found_prime(prime: Option<&Prime>) -> Option<Prime>
    ensures { result ≡ option_copied prime.entry }
{
    match prime {
        Some(prime) => Some(copy_prime(prime)),
        None => None,
    }
}

fn highest(past: &[Answered], name: &TableName) -> u32
    ensures { result ≡ high (admitted past.now name.now) }
{
    past.iter()
        .filter_map(|a| count_of(name, a))
        .fold(0, |a, b| a.max(b))
}

fn was_admitted(past: &[Answered], name: &TableName, count: u32) -> bool
    ensures { result ≡ is_admitted (admitted past.now name.now) count }
{
    past.iter()
        .filter_map(|a| count_of(name, a))
        .any(|c| c == count)
}

/// The reply to a peek at a nonce, for a space, at a time.
pub fn reply_to_peek(
    setting: &Setting,
    past: &[Answered],
    name: &TableName,
    space: u32,
    now: u64,
) -> Reply
    ensures { result ≡ reply_to setting.now.sizes setting.now.number past.now now (What.Peek name.now space) }
{
    let wanted = Wanted::new(NonceKind::Digest, space, now);
    if !is_nonce_live(setting, past, name, &wanted) {
        return Reply::Gone;
    }
    Reply::Prime {
        prime: copy_found_prime(find_prime(past, name)),
    }
}

/// The reply to the use of a live nonce.
pub fn reply_to_use(past: &[Answered], name: &TableName, count: u32, given: &Option<Prime>) -> Reply
    requires { length (admitted past.now name.now) < u32.MAX }
    ensures { result ≡ use_reply (admitted past.now name.now) (first_prime past.now name.now) count given.now }
{
    let high = highest(past, name);
    if count as u64 + WIDTH as u64 <= high as u64 {
        Reply::Behind { high }
    } else if was_admitted(past, name, count) {
        Reply::Repeated
    } else if is_other_session(given, find_prime(past, name)) {
        Reply::OtherSession
    } else {
        Reply::Fresh {
            uses: count_admitted(past, name) as u32 + 1,
        }
    }
}
