//! What a list of answered calls says of an exchange.
ghost use Rattle.std.specs.Prelude.{◌≡◌, length, slice_get};
ghost use Rattle.std.specs.List.{list_any};
ghost use Rattle.nonce_shard.specs.Exchanges.{opening_in, openings, opening, takes, keep_in, kept_at, progress};

use crate::calls::{Reply, What};
use crate::exchanges::{Opening, Progress, is_named};
use crate::history::Answered;
use crate::names::{TableName, is_same};
use crate::sizes::Setting;

fn opened_by(a: &Answered) -> Option<Opening>
    ensures { result ≡ opening_in a.now.call.what a.now.time }
{
    match &a.call.what {
        What::Open {
            space,
            random,
            exchange,
        } => Some(Opening {
            space: *space,
            random: *random,
            exchange: exchange.copy(),
            time: a.time,
        }),
        _ => None,
    }
}

pub fn count_openings(past: &[Answered]) -> usize
    ensures { result ≡ length (openings past.now) }
{
    past.iter().filter_map(|a| opened_by(a)).count()
}

fn opening_at(past: &[Answered], serial: u64) -> Option<Opening>
    ensures { result ≡ slice_get (openings past.now) serial }
{
    let mut left = serial;
    for a in past {
        if let Some(opening) = opened_by(a) {
            if left == 0 {
                return Some(opening);
            }
            left -= 1;
        }
    }
    None
}

/// The opening of this name in this space, while it is there.
pub fn find_opening(
    setting: &Setting,
    past: &[Answered],
    name: &TableName,
    space: u32,
) -> Option<Opening>
    ensures { result ≡ opening setting.now.sizes setting.now.number past.now name.now space }
{
    let found = opening_at(past, name.serial)?;
    let later = (count_openings(past) as u64)
        .saturating_sub(name.serial)
        .saturating_sub(1);
    if is_named(setting.number, name, space, &found) && later < setting.sizes.exchanges as u64 {
        Some(found)
    } else {
        None
    }
}

fn is_take(name: &TableName, a: &Answered) -> bool
    ensures { result ≡ takes name.now a.now.call.what a.now.reply }
{
    match (&a.call.what, &a.reply) {
        (What::Take { sid, .. }, Reply::Taken { .. }) => is_same(sid, name),
        _ => false,
    }
}

fn keep_time(name: &TableName, a: &Answered) -> Option<u64>
    ensures { result ≡ keep_in name.now a.now.call.what a.now.reply a.now.time }
{
    match (&a.call.what, &a.reply) {
        (What::Keep { sid, .. }, Reply::Kept) if is_same(sid, name) => Some(a.time),
        _ => None,
    }
}

fn first_keep(past: &[Answered], name: &TableName) -> Option<u64>
    ensures { result ≡ kept_at past.now name.now }
{
    for a in past {
        if let Some(time) = keep_time(name, a) {
            return Some(time);
        }
    }
    None
}

fn was_taken(past: &[Answered], name: &TableName) -> bool
    ensures { result ≡ list_any (λ a. takes name.now a.call.what a.reply) past.now }
{
    past.iter().any(|a| is_take(name, a))
}

/// How far the exchange of this name has come.
pub fn progress_of(past: &[Answered], name: &TableName) -> Progress
    ensures { result ≡ progress past.now name.now }
{
    match first_keep(past, name) {
        Some(time) => Progress::Finished { time },
        None if was_taken(past, name) => Progress::Tried,
        None => Progress::Untried,
    }
}
