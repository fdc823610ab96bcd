//! The plain program: the reply to a call by looking back over the whole list of calls answered
//! before it. The shard is compared with it by a test, and nothing else calls it.
ghost use Rattle.std.specs.Prelude.{◌≡◌};
ghost use Rattle.std.specs.List.{count_by};
ghost use Rattle.nonce_shard.specs.History.{time_at};
ghost use Rattle.nonce_shard.specs.Replies.{reply_to, answer};
ghost use Rattle.nonce_shard.specs.Nonces.{is_fresh};
ghost use Rattle.nonce_shard.specs.Totals.{is_repeated, totals_of};

mod exchanges;
mod nonces;

use crate::calls::{Call, Reply, What};
use crate::copies::copy_call;
use crate::exchanges::{reply_to_keep, reply_to_recall, reply_to_take};
use crate::history::Answered;
use crate::nonces::Wanted;
use crate::sizes::Setting;
use crate::totals::Totals;
use exchanges::{count_openings, find_opening, progress_of};
use nonces::{count_nonces, is_nonce_live, reply_to_peek, reply_to_use};

fn next_time(past: &[Answered], moment: u64) -> u64
    ensures { result ≡ time_at past.now moment }
{
    past.iter()
        .map(|a| a.call.moment)
        .fold(moment, |a, b| a.max(b))
}

fn reply_of(setting: &Setting, past: &[Answered], now: u64, what: &What) -> Reply
    ensures { result ≡ reply_to setting.now.sizes setting.now.number past.now now what.now }
{
    match what {
        What::Issue { .. } => Reply::Issued {
            serial: count_nonces(past) as u64,
        },
        What::Peek { nonce, space } => reply_to_peek(setting, past, nonce, *space, now),
        What::Use {
            nonce,
            kind,
            space,
            count,
            prime,
        } => {
            let wanted = Wanted::new(*kind, *space, now);
            if is_nonce_live(setting, past, nonce, &wanted) {
                reply_to_use(past, nonce, *count, prime)
            } else {
                Reply::Gone
            }
        }
        What::Open { .. } => Reply::Opened {
            serial: count_openings(past) as u64,
        },
        What::Take { sid, space } => match find_opening(setting, past, sid, *space) {
            Some(found) => reply_to_take(&setting.sizes, now, &found, progress_of(past, sid)),
            None => Reply::Gone,
        },
        What::Keep { sid, space } => match find_opening(setting, past, sid, *space) {
            Some(_) => reply_to_keep(progress_of(past, sid)),
            None => Reply::Gone,
        },
        What::Recall { sid, space } => match find_opening(setting, past, sid, *space) {
            Some(found) => reply_to_recall(&setting.sizes, now, &found, progress_of(past, sid)),
            None => Reply::Gone,
        },
    }
}

/// The call with its time and its reply.
pub fn answer_to(setting: &Setting, past: &[Answered], call: &Call) -> Answered
    ensures { result ≡ answer setting.now.sizes setting.now.number past.now call.now }
{
    let time = next_time(past, call.moment);
    Answered {
        call: copy_call(call),
        time,
        reply: reply_of(setting, past, time, &call.what),
    }
}

fn was_fresh(a: &Answered) -> bool
    ensures { result ≡ is_fresh a.now.reply }
{
    matches!(a.reply, Reply::Fresh { .. })
}

fn was_repeated(a: &Answered) -> bool
    ensures { result ≡ is_repeated a.now.reply }
{
    matches!(a.reply, Reply::Repeated)
}

fn count_fresh(past: &[Answered]) -> usize
    ensures { result ≡ count_by (λ a. is_fresh a.reply) past.now }
{
    past.iter().filter(|a| was_fresh(a)).count()
}

fn count_repeated(past: &[Answered]) -> usize
    ensures { result ≡ count_by (λ a. is_repeated a.reply) past.now }
{
    past.iter().filter(|a| was_repeated(a)).count()
}

/// The numbers of some answered calls.
pub fn count_totals(past: &[Answered]) -> Totals
    ensures { result ≡ totals_of past.now }
{
    Totals {
        calls: past.len() as u64,
        issued: count_nonces(past) as u64,
        admitted: count_fresh(past) as u64,
        repeated: count_repeated(past) as u64,
    }
}
