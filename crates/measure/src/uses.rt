//! Counts of nonces, each used once.
ghost use Rattle.std.specs.Prelude.{◌<◌};
ghost use Rattle.nonce_shard.specs.Replies.{Fits};

use crate::job::Failure;
use nonce_shard::{
    Call, JournalTable, NameKind, NonceKind, Reply, Sizes, TableName, TableSeat, What,
};
use std::alloc::Global;

/// How many counts of a nonce are used before the next is issued.
const USES: u32 = 1000;

/// The random bytes of each nonce.
const RANDOM: [u8; 16] = [0; 16];

fn ask(table: &mut JournalTable, what: What) -> Result<Reply, Failure>
    requires { Fits what }
{
    match table.call(0, &Call { moment: 0, what }) {
        Ok(reply) => Ok(reply),
        Err(_) => Err(Failure::Refused),
    }
}

fn issue(table: &mut JournalTable) -> Result<TableName, Failure> {
    let what = What::Issue {
        kind: NonceKind::Digest,
        space: 1,
        random: RANDOM,
    };
    match ask(table, what)? {
        Reply::Issued { serial } => Ok(TableName {
            kind: NameKind::Nonce,
            shard: 0,
            serial,
            random: RANDOM,
        }),
        _ => Err(Failure::Refused),
    }
}

fn use_count(table: &mut JournalTable, nonce: TableName, count: u32) -> Result<(), Failure>
    requires { 0 < count }
{
    let what = What::Use {
        nonce,
        kind: NonceKind::Digest,
        space: 1,
        count,
        prime: None,
    };
    match ask(table, what)? {
        Reply::Fresh { .. } => Ok(()),
        _ => Err(Failure::Refused),
    }
}

/// Uses so many counts, and tells how many were fresh. A nonce is issued for each thousand.
pub(crate) fn used_counts(alloc: Global, size: u32) -> Result<usize, Failure> {
    let calls = size.saturating_add(size / USES).saturating_add(1);
    let mut table = JournalTable::open(alloc, calls, &Sizes::single())?;
    let mut nonce = issue(&mut table)?;
    for number in 0..size {
        if number > 0 && number % USES == 0 {
            nonce = issue(&mut table)?;
        }
        use_count(&mut table, nonce, number % USES + 1)?;
    }
    Ok(size as usize)
}
