//! Passes at their desks, of one thread and of two.
mod slow;

ghost use Rattle.std.specs.Prelude.{◌≡◌, ◌≤◌, IfOk, OnOk};
ghost use Rattle.nonce_shard.specs.Replies.{Fits};
ghost use Rattle.nonce_table.specs.Tables.{IsOf};

use crate::{Closed, NonceTable, PassesKept, TableDesk, TableObject, TablePass};
use nonce_shard::{
    Call, NameKind, NonceKind, OutOfMemory, Reply, Sizes, TableName, TableSeat, What, Worn,
};
use slow::{ANSWERED, ENTERED, FOUND, SlowShard, Stage, came, slow_shards};
use std::alloc::Global;
use std::process::Abort;
use std::sync::atomic::{AtomicU64, Ordering};
use std::sync::{Arc, Wait};
use std::test::Fail;
use std::thread::{Threads, join_mut};

type Answer = Result<Reply, Worn>;

fn issue() -> Call
    ensures { Fits result.what }
{
    Call {
        moment: 0,
        what: What::Issue {
            kind: NonceKind::Digest,
            space: 0,
            random: [0; 16],
        },
    }
}

/// The use of the first count of the first nonce.
fn first_use() -> Call
    ensures { Fits result.what }
{
    Call {
        moment: 0,
        what: What::Use {
            nonce: TableName {
                kind: NameKind::Nonce,
                shard: 0,
                serial: 0,
                random: [0; 16],
            },
            kind: NonceKind::Digest,
            space: 0,
            count: 1,
            prime: None,
        },
    }
}

/// Makes a call on the first shard at a desk of its own.
fn called<R: Wait>(rt: &R, table: &NonceTable, pass: TablePass, call: &Call) -> (Answer, TablePass)
    requires pass { IsOf table.now pass }
    requires shards { 1 ≤ table.now.sizes.shards }
    requires fits { Fits call.now.what }
    ensures { IsOf table.now result.1 }
{
    let mut desk = TableDesk::new(rt, table, pass);
    let answer = desk.call(0, call);
    (answer, desk.into_pass())
}

/// The two passes of a new table.
fn two_passes<T: TableObject>(
    alloc: Global,
    table: &mut NonceTable<T>,
) -> Result<(TablePass<T>, TablePass<T>), OutOfMemory>
    requires { table.old.made ≡ 0 }
    ensures table { OnOk result (table.new ≡ record (table.old) { made = 2 }) }
    ensures passes { IfOk result (λ two. IsOf table.new two.0 × IsOf table.new two.1) }
{
    let mut passes = table.passes(alloc, 2)?;
    let second = passes.pop().unwrap();
    let first = passes.pop().unwrap();
    Ok((first, second))
}

/// The passes make the same use, this one first.
fn check_order<R: Wait + Abort>(
    rt: &R,
    alloc: Global,
    table: NonceTable,
    first: TablePass,
    second: TablePass,
) -> Result<(), Fail>
    requires table { (1 ≤ table.sizes.shards) × (table.made ≡ 2) }
    requires first { IsOf table first }
    requires second { IsOf table second }
{
    let (issued, first) = called(rt, &table, first, &issue());
    let (one, first) = called(rt, &table, first, &first_use());
    let (other, second) = called(rt, &table, second, &first_use());
    assert_eq!(rt; issued, Ok(Reply::Issued { serial: 0 }));
    assert_eq!(rt; one, Ok(Reply::Fresh { uses: 1 }));
    assert_eq!(rt; other, Ok(Reply::Repeated));
    let Err(kept) = table.close(vec![in alloc; first]?) else {
        assert!(rt; false);
        return Ok(());
    };
    assert_eq!(rt; (kept.made, kept.given), (2, 1));
    let PassesKept {
        table,
        mut passes,
        made: _,
        given: _,
    } = kept;
    passes.push(second)?;
    let wanted = Closed {
        calls: 3,
        issued: 1,
        admitted: 1,
        repeated: 1,
    };
    assert_eq!(rt; table.close(passes).ok(), Some(wanted));
    Ok(())
}

#[test]
fn of_two_passes_that_use_one_count_the_first_is_admitted(rt: HostRuntime) -> Result<(), Fail> {
    let alloc = rt.alloc();
    let mut table = NonceTable::open(alloc, &Sizes::single())?;
    let (first, second) = two_passes(alloc, &mut table)?;
    check_order(&rt, alloc, table, first, second)?;
    let mut table = NonceTable::open(alloc, &Sizes::single())?;
    let (first, second) = two_passes(alloc, &mut table)?;
    check_order(&rt, alloc, table, second, first)
}

/// Calls on the first shard.
fn issue_first<R: Wait>(desk: &mut TableDesk<'_, R, SlowShard>) -> bool
    requires { desk.old.sizes.shards ≡ 2 }
{
    desk.call(0, &issue()).is_ok()
}

/// Calls on the second shard while the call on the first has its turn.
fn issue_meanwhile<R: Wait>(desk: &mut TableDesk<'_, R, SlowShard>, stage: &Stage) -> bool
    requires { desk.old.sizes.shards ≡ 2 }
{
    let in_time = came(stage, ENTERED);
    let answered = desk.call(1, &issue()).is_ok();
    stage.store(ANSWERED, Ordering::SeqCst);
    in_time && answered
}

fn call_at_once<R: Threads + Wait + Sync>(
    rt: &R,
    first: &mut TableDesk<'_, R, SlowShard>,
    second: &mut TableDesk<'_, R, SlowShard>,
    stage: &Stage,
) -> (bool, bool)
    requires first { first.old.sizes.shards ≡ 2 }
    requires second { second.old.sizes.shards ≡ 2 }
{
    join_mut(
        rt,
        &mut || issue_first(first),
        &mut || issue_meanwhile(second, stage),
    )
}

#[test]
fn a_call_is_answered_while_another_shard_is_held(rt: HostRuntime) -> Result<(), Fail> {
    let alloc = rt.alloc();
    let sizes = Sizes {
        shards: 2,
        nonces: 4,
        exchanges: 2,
        ..Sizes::standard()
    };
    let stage = Arc::new(alloc, AtomicU64::new(0))?;
    let shards = slow_shards(alloc, &sizes, &stage)?;
    let mut table = NonceTable::of(alloc, &sizes, shards)?;
    let (first, second) = two_passes(alloc, &mut table)?;
    let mut first = TableDesk::new(&rt, &table, first);
    let mut second = TableDesk::new(&rt, &table, second);
    let answered = call_at_once(&rt, &mut first, &mut second, &stage);
    assert_eq!(rt; answered, (true, true));
    assert_eq!(rt; stage.load(Ordering::SeqCst), FOUND);
    Ok(())
}
