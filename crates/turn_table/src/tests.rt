//! Passes of one thread and of many.
mod register;

ghost use Rattle.std.specs.Prelude.{◌≡◌, ◌+◌, ◌<◌, ◌^◌, [], ℕ, All, IfOk, length, slice_index_or};
ghost use Rattle.turn_table.specs.Registers.{IsSamePass};

use crate::{OutOfMemory, Pass, TurnTable, Worn};
use register::Register;
use std::alloc::{AllocError, Global};
use std::process::Abort;
use std::sync::Wait;
use std::test::Fail;
use std::thread::{Threads, for_each_mut, join_mut};

const CALLERS: usize = 8;

const CALLS: usize = 10_000;

fn opened(alloc: Global) -> Result<(TurnTable<Register>, Pass<Register>), OutOfMemory>
    ensures { IfOk result (λ t. (t.1.table ≡ t.0.id) × (t.1.owner ≡ 0) × (t.1.made ≡ 0) × (t.1.kept ≡ [])) }
{
    match TurnTable::open(alloc, Register { value: 0 }) {
        Ok(opened) => Ok(opened),
        Err((error, _register)) => Err(error),
    }
}

fn add<R: Wait>(rt: &R, table: &TurnTable<Register>, pass: &mut Pass<Register>, by: u64) -> u64
    requires { pass.old.table ≡ table.now.id }
    ensures { IsSamePass pass.old pass.new }
{
    match table.call(rt, pass, &by) {
        Ok(reply) => reply,
        Err(Worn { calls }) => calls,
    }
}

#[test]
fn two_passes_of_one_thread(rt: HostRuntime) -> Result<(), Fail> {
    let (table, mut first) = opened(rt.alloc())?;
    let mut second = table.split(&mut first);
    assert_eq!(rt; add(&rt, &table, &mut first, 1), 0);
    assert_eq!(rt; add(&rt, &table, &mut second, 2), 1);
    table.meet(&mut first, &mut second);
    table.join(&mut first, second);
    assert_eq!(rt; table.close(first).value, 3);
    Ok(())
}

#[test]
fn two_threads_call_in_some_order(rt: HostRuntime) -> Result<(), Fail> {
    let (table, mut first) = opened(rt.alloc())?;
    let mut second = table.split(&mut first);
    let (one, two) = join_mut(
        &rt,
        &mut || add(&rt, &table, &mut first, 1),
        &mut || add(&rt, &table, &mut second, 2),
    );
    assert!(rt; (one, two) == (0, 1) || (one, two) == (2, 0), "{one} {two}");
    table.join(&mut first, second);
    assert_eq!(rt; table.close(first).value, 3);
    Ok(())
}

/// A pass, and the replies to its calls.
#[derive(Drop)]
struct Caller {
    pass: Pass<Register>,
    replies: Vec<u64>,
}

fn call_often<R: Wait>(rt: &R, table: &TurnTable<Register>, caller: &mut Caller)
    requires { caller.old.pass.table ≡ table.now.id }
    ensures { caller.new.pass.table ≡ caller.old.pass.table }
{
    for _ in 0..CALLS {
        let reply = add(rt, table, &mut caller.pass, 1);
        if caller.replies.push(reply).is_err() {
            return;
        }
    }
}

fn call_at_once<R: Threads + Wait + Sync>(
    rt: &R,
    table: &TurnTable<Register>,
    callers: &mut [Caller],
)
    requires { All (λ c. c.pass.table ≡ table.now.id) callers.old }
    ensures { All (λ c. c.pass.table ≡ table.now.id) callers.new }
{
    for_each_mut(
        rt,
        callers,
        CALLERS,
        &|_, caller| call_often(rt, table, caller),
    );
}

/// A caller for each thread.
fn split_callers(
    alloc: Global,
    table: &TurnTable<Register>,
    first: &mut Pass<Register>,
) -> Result<Vec<Caller>, AllocError>
    requires { (first.old.table ≡ table.now.id) × (first.old.owner ≡ 0) × (first.old.made ≡ 0) }
    ensures first { (first.new.table ≡ first.old.table) × (first.new.owner ≡ 0) × (first.new.kept ≡ first.old.kept) }
    ensures made { IfOk result (λ callers. first.new.made ≡ length callers.items) }
    ensures callers { IfOk result (λ callers. All (λ c. c.pass.table ≡ table.now.id) callers.items) }
{
    let mut callers = Vec::with_capacity(alloc, CALLERS)?;
    for _ in 0..CALLERS {
        let replies = Vec::with_capacity(alloc, CALLS)?;
        let pass = table.split(first);
        callers.push_reserved(Caller { pass, replies });
    }
    Ok(callers)
}

fn join_callers(
    table: &TurnTable<Register>,
    first: Pass<Register>,
    callers: Vec<Caller>,
) -> Pass<Register>
    requires first { (first.table ≡ table.now.id) × (first.owner ≡ 0) × (first.kept ≡ []) }
    requires callers { All (λ c. c.pass.table ≡ table.now.id) callers.items }
    ensures { (result.table ≡ table.now.id) × (result.owner ≡ 0) × (result.made ≡ first.made) × (length result.kept ≡ length callers.items) }
{
    let mut all = first;
    for caller in callers {
        let Caller { pass, replies: _ } = caller;
        table.join(&mut all, pass);
    }
    all
}

/// Marks the replies, which rise, and none of which was marked.
fn mark<R: Abort>(rt: &R, seen: &mut [bool], replies: &[u64]) {
    assert_eq!(rt; replies.len(), CALLS);
    let mut least = 0;
    for &reply in replies {
        assert!(rt;
            least <= reply && reply < seen.len() as u64,
            "{least} {reply}"
        );
        assert!(rt; !seen[reply as usize], "{reply} twice");
        seen[reply as usize] = true;
        least = reply;
    }
}

#[test]
fn eight_threads_make_one_history_of_80_000_calls(rt: HostRuntime) -> Result<(), Fail> {
    let (table, mut first) = opened(rt.alloc())?;
    let mut callers = split_callers(rt.alloc(), &table, &mut first)?;
    call_at_once(&rt, &table, callers.as_mut_slice());
    let mut seen = vec![in rt.alloc(); false; CALLERS * CALLS]?;
    for caller in &callers {
        mark(&rt, seen.as_mut_slice(), caller.replies.as_slice());
    }
    let all = join_callers(&table, first, callers);
    assert_eq!(rt; table.close(all).value, 80_000);
    Ok(())
}
