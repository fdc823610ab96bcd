//! How a pass waits for its turn, and how those who wait are woken.
ghost use Rattle.std.specs.Prelude.{◌≡◌, ◌%◌, ◌^◌, ℕ, true};
ghost use Rattle.turn_table.specs.declared.view.Turn.TheVariants.{Waiting, Ready};
ghost use Rattle.turn_table.specs.Rule.{IsSeatOf};

use crate::object::Object;
use crate::rule::{PassSeat, SERVING, TICKET, Turns};
use crate::steps::look_at_serving;
use std::sync::Wait;
use std::thread::yield_now;
use std::time::Duration;

/// How often a waiter gives its processor away before it sleeps.
const YIELDS: u32 = 64;

/// The longest sleep between two looks, in milliseconds.
const SLEEP: u64 = 1;

/// Waits until the number is served: gives the processor away a few times, and sleeps then.
pub fn wait_turn<R: Wait, O: Object>(rt: &R, turns: &Turns<O>, seat: &mut PassSeat<O>, number: u64)
    requires table { IsSeatOf seat.old.table_id turns.now.table_id }
    requires waits { (seat.old.me.0.named ≡ true) × ((n : ℕ) × (number ≡ n % 2 ^ 64) × (seat.old.me.0.turn ≡ Waiting n)) }
    ensures table { (seat.new.table_id ≡ seat.old.table_id) × (seat.new.id ≡ seat.old.id) }
    ensures ready { seat.new.me ≡ (record (seat.old.me.0) { turn = Ready }, seat.old.me.1) }
{
    let mut yields = 0;
    for _ in rt.forever() {
        let serving = look_at_serving(turns, seat);
        if serving == number {
            return;
        }
        if yields < YIELDS {
            yields += 1;
            yield_now();
        } else {
            sleep_while(rt, turns, serving);
        }
    }
    unreachable!()
}

/// Sleeps while this number is served, until a wake or for a short time.
fn sleep_while<R: Wait, O: Object>(rt: &R, turns: &Turns<O>, serving: u64)
    requires { turns.now.table_id.words ≡ 3 }
{
    let low = (serving & 0xffff_ffff) as u32;
    turns.park_timeout(rt, SERVING, low, Duration::from_millis(SLEEP));
}

/// Wakes those who sleep, if anyone drew a number after the one that was served.
pub fn wake_waiters<O: Object>(turns: &Turns<O>, served: u64)
    requires { turns.now.table_id.words ≡ 3 }
{
    if turns.peek(TICKET) != served.wrapping_add(1) {
        turns.wake_all(SERVING);
    }
}
