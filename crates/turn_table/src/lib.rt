//! One object that threads share by turns, with one history of its calls.
//!
//! A `TurnTable` has an `Object`, and each caller has a `Pass` of its own. A call waits for its
//! turn, is answered by the object and enters the history, which its pass has then seen up to this
//! call. So each reply is the one that the object would give a single caller, at its place in one
//! list of all calls. At the end every pass is joined into the opening one, and the object comes
//! back with that list.
//!
//! # Examples
//!
//! Two threads add to a register, which answers what it held before:
//!
//! ```text
//! let Ok((table, mut first)) = TurnTable::open(alloc, Register { value: 0 }) else { .. };
//! let mut second = table.split(&mut first);
//! let (one, two) = join_mut(
//!     rt,
//!     &mut || table.call(rt, &mut first, &1),
//!     &mut || table.call(rt, &mut second, &2),
//! );
//! table.join(&mut first, second);
//! let register = table.close(first);
//! ```
//!
//! The replies are 0 and 1, or 2 and 0, and the register holds 3.
//!
//! # Waiting
//!
//! A caller that waits gives its processor away a few times, and then sleeps until a turn ends or a
//! short time has passed. Nothing is promised of it: not that a turn ever comes, nor in what time, nor
//! an order between callers that never met. A caller whose `apply` doesn't return stops all others.
#![tactic(auto)]

mod errors;
mod object;
mod pass;
mod rule;
mod steps;
mod table;
#[cfg(test)]
mod tests;
mod turn;
mod view;
mod wait;

pub use errors::{OutOfMemory, Worn};
pub use object::{MOST_CALLS, Object};
pub use pass::Pass;
pub use table::TurnTable;
