//! A seat at a table of nonces.
ghost use Rattle.std.specs.Prelude.{◌≡◌, ◌<◌, ◌≤◌, [], ◌∷◌, IfOk, IfErr};
ghost use Rattle.nonce_shard.specs.Replies.{Fits};
ghost use Rattle.nonce_shard.specs.Seat.{Seat, Grows, IsWorn};

use crate::calls::{Call, Reply};
use crate::errors::Worn;

/// One owner's place at a table. It makes calls on the table's shards, and has seen of each
/// shard's list of calls a first part, in which the calls of other owners may stand too.
pub trait TableSeat {
    ghost seat: { Self → Seat };

    /// How many shards the table has.
    fn shards(&self) -> u16
        ensures number { result ≡ (seat self.now).shards }
        ensures some { 1 ≤ result };

    /// Makes a call on a shard. It takes no memory. `Worn` comes where that shard is at its limit of
    /// calls.
    fn call(&mut self, shard: u16, call: &Call) -> Result<Reply, Worn>
        requires in_range { shard < (seat self.old).shards }
        requires fits { Fits call.now.what }
        ensures ok { IfOk result (λ reply. Grows (seat self.old) (seat self.new) (record {
          shard = shard;
          call = call.now;
          reply = reply;
        } ∷ [])) }
        ensures worn { IfErr result (λ w. IsWorn (seat self.old) (seat self.new) shard w.calls) };
}
