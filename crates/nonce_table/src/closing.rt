//! The close of a table.
ghost use Rattle.std.specs.Prelude.{◌≡◌, ◌+◌, ◌<◌, ◌^◌, []};
ghost use Rattle.nonce_table.specs.Closing.{sum_of};

use crate::object::TableObject;
use crate::pass::TablePass;
use crate::table::NonceTable;
use nonce_shard::{Shard, Totals};

/// The totals of all shards: the calls, the nonces issued, and the uses answered Fresh and Repeated.
#[derive(Clone, Copy, Debug, PartialEq, Eq)]
pub struct Closed {
    pub calls: u128,
    pub issued: u128,
    pub admitted: u128,
    pub repeated: u128,
}

/// The table can't close: of the `made` passes, `given` came back. Table and passes are as they were.
#[derive(Drop)]
pub struct PassesKept<T: TableObject = Shard> {
    pub table: NonceTable<T>,
    pub passes: Vec<TablePass<T>>,
    pub made: u32,
    pub given: u32,
}

impl Closed {
    /// The totals of no shard.
    pub(crate) fn none() -> Closed
        ensures { result ≡ sum_of [] }
    {
        Closed {
            calls: 0,
            issued: 0,
            admitted: 0,
            repeated: 0,
        }
    }

    /// Adds the totals of one shard.
    pub(crate) fn add(&mut self, totals: &Totals)
        requires { (self.old.calls + totals.now.calls < 2 ^ 128) × (self.old.issued + totals.now.issued < 2 ^ 128)
            × (self.old.admitted + totals.now.admitted < 2 ^ 128) × (self.old.repeated + totals.now.repeated < 2 ^ 128) }
        ensures { self.new ≡ record {
          calls = self.old.calls + totals.now.calls;
          issued = self.old.issued + totals.now.issued;
          admitted = self.old.admitted + totals.now.admitted;
          repeated = self.old.repeated + totals.now.repeated;
        } }
    {
        self.calls += u128::from(totals.calls);
        self.issued += u128::from(totals.issued);
        self.admitted += u128::from(totals.admitted);
        self.repeated += u128::from(totals.repeated);
    }
}
