//! A pass beside its table.
ghost use Rattle.std.specs.Prelude.{◌≡◌};
ghost use Rattle.nonce_table.specs.Tables.{IsAt, IsOf};

use crate::object::TableObject;
use crate::pass::TablePass;
use crate::table::NonceTable;
use crate::turns::Turns;
use nonce_shard::{Call, Reply, Shard, TableSeat, Worn};
use std::marker::Model;
use std::sync::Wait;

/// A pass beside the turns of its table, at which one thread calls. A call waits for the turn of its
/// shard. A desk can go to a thread of its own.
#[derive(Drop)]
pub struct TableDesk<'t, R: Wait, T: TableObject = Shard> {
    rt: &'t R,
    turns: &'t Turns<T>,
    pass: TablePass<T>,
}

impl<'t, R: Wait, T: TableObject> Model for TableDesk<'t, R, T> {
    ghost use Rattle.nonce_table.specs.Passes.{TablePassFacts};
    ghost use Rattle.nonce_table.specs.Tables.{IsAt};

    ghost Value = { TablePassFacts };

    ghost view = { λ d. d.pass };

    ghost invariant = { λ d. IsAt d.turns.now d.pass };
}

impl<'t, R: Wait, T: TableObject> TableDesk<'t, R, T> {
    /// A desk for this pass, at its own table.
    pub fn new(rt: &'t R, table: &'t NonceTable<T>, pass: TablePass<T>) -> TableDesk<'t, R, T>
        requires { IsOf table.now pass }
        ensures { result ≡ pass }
    {
        TableDesk::at(rt, table.turns(), pass)
    }

    /// A desk for this pass, at the turns of its own table.
    pub fn at(rt: &'t R, turns: &'t Turns<T>, pass: TablePass<T>) -> TableDesk<'t, R, T>
        requires { IsAt turns.now pass }
        ensures { result ≡ pass }
    {
        TableDesk { rt, turns, pass }
    }

    /// The pass, with what it has seen.
    pub fn into_pass(self) -> TablePass<T>
        ensures { result ≡ self.entry }
    {
        let TableDesk {
            rt: _,
            turns: _,
            pass,
        } = self;
        pass
    }
}

impl<'t, R: Wait, T: TableObject> TableSeat for TableDesk<'t, R, T> {
    ghost use Rattle.nonce_table.specs.Passes.{seat_of};

    ghost seat = { seat_of };

    fn shards(&self) -> u16 {
        self.pass.shards()
    }

    fn call(&mut self, shard: u16, call: &Call) -> Result<Reply, Worn> {
        self.pass.call(self.rt, self.turns, shard, call)
    }
}
