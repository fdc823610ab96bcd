//! A table that makes passes.
ghost use Rattle.std.specs.Prelude.{◌≡◌, ◌≢◌, ◌+◌, ◌<◌, ◌≤◌, ◌↔◌, ℕ, All, Some, [], IfOk, IfErr, OnOk, OnErr, IsErr, length, slice_get, vec_capacity};
ghost use Rattle.nonce_shard.specs.Shard.{StandsFor, setting};
ghost use Rattle.nonce_shard.specs.Sizes.{AreValid};
ghost use Rattle.nonce_table.specs.Passes.{TablePassFacts};
ghost use Rattle.nonce_table.specs.Tables.{IsOf, AreShards, names_of, new_pass};
ghost use Rattle.nonce_table.specs.Closing.{history_of, IsClosingHistory, CountsHistories};

use crate::closing::{Closed, PassesKept};
use crate::object::{InTurn, TableObject};
use crate::pass::TablePass;
use crate::shard::open_shard;
use crate::turns::Turns;
use nonce_shard::{OutOfMemory, Shard, Sizes};
use std::alloc::{AllocError, Global};
use std::marker::Model;
use turn_table::Pass;

/// The most passes that one table makes.
pub const MOST_PASSES: u32 = 4096;

/// A table of nonces and exchanges, whose passes threads call with. Each shard has turns of its own.
#[derive(Drop)]
pub struct NonceTable<T: TableObject = Shard> {
    sizes: Sizes,
    turns: Turns<T>,
    openings: Vec<Pass<InTurn<T>>>,
    made: u32,
}

impl<T: TableObject> Model for NonceTable<T> {
    ghost use Rattle.nonce_table.specs.Tables.{NonceTableFacts, AreShards, table_facts};

    ghost Value = { NonceTableFacts };

    ghost view = { λ t. table_facts t.sizes t.turns t.made };

    ghost invariant = { λ t. AreShards t.sizes t.made t.turns t.openings.items };
}

impl NonceTable {
    /// An empty table, which takes all its memory here: at the standard sizes about 25 MB.
    pub fn open(alloc: Global, sizes: &Sizes) -> Result<NonceTable, OutOfMemory>
        requires { AreValid sizes.now }
        ensures sizes { IfOk result (λ t. t.sizes ≡ sizes.now) }
        ensures made { IfOk result (λ t. t.made ≡ 0) }
    {
        NonceTable::of(alloc, sizes, open_shards(alloc, sizes)?)
    }
}

/// The shards of an empty table.
fn open_shards(alloc: Global, sizes: &Sizes) -> Result<Vec<Shard>, OutOfMemory>
    requires { AreValid sizes.now }
    ensures long { IfOk result (λ shards. length shards.items ≡ sizes.now.shards) }
    ensures each { IfOk result (λ shards. (k : ℕ) (o : Shard) → slice_get shards.items k ≡ Some o
        → (setting o ≡ record { number = k; sizes = sizes.now }) × StandsFor o []) }
{
    let mut shards = Vec::with_capacity(alloc, sizes.shards as usize)?;
    for number in 0..sizes.shards {
        shards.push_reserved(Shard::open(alloc, number, sizes)?);
    }
    Ok(shards)
}

impl<T: TableObject> NonceTable<T> {
    /// A table of these objects, one for each shard, which have answered nothing.
    pub(crate) fn of(
        alloc: Global,
        sizes: &Sizes,
        objects: Vec<T>,
    ) -> Result<NonceTable<T>, OutOfMemory>
        requires valid { AreValid sizes.now }
        requires long { length objects.items ≡ sizes.now.shards }
        requires each { (k : ℕ) (o : T) → slice_get objects.items k ≡ Some o
            → (T.setting o ≡ record { number = k; sizes = sizes.now }) × T.stands_for o [] }
        ensures sizes { IfOk result (λ t. t.sizes ≡ sizes.now) }
        ensures made { IfOk result (λ t. t.made ≡ 0) }
    {
        let mut shards = Vec::with_capacity(alloc, objects.len())?;
        let mut openings = Vec::with_capacity(alloc, objects.len())?;
        for object in objects {
            let (turns, opening) = open_shard(alloc, object)?;
            shards.push_reserved(turns);
            openings.push_reserved(opening);
        }
        Ok(NonceTable {
            sizes: *sizes,
            turns: Turns::of(shards),
            openings,
            made: 0,
        })
    }

    /// The turns of its shards, which threads may share.
    pub fn turns(&self) -> &Turns<T>
        ensures { names_of result.now ≡ self.now.names }
    {
        &self.turns
    }

    /// The next passes: the first of a table has the owner 1, and each the next number.
    pub fn passes(&mut self, alloc: Global, n: u32) -> Result<Vec<TablePass<T>>, OutOfMemory>
        requires some { 1 ≤ n }
        requires few { self.old.made + n ≤ MOST_PASSES }
        ensures number { IfOk result (λ passes. length passes.items ≡ n) }
        ensures new { IfOk result (λ passes. (k : ℕ) (p : TablePassFacts) → slice_get passes.items k ≡ Some p
            → p ≡ new_pass self.old (self.old.made + 1 + k)) }
        ensures of { IfOk result (λ passes. All (λ p. IsOf self.new p) passes.items) }
        ensures table { OnOk result (self.new ≡ record (self.old) { made = self.old.made + n }) }
        ensures refused { OnErr result (self.new ≡ self.old) }
    {
        let rooms = reserve(alloc, n, self.openings.len())?;
        let mut passes = Vec::with_capacity(alloc, n as usize)?;
        for room in rooms {
            passes.push_reserved(self.next_pass(room));
        }
        Ok(passes)
    }

    /// The next pass, in this room for its passes to the shards.
    fn next_pass(&mut self, room: Vec<Pass<InTurn<T>>>) -> TablePass<T>
        requires few { self.old.made < MOST_PASSES }
        requires room { (room.items ≡ []) × (self.old.sizes.shards ≤ vec_capacity room) }
        ensures pass { result ≡ new_pass self.old (self.old.made + 1) }
        ensures table { self.new ≡ record (self.old) { made = self.old.made + 1 } }
    {
        let passes = self.turns.split_all(self.made, &mut self.openings, room);
        self.made += 1;
        TablePass::of(self.made as u64, &self.sizes, passes)
    }

    /// Closes the table, once every pass that was made is given. Else the table and the passes come
    /// back as they were. It takes no memory.
    pub fn close(self, passes: Vec<TablePass<T>>) -> Result<Closed, PassesKept<T>>
        requires of { All (λ p. IsOf self p) passes.items }
        requires few { length passes.items ≤ MOST_PASSES }
        ensures exactly { IsErr result ↔ (length passes.items ≢ self.made) }
        ensures kept { IfErr result (λ k. (k.table ≡ self) × (k.passes.items ≡ passes.items)) }
        ensures numbers { IfErr result (λ k. (k.made ≡ self.made) × (k.given ≡ length passes.items)) }
        ensures totals { IfOk result (λ c. CountsHistories self.sizes passes.items c) }
        ensures histories { OnOk result ((s : ℕ) → s < self.sizes.shards → IsClosingHistory s passes.items (history_of s passes.items)) }
    {
        let given = passes.len() as u32;
        if given != self.made {
            return Err(PassesKept {
                made: self.made,
                given,
                table: self,
                passes,
            });
        }
        let NonceTable {
            sizes: _,
            turns,
            mut openings,
            made: _,
        } = self;
        for pass in passes {
            turns.join(&mut openings, pass);
        }
        Ok(turns.close(openings))
    }
}

/// Room for this number of passes.
fn reserve<P: Drop>(alloc: Global, n: u32, shards: usize) -> Result<Vec<Vec<P>>, AllocError>
    ensures number { IfOk result (λ rooms. length rooms.items ≡ n) }
    ensures empty { IfOk result (λ rooms. All (λ r. (r.items ≡ []) × (vec_capacity r ≡ shards)) rooms.items) }
{
    let mut rooms = Vec::with_capacity(alloc, n as usize)?;
    for _ in 0..n {
        rooms.push_reserved(Vec::with_capacity(alloc, shards)?);
    }
    Ok(rooms)
}
