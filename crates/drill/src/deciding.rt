//! The decision for a request, at a table of one shard that nobody else uses.
ghost use Rattle.std.specs.Prelude.{◌≡◌, ◌≤◌, ℕ, List, Option, Err, IfOk, OnErr, true};
ghost use Rattle.auth_io.specs.Causes.{Rose};
ghost use Rattle.auth_decide.specs.Stages.{Question};
ghost use Rattle.nonce_shard.specs.Journal.{Journal};
ghost use Rattle.nonce_shard.specs.Sizes.{single_sizes};
ghost use Rattle.drill.specs.Deciding.{AreWords, Begins, Decides, Ends, IsUnderWay, Wears};
ghost use Rattle.drill.specs.Requests.{can_send, plain_request, request_with};
ghost use Rattle.drill.specs.Site.{the_site};

use crate::error::DrillError;
use crate::requests::{plain_request, request_with};
use auth_decide::{Ask, Decision, Site, Verdict};
use auth_grammar::{Item, Role};
use auth_io::Words;
use http_wire::Request;
use nonce_shard::{JournalTable, TableSeat};
use std::alloc::Global;

/// Decides on the request without credentials.
pub(crate) fn decide_plain<W: Words>(
    alloc: Global,
    site: &Site,
    moment: u64,
    random: &mut W,
    table: &mut JournalTable,
) -> Result<Verdict, DrillError>
    requires site { site.now ≡ the_site }
    requires sizes { table.old.sizes ≡ single_sizes }
    ensures ok { IfOk result (Decides moment plain_request table.old table.new (W.drawn random.old) (W.drawn random.new)) }
    ensures begun { OnErr result (Begins table.old table.new) }
    ensures worn { (calls : ℕ) → result ≡ Err (DrillError.Worn calls) → Wears moment plain_request table.old table.new calls }
    ensures later { W.faults random.old ≤ W.faults random.new }
    ensures fault { result ≡ Err DrillError.RandomFault → Rose (W.faults random.old) (W.faults random.new) }
{
    let request = plain_request(alloc)?;
    decide(alloc, site, &request, moment, random, table)
}

/// Decides on the request with these credentials.
pub(crate) fn decide_with<W: Words>(
    alloc: Global,
    site: &Site,
    item: &Item,
    moment: u64,
    random: &mut W,
    table: &mut JournalTable,
) -> Result<Verdict, DrillError>
    requires site { site.now ≡ the_site }
    requires can { can_send item.now ≡ true }
    requires sizes { table.old.sizes ≡ single_sizes }
    ensures ok { IfOk result (Decides moment (request_with item.now) table.old table.new (W.drawn random.old) (W.drawn random.new)) }
    ensures begun { OnErr result (Begins table.old table.new) }
    ensures worn { (calls : ℕ) → result ≡ Err (DrillError.Worn calls) → Wears moment (request_with item.now) table.old table.new calls }
    ensures later { W.faults random.old ≤ W.faults random.new }
    ensures fault { result ≡ Err DrillError.RandomFault → Rose (W.faults random.old) (W.faults random.new) }
{
    let request = request_with(alloc, item)?;
    decide(alloc, site, &request, moment, random, table)
}

/// Decides on a request at this moment.
fn decide<W: Words>(
    alloc: Global,
    site: &Site,
    request: &Request,
    moment: u64,
    random: &mut W,
    table: &mut JournalTable,
) -> Result<Verdict, DrillError>
    requires site { site.now ≡ the_site }
    requires sizes { table.old.sizes ≡ single_sizes }
    ensures ok { IfOk result (Decides moment request.now table.old table.new (W.drawn random.old) (W.drawn random.new)) }
    ensures begun { OnErr result (Begins table.old table.new) }
    ensures worn { (calls : ℕ) → result ≡ Err (DrillError.Worn calls) → Wears moment request.now table.old table.new calls }
    ensures later { W.faults random.old ≤ W.faults random.new }
    ensures fault { result ≡ Err DrillError.RandomFault → Rose (W.faults random.old) (W.faults random.new) }
{
    match Decision::start(alloc, Role::Origin, request, moment, site, 1) {
        Ok(mut decision) => {
            let verdict = run(alloc, &mut decision, random, table);
            drop(decision);
            verdict
        }
        Err(_) => Err(DrillError::OutOfMemory),
    }
}

/// Makes the calls that the decision asks for, one after the other, and gives its verdict.
fn run<W: Words>(
    alloc: Global,
    decision: &mut Decision<'_>,
    random: &mut W,
    table: &mut JournalTable,
) -> Result<Verdict, DrillError>
    requires shards { decision.old.question.shards ≡ 1 }
    requires sizes { table.old.sizes ≡ single_sizes }
    ensures ends { (q : Question) (before : Journal) (told : Option (List (List ℕ)))
        → IsUnderWay q before table.old told (W.drawn random.old) decision.old
        → Ends q before table.new told (W.drawn random.new) result }
    ensures later { W.faults random.old ≤ W.faults random.new }
    ensures fault { result ≡ Err DrillError.RandomFault → Rose (W.faults random.old) (W.faults random.new) }
{
    loop {
        match decision.next(alloc) {
            Ok(Ask::Verdict(verdict)) => return Ok(verdict),
            Ok(Ask::Draw) => {
                let Ok(words) = random.draw() else {
                    return Err(DrillError::RandomFault);
                };
                are_words(&words);
                decision.answer_words(&words);
            }
            Ok(Ask::Table { shard, call }) => match table.call(shard, &call) {
                Ok(reply) => {
                    let Ok(()) = decision.answer(alloc, &reply) else {
                        return Err(DrillError::OutOfMemory);
                    };
                }
                Err(worn) => return Err(DrillError::Worn { calls: worn.calls }),
            },
            Err(_) => return Err(DrillError::OutOfMemory),
        }
    }
}

/// Sixteen bytes are words. It does nothing but say so.
pub(crate) fn are_words(words: &[u8; 16])
    ensures { AreWords words.now }
{
    let _ = words.as_slice();
}
