//! The decision for a request, with the calls that it asks for.
ghost use Rattle.std.specs.Prelude.{◌≡◌, ◌≢◌, Err};
ghost use Rattle.auth_grammar.specs.declared.items.Role.{Role};
ghost use Rattle.connection_loop.specs.Machine.{Incoming};
ghost use Rattle.request_deciding.specs.Deciding.{Decides, IsUnderWay};
ghost use Rattle.request_deciding.specs.Outside.{TableState, table_state};
ghost use Rattle.request_deciding.specs.Serving.{incoming_of, server};
ghost use Rattle.request_deciding.specs.declared.server.Server.{Server};

use crate::incoming::IncomingRequest;
use auth_decide::{Ask, Decision, Site, Verdict};
use auth_grammar::Role;
use auth_io::Words;
use connection_loop::{Lack, RespondError};
use nonce_shard::TableSeat;
use std::alloc::Global;

/// Decides on a request as a server of this role: reads its credentials, and draws and calls the table as the decision
/// asks.
///
/// `Lacking` comes where the source of words failed, and where a shard of the table takes no more calls.
pub fn decide<W: Words, T: TableSeat>(
    alloc: Global,
    role: Role,
    incoming: &IncomingRequest<'_>,
    site: &Site,
    random: &mut W,
    seat: &mut T,
) -> Result<Verdict, RespondError>
    ensures decided { let at = table_state W.drawn W.faults T.seat in
        Decides (at random.old seat.old) (at random.new seat.new) role (server site.now (T.seat seat.old).shards)
        (incoming_of incoming.now) result }
    // No draw failed, but where the words are lacking.
    ensures draws { result ≢ Err (RespondError.Lacking Lack.Random) → W.faults random.new ≡ W.faults random.old }
{
    let shards = seat.shards();
    match Decision::start(alloc, role, incoming.request, incoming.moment, site, shards) {
        Ok(mut decision) => {
            let verdict = run(alloc, &mut decision, random, seat);
            drop(decision);
            verdict
        }
        Err(_) => Err(RespondError::OutOfMemory),
    }
}

/// Makes the calls that the decision asks for, one after the other, and gives its verdict.
fn run<W: Words, T: TableSeat>(
    alloc: Global,
    decision: &mut Decision<'_>,
    random: &mut W,
    seat: &mut T,
) -> Result<Verdict, RespondError>
    requires { (T.seat seat.old).shards ≡ decision.old.question.shards }
    ensures decided { let at = table_state W.drawn W.faults T.seat in
        (before : TableState) (role : Role) (s : Server) (t : Incoming) → IsUnderWay before (at random.old seat.old) role s t decision.old
        → Decides before (at random.new seat.new) role s t result }
    ensures draws { result ≢ Err (RespondError.Lacking Lack.Random) → W.faults random.new ≡ W.faults random.old }
{
    loop {
        match decision.next(alloc) {
            Ok(Ask::Verdict(verdict)) => return Ok(verdict),
            Ok(Ask::Draw) => {
                let Ok(words) = random.draw() else {
                    return Err(RespondError::Lacking(Lack::Random));
                };
                decision.answer_words(&words);
            }
            Ok(Ask::Table { shard, call }) => match seat.call(shard, &call) {
                Ok(reply) => {
                    let Ok(()) = decision.answer(alloc, &reply) else {
                        return Err(RespondError::OutOfMemory);
                    };
                }
                Err(worn) => {
                    return Err(RespondError::Lacking(Lack::Worn { calls: worn.calls }));
                }
            },
            Err(_) => return Err(RespondError::OutOfMemory),
        }
    }
}
