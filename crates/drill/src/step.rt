//! One step.
ghost use Rattle.std.specs.Prelude.{◌≡◌, ◌≤◌, ℕ, Err, OnOk, OnErr};
ghost use Rattle.auth_io.specs.Causes.{Rose};
ghost use Rattle.nonce_shard.specs.Sizes.{single_sizes};
ghost use Rattle.drill.specs.Deciding.{Begins};
ghost use Rattle.drill.specs.Steps.{AreLow, CanHappen, IsLeft, IsStep, IsWornBy};

use crate::error::DrillError;
use crate::event::DrillEvent;
use crate::world::World;
use auth_io::Words;
use nonce_shard::JournalTable;

/// Makes the step of this event, with words that are drawn only where the client or the server's decision asks for them,
/// at a table of one shard. A request that is delivered has been made, the clock goes on within 64 bits, and the counts
/// of deliveries are below 4,294,967,295.
///
/// `RandomFault` comes only where the source's count of faults rose, and `Worn` exactly where the table answered it.
/// After an error the made requests, the clock and the counts are as before, and the client and the table are as their
/// last calls left them.
pub fn drill_step<W: Words>(
    world: &mut World,
    event: &DrillEvent,
    random: &mut W,
    table: &mut JournalTable,
) -> Result<(), DrillError>
    requires can { CanHappen world.old event.now }
    requires low { AreLow world.old.tally }
    requires sizes { table.old.sizes ≡ single_sizes }
    ensures ok { OnOk result (IsStep event.now world.old world.new table.old table.new (W.drawn random.old) (W.drawn random.new)) }
    ensures err { OnErr result (IsLeft event.now world.old world.new) }
    ensures begun { OnErr result (Begins table.old table.new) }
    ensures worn { (calls : ℕ) → result ≡ Err (DrillError.Worn calls) → IsWornBy event.now world.old table.old table.new calls }
    ensures later { W.faults random.old ≤ W.faults random.new }
    ensures fault { result ≡ Err DrillError.RandomFault → Rose (W.faults random.old) (W.faults random.new) }
{
    match *event {
        DrillEvent::Challenge => world.challenge(random, table),
        DrillEvent::Make => world.make(random, table),
        DrillEvent::Deliver { k } => world.deliver(k, random, table),
        DrillEvent::Pass { seconds } => {
            world.pass(seconds);
            Ok(())
        }
    }
}
