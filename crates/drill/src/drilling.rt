//! A drill that a number generates.
ghost use Rattle.std.specs.Prelude.{◌≡◌, ◌≤◌, IfOk, OnOk};
ghost use Rattle.drill.specs.Drilling.{HasRoom, IsNext};
ghost use Rattle.drill.specs.Generator.{IsDrillLine};

use crate::error::DrillError;
use crate::generated::GeneratedWords;
use crate::generator::Generator;
use crate::step::drill_step;
use crate::world::World;
use auth_grammar::{Octets, OutOfMemory};
use nonce_shard::{JournalTable, Sizes};
use std::alloc::Global;

/// The most steps of a drill.
pub const MOST_STEPS: u32 = 4_096;

/// How many calls its table takes. A step makes at most three.
const TABLE_CALLS: u32 = 12_288;

/// The line of so many steps that a seed generates, at most 4,096. No draw fails, and the table is never worn.
pub fn drill_line(alloc: Global, seed: u64, steps: u32) -> Result<Octets, OutOfMemory>
    requires { steps ≤ MOST_STEPS }
    ensures { IfOk result (IsDrillLine seed steps) }
{
    let mut world = World::new(alloc)?;
    let Ok(mut table) = JournalTable::open(alloc, TABLE_CALLS, &Sizes::single()) else {
        return Err(OutOfMemory);
    };
    let mut generator = Generator::new(seed);
    for _ in 0..steps {
        take_step(&mut world, &mut generator, &mut table)?;
    }
    world.line(steps)
}

/// Makes the next step that the generator gives.
fn take_step(
    world: &mut World,
    generator: &mut Generator,
    table: &mut JournalTable,
) -> Result<(), OutOfMemory>
    requires { HasRoom world.old table.old }
    ensures { OnOk result (IsNext generator.old.state generator.new.state world.old world.new table.old table.new) }
{
    let event = generator.event(world.made() as u32);
    let mut words = GeneratedWords::new(*generator);
    match drill_step(world, &event, &mut words, table) {
        Ok(()) => {
            *generator = words.generator();
            Ok(())
        }
        Err(DrillError::OutOfMemory) => Err(OutOfMemory),
        Err(DrillError::RandomFault) => unreachable!(),
        Err(DrillError::Worn { .. }) => unreachable!(),
    }
}
