//! Drills that a seed generates.
ghost use Rattle.std.specs.Prelude.{◌≡◌, OnOk};
ghost use Rattle.nonce_shard.specs.Sizes.{single_sizes};

use crate::drilling::drill_line;
use crate::event::DrillEvent;
use crate::generated::GeneratedWords;
use crate::generator::Generator;
use crate::step::drill_step;
use crate::world::World;
use nonce_shard::{JournalTable, Sizes};
use std::alloc::Global;
use std::test::Fail;

/// Whether so many steps of a seed end with this line.
fn goes_so(alloc: Global, seed: u64, steps: u32, wanted: &str) -> Result<bool, Fail> {
    if steps > 4_096 {
        return Err("steps")?;
    }
    let line = drill_line(alloc, seed, steps)?;
    Ok(line.bytes() == wanted.as_bytes())
}

#[test]
fn a_seed_gives_its_line_each_time(rt: HostRuntime) -> Result<(), Fail> {
    let alloc = rt.alloc();
    let first = "steps 1 made 0 delivered 0 admitted 0 stale 0 refused 0\n";
    let long = "steps 4096 made 1694 delivered 1564 admitted 91 stale 1473 refused 0\n";
    assert!(rt; goes_so(alloc, 1, 1, first)?);
    assert!(rt; goes_so(alloc, 1, 4_096, long)?);
    assert!(rt; goes_so(alloc, 1, 4_096, long)?);
    Ok(())
}

/// Makes a step, where it can be made.
fn one_step(
    world: &mut World,
    event: &DrillEvent,
    words: &mut GeneratedWords,
    table: &mut JournalTable,
) -> Result<(), Fail>
    requires { table.old.sizes ≡ single_sizes }
    ensures { OnOk result (table.new.sizes ≡ single_sizes) }
{
    let tally = world.tally();
    let most = u32::MAX;
    if tally.delivered == most || tally.admitted == most {
        return Err("counts")?;
    }
    if tally.stale == most || tally.refused == most {
        return Err("counts")?;
    }
    match *event {
        DrillEvent::Deliver { k } if k as usize >= world.made() => return Err("place")?,
        DrillEvent::Pass { seconds } if seconds > u64::MAX - world.clock() => {
            return Err("clock")?;
        }
        _ => {}
    }
    drill_step(world, event, words, table)?;
    Ok(())
}

/// Counts, beside the world, how often each made request was admitted.
fn note(
    counts: &mut Vec<u64>,
    event: &DrillEvent,
    made: usize,
    admitted: bool,
) -> Result<(), Fail> {
    if counts.len() < made {
        counts.push(0)?;
    }
    if let DrillEvent::Deliver { k } = *event
        && admitted
        && let Some(count) = counts.get_mut(k as usize)
    {
        *count = count.saturating_add(1);
    }
    Ok(())
}

/// How a drill of so many steps ended: the world, and how often each made request was admitted.
fn drilled(alloc: Global, seed: u64, steps: u32) -> Result<(World, Vec<u64>), Fail> {
    let mut world = World::new(alloc)?;
    let mut table = JournalTable::open(alloc, 12_288, &Sizes::single())?;
    let mut generator = Generator::new(seed);
    let mut counts = Vec::new(alloc);
    for _ in 0..steps {
        let made = u32::try_from(world.made()).unwrap_or(u32::MAX);
        let event = generator.event(made);
        let mut words = GeneratedWords::new(generator);
        let before = world.tally().admitted;
        one_step(&mut world, &event, &mut words, &mut table)?;
        let admitted = world.tally().admitted != before;
        note(&mut counts, &event, world.made(), admitted)?;
        generator = words.generator();
    }
    Ok((world, counts))
}

/// Whether in each of fifty drills each delivery ended in one of three ways, no request was admitted twice, and some
/// was admitted in one of the drills.
fn all_end(alloc: Global) -> Result<bool, Fail> {
    let mut some = false;
    for seed in 0..50 {
        let (world, counts) = drilled(alloc, seed, 100)?;
        let tally = world.tally();
        let ends = tally.admitted as u64 + tally.stale as u64 + tally.refused as u64;
        if ends != tally.delivered as u64 || counts.iter().any(|count| *count > 1) {
            return Ok(false);
        }
        some = some || counts.contains(&1);
    }
    Ok(some)
}

#[test]
fn each_delivery_ends_in_one_way(rt: HostRuntime) -> Result<(), Fail> {
    assert!(rt; all_end(rt.alloc())?);
    Ok(())
}
