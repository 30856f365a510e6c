//! A schedule is played, in memory.
ghost use Rattle.std.specs.Prelude.{◌+◌, ◌^◌, ◌<◌, ◌≤◌, length, IfErr, IfOk, IsTrue};
ghost use Rattle.plx_cli.specs.Batches.{IsTextOf, PlaysNext};
ghost use Rattle.plx_cli.specs.Program.{IsOutcome, IsTrace};
ghost use Rattle.plx_text.specs.Readings.{EndsBadly};
ghost use Rattle.plx_text.specs.Schedules.{NamesFirstBad};

use crate::status::Status;
use plx_base::NoMemory;
use plx_geom::Geometry;
use plx_text::{Lines, Text, TextError, print_bad_line, print_trace, read_events, read_first};
use plx_world::World;
use std::alloc::{AllocError, Global};

/// The most events that are read before they are played.
const BATCH: usize = 4096;

/// What is to be written, and the status once it is.
#[derive(Drop)]
pub(crate) struct Answer {
    pub(crate) status: Status,
    pub(crate) text: Text,
}

/// Plays the schedule that the bytes spell, or names their first bad line.
pub(crate) fn replay(alloc: Global, bytes: &[u8]) -> Result<Answer, NoMemory>
    ensures { IfOk result (λ answer. IsOutcome bytes.now answer.status answer.text) }
{
    match play(alloc, bytes) {
        Ok(text) => Ok(Answer {
            status: Status::Done,
            text,
        }),
        Err(TextError::BadLine { line }) => {
            let text = print_bad_line(alloc, line)?;
            Ok(Answer {
                status: Status::BadLine,
                text,
            })
        }
        Err(TextError::NoMemory) => Err(AllocError),
    }
}

// The trace of the world to which the events of a schedule lead. They are played as they are read: what was played
// before a bad line is dropped.
fn play(alloc: Global, bytes: &[u8]) -> Result<Text, TextError>
    ensures ok { IfOk result (λ text. IsTrace bytes.now text) }
    ensures bad { IfErr result (λ error. NamesFirstBad bytes.now error) }
{
    let mut lines = Lines::of(bytes);
    let (geometry, appliances) = read_first(&mut lines)?;
    let Ok(mut world) = World::new(alloc, geometry, appliances) else {
        return Err(TextError::NoMemory);
    };
    while play_next(alloc, &mut lines, &mut world)? {}
    let Ok(text) = tell(alloc, &geometry, appliances, &world) else {
        return Err(TextError::NoMemory);
    };
    Ok(text)
}

// Plays the next events of a schedule. False where it ends with them.
fn play_next(alloc: Global, lines: &mut Lines, world: &mut World) -> Result<bool, TextError>
    requires { lines.old.number + length lines.old.rest.now + 1 < 2 ^ 64 }

    ensures played { IfOk result (PlaysNext world.old world.new lines.old.number
        lines.old.rest.now lines.new.number lines.new.rest.now) }
    ensures bad { IfErr result (EndsBadly lines.old.number lines.old.rest.now) }

    ensures room { lines.new.number + length lines.new.rest.now
        ≤ lines.old.number + length lines.old.rest.now }
    ensures shorter { IfOk result (λ more. IsTrue more
        → length lines.new.rest.now < length lines.old.rest.now) }
{
    let events = read_events(alloc, lines, BATCH)?;
    let Ok(()) = world.play(events.as_slice()) else {
        return Err(TextError::NoMemory);
    };
    Ok(events.len() >= BATCH)
}

// The text of a world's trace.
fn tell(
    alloc: Global,
    geometry: &Geometry,
    appliances: u32,
    world: &World,
) -> Result<Text, NoMemory>
    ensures { IfOk result (IsTextOf geometry.now appliances world.now) }
{
    let reachable = world.reachable()?;
    let allocated = world.allocated();
    print_trace(
        alloc,
        geometry,
        appliances,
        world.trace(),
        reachable,
        allocated,
    )
}
