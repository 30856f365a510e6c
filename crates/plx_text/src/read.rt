//! Schedules are read.

ghost use Rattle.std.specs.Prelude.{◌≡◌, ◌+◌, ◌^◌, ◌<◌, ◌≤◌, [], length, IfErr, IfOk};
ghost use Rattle.plx_text.specs.Readings.{EndsBadly, EndsNowhere, EndsWith, IsRead, ReadsOn};
ghost use Rattle.plx_text.specs.Schedules.{IsSchedule, NamesFirstBad, SaysNoSchedule};

use crate::event::{read_event, read_world};
use crate::schedule::{Schedule, TextError};
use plx_commands::Event;
use plx_geom::Geometry;
use plx_words::Lines;
use std::alloc::Global;

/// Reads the text of a schedule.
pub fn read_schedule(alloc: Global, bytes: &[u8]) -> Result<Schedule, TextError>
    ensures ok { IfOk result (λ schedule. IsSchedule bytes.now
        (schedule.geometry, schedule.appliances) schedule.events.items) }
    ensures bad { IfErr result (λ error. NamesFirstBad bytes.now error) }
    ensures none { IfErr result (λ error. SaysNoSchedule bytes.now error) }
{
    let mut lines = Lines::of(bytes);
    let (geometry, appliances) = read_first(&mut lines)?;
    let events = read_events(alloc, &mut lines, usize::MAX)?;
    Ok(Schedule {
        geometry,
        appliances,
        events,
    })
}

/// Reads the world of a schedule, of all lines of a text.
pub fn read_first(lines: &mut Lines) -> Result<(Geometry, u32), TextError>
    requires first { lines.old.number ≡ 0 }
    requires short { length lines.old.rest.now + 1 < 2 ^ 64 }

    ensures ok { IfOk result (λ world. IsRead lines.old.rest.now world []
        lines.new.number lines.new.rest.now) }
    ensures appliances { IfOk result (λ (_, appliances). (1 ≤ appliances) × (appliances ≤ 8)) }
    ensures bad { IfErr result (λ error. NamesFirstBad lines.old.rest.now error) }
    ensures none { IfErr result (λ error. SaysNoSchedule lines.old.rest.now error) }

    ensures room { lines.new.number + length lines.new.rest.now ≤ length lines.old.rest.now }
{
    let Some(first) = lines.next() else {
        return Err(TextError::BadLine {
            line: lines.number + 1,
        });
    };
    let Some(world) = read_world(first.text) else {
        return Err(TextError::BadLine { line: first.number });
    };
    Ok(world)
}

/// Reads the next events of a schedule, at most so many. Where there are fewer, it ends with them.
pub fn read_events(alloc: Global, lines: &mut Lines, most: usize) -> Result<Vec<Event>, TextError>
    requires { lines.old.number + length lines.old.rest.now + 1 < 2 ^ 64 }

    ensures read { IfOk result (λ events. ReadsOn lines.old.number lines.old.rest.now events.items
        lines.new.number lines.new.rest.now) }
    ensures end { IfOk result (λ events. length events.items < most
        → EndsWith lines.old.number lines.old.rest.now events.items) }
    ensures bad { IfErr result (EndsBadly lines.old.number lines.old.rest.now) }
    ensures none { IfErr result (EndsNowhere lines.old.number lines.old.rest.now) }

    ensures room { lines.new.number + length lines.new.rest.now
        ≤ lines.old.number + length lines.old.rest.now }
    ensures shorter { IfOk result (λ events. length events.items
        + length lines.new.rest.now ≤ length lines.old.rest.now) }
{
    let mut events = Vec::new(alloc);
    while events.len() < most {
        let Some(line) = lines.next() else {
            if !lines.rest.is_empty() {
                return Err(TextError::BadLine {
                    line: lines.number + 1,
                });
            }
            return Ok(events);
        };
        let Ok(found) = read_event(alloc, line.text) else {
            return Err(TextError::NoMemory);
        };
        let Some(event) = found else {
            return Err(TextError::BadLine { line: line.number });
        };
        let Ok(()) = events.push(event) else {
            return Err(TextError::NoMemory);
        };
    }
    Ok(events)
}
