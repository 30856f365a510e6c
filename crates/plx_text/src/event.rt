//! The lines of events.

ghost use Rattle.std.specs.Prelude.{◌≡◌, ◌∷◌, IfOk, codes, false};
ghost use Rattle.std.specs.Str.{bytes_eq};
ghost use Rattle.plx_text.specs.Events.{ReadsEvent, SpellsEvent, bare_rows};
ghost use Rattle.plx_text.specs.Schedules.{ReadsWorld};
ghost use Rattle.plx_words.specs.Candidates.{Reads, by_word};
ghost use Rattle.plx_words.specs.Words.{words_of};

use crate::command::read_command;
use crate::stop::read_stop;
use crate::word::is;
use plx_base::{ApplianceNo, NoMemory};
use plx_commands::Event;
use plx_geom::Geometry;
use plx_words::Words;
use std::alloc::Global;

// The greatest number below 2^32.
const MOST_SMALL: u64 = (1 << 32) - 1;

// The most appliances of a world.
const MOST_APPLIANCES: u64 = 8;

// The highest reading of a clock, in milliseconds.
const MOST_READING: u64 = (1 << 48) - 1;

/// The event that a line spells.
pub(crate) fn read_event(alloc: Global, line: &[u8]) -> Result<Option<Event>, NoMemory>
    ensures { IfOk result (λ found. ReadsEvent found (words_of line.now)) }
{
    let mut words = Words::of(line);
    let Some(word) = words.next() else {
        return Ok(None);
    };
    if is(word, b"start") {
        return read_start(alloc, &mut words);
    }
    Ok(read_commandless(word, &mut words))
}

// The event that this word begins, but for `start`, which alone has a command.
fn read_commandless(word: &[u8], words: &mut Words) -> Option<Event>
    requires { bytes_eq word.now (codes "start") ≡ false }
    ensures { ReadsEvent result (word.now ∷ words.old) }
{
    if is(word, b"tick") {
        return read_tick(words);
    }
    if is(word, b"land") {
        return read_land(words);
    }
    if is(word, b"miss") {
        return read_miss(words);
    }
    if is(word, b"clock") {
        return read_clock(words);
    }
    if is(word, b"upto") {
        return read_upto(words);
    }
    read_bare(word, words)
}

// The event that this word begins, where it names an appliance alone.
fn read_bare(word: &[u8], words: &mut Words) -> Option<Event>
    ensures { Reads result (by_word word.now (bare_rows (word.now ∷ words.old)))
        (λ one. SpellsEvent one (word.now ∷ words.old)) }
{
    let appliance = ApplianceNo(words.last_small()?);
    if is(word, b"read") {
        return Some(Event::Read { appliance });
    }
    if is(word, b"issue") {
        return Some(Event::Issue { appliance });
    }
    if is(word, b"done") {
        return Some(Event::Done { appliance });
    }
    if is(word, b"fault") {
        return Some(Event::Fault { appliance });
    }
    if is(word, b"crash") {
        return Some(Event::Crash { appliance });
    }
    if is(word, b"run") {
        return Some(Event::Run { appliance });
    }
    None
}

fn read_tick(words: &mut Words) -> Option<Event>
    ensures { ReadsEvent result (codes "tick" ∷ words.old) }
{
    let by = words.last_number(1, MOST_SMALL)?;
    Some(Event::Tick { by: by as u32 })
}

fn read_start(alloc: Global, words: &mut Words) -> Result<Option<Event>, NoMemory>
    ensures { IfOk result (λ found. ReadsEvent found (codes "start" ∷ words.old)) }
{
    let Some(appliance) = words.small() else {
        return Ok(None);
    };
    let Some(command) = read_command(alloc, words)? else {
        return Ok(None);
    };
    let appliance = ApplianceNo(appliance);
    Ok(Some(Event::Start { appliance, command }))
}

fn read_land(words: &mut Words) -> Option<Event>
    ensures { ReadsEvent result (codes "land" ∷ words.old) }
{
    let appliance = ApplianceNo(words.small()?);
    let back = words.number(0, u64::MAX)?;
    let sector = words.last_number(0, u64::from(u8::MAX))?;
    Some(Event::Land {
        appliance,
        back,
        sector: sector as u8,
    })
}

fn read_miss(words: &mut Words) -> Option<Event>
    ensures { ReadsEvent result (codes "miss" ∷ words.old) }
{
    let appliance = ApplianceNo(words.small()?);
    let reading = words.last_number(0, MOST_READING)?;
    Some(Event::Miss { appliance, reading })
}

fn read_clock(words: &mut Words) -> Option<Event>
    ensures { ReadsEvent result (codes "clock" ∷ words.old) }
{
    let appliance = ApplianceNo(words.small()?);
    let reading = words.last_number(0, MOST_READING)?;
    Some(Event::Reading { appliance, reading })
}

fn read_upto(words: &mut Words) -> Option<Event>
    ensures { ReadsEvent result (codes "upto" ∷ words.old) }
{
    let appliance = ApplianceNo(words.small()?);
    let stop = read_stop(words.last()?)?;
    Some(Event::Upto { appliance, stop })
}

/// The geometry and the number of appliances that a world line gives.
pub(crate) fn read_world(line: &[u8]) -> Option<(Geometry, u32)>
    ensures { ReadsWorld result (words_of line.now) }
{
    read_parts(&mut Words::of(line))
}

// The same of its words.
fn read_parts(words: &mut Words) -> Option<(Geometry, u32)>
    ensures { ReadsWorld result words.old }
{
    words.exactly(b"world")?;
    let images = words.small()?;
    let extents = words.small()?;
    let extent_blocks = words.small()?;
    let slots = words.small()?;
    let appliances = words.last_number(1, MOST_APPLIANCES)?;
    let Ok(geometry) = Geometry::new(images, extents, extent_blocks, slots) else {
        return None;
    };
    Some((geometry, appliances as u32))
}
