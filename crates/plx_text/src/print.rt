//! How traces are printed.
ghost use Rattle.std.specs.Prelude.{◌≡◌, IfOk, OnOk};
ghost use Rattle.plx_text.specs.Schedules.{world_line};
ghost use Rattle.plx_text.specs.Traces.{bad_line_text, end_line, entry_line, entry_lines, plain_entry, trace_lines, trace_text};
ghost use Rattle.plx_words.specs.Texts.{LinesTell};
ghost use Rattle.plx_words.specs.Written.{AddsLine, AddsLines};

use crate::print_command::push_command;
use crate::print_reply::push_reply;
use plx_base::NoMemory;
use plx_commands::Entry;
use plx_geom::Geometry;
use plx_words::{Text, Word};
use std::alloc::Global;

/// The trace of a world of this geometry with so many appliances, and of the two counts of its
/// last line: the blocks of the pool that can be reached, and those that are allocated.
pub fn print_trace(
    alloc: Global,
    geometry: &Geometry,
    appliances: u32,
    entries: &[Entry],
    reachable: u64,
    allocated: u64,
) -> Result<Text, NoMemory>
    ensures text { IfOk result
        (λ text. text ≡ trace_text geometry.now appliances entries.now reachable allocated) }
    ensures tells { IfOk result
        (λ text. LinesTell (trace_lines geometry.now appliances entries.now reachable allocated)) }
{
    let mut text = Text::new(alloc);
    push_world(&mut text, geometry, appliances)?;
    push_entries(&mut text, entries)?;
    push_end(&mut text, reachable, allocated)?;
    Ok(text)
}

/// What is said of a text whose line with this number, counted from 1, isn't in the grammar.
pub fn print_bad_line(alloc: Global, line: u64) -> Result<Text, NoMemory>
    ensures { IfOk result (λ text. text ≡ bad_line_text line) }
{
    let mut text = Text::new(alloc);
    text.line(b"bad", &[Word::Plain(b"line"), Word::Number(line)])?;
    Ok(text)
}

fn push_world(text: &mut Text, geometry: &Geometry, appliances: u32) -> Result<(), NoMemory>
    ensures { OnOk result (AddsLine text.old text.new (world_line geometry.now appliances)) }
{
    text.line(
        b"world",
        &[
            Word::Small(geometry.images),
            Word::Small(geometry.extents),
            Word::Small(geometry.extent_blocks),
            Word::Small(geometry.slots),
            Word::Small(appliances),
        ],
    )
}

fn push_end(text: &mut Text, reachable: u64, allocated: u64) -> Result<(), NoMemory>
    ensures { OnOk result (AddsLine text.old text.new (end_line reachable allocated)) }
{
    text.line(
        b"end",
        &[
            Word::Named(b"reachable=", reachable),
            Word::Named(b"allocated=", allocated),
        ],
    )
}

fn push_entries(text: &mut Text, entries: &[Entry]) -> Result<(), NoMemory>
    ensures { OnOk result (AddsLines text.old text.new (entry_lines entries.now)) }
{
    for entry in entries {
        push_entry(text, entry)?;
    }
    Ok(())
}

fn push_entry(text: &mut Text, entry: &Entry) -> Result<(), NoMemory>
    ensures { OnOk result (AddsLine text.old text.new (entry_line (plain_entry entry.now))) }
{
    match entry {
        Entry::Start { appliance, command } => {
            text.begin(b"start")?;
            text.words(&[Word::Small(appliance.0)])?;
            push_command(text, command)?;
            text.end()
        }
        Entry::Reply { appliance, reply } => {
            text.begin(b"reply")?;
            text.words(&[Word::Small(appliance.0)])?;
            push_reply(text, reply)?;
            text.end()
        }
        Entry::Crash { appliance } => text.line(b"crash", &[Word::Small(appliance.0)]),
    }
}
