//! How commands are printed.
ghost use Rattle.std.specs.Prelude.{◌∷◌, [], OnOk};
ghost use Rattle.plx_text.specs.Commands.{command_line};
ghost use Rattle.plx_text.specs.Traces.{plain, plain_command};
ghost use Rattle.plx_words.specs.Pieces.{small, word};
ghost use Rattle.plx_words.specs.Written.{AddsWords};

use crate::word::push_word;
use plx_base::{Label, NoMemory, Payload, SlotNo};
use plx_commands::Command;
use plx_words::{Text, Word};

/// The words of a command.
pub(crate) fn push_command(text: &mut Text, command: &Command) -> Result<(), NoMemory>
    ensures { OnOk result (AddsWords text.old text.new (command_line (plain_command command.now))) }
{
    match command {
        Command::Attach { slot } => push_slot(text, b"attach", *slot),
        Command::Detach { slot } => push_slot(text, b"detach", *slot),
        Command::Create { slot, size, label } => push_create(text, *slot, *size, label),
        Command::Delete { slot } => push_slot(text, b"delete", *slot),
        Command::Read { slot, vblock } => push_read(text, *slot, *vblock),
        Command::Write {
            slot,
            vblock,
            payload,
        } => push_write(text, *slot, *vblock, payload),
        Command::Flush { slot } => push_slot(text, b"flush", *slot),
        Command::Reserve { count } => push_reserve(text, *count),
        Command::Renew => push_word(text, b"renew"),
        Command::Retire => push_word(text, b"retire"),
        Command::Reclaim => push_word(text, b"reclaim"),
    }
}

// A command that names a slot alone.
fn push_slot(text: &mut Text, letters: &[u8], slot: SlotNo) -> Result<(), NoMemory>
    ensures { OnOk result
        (AddsWords text.old text.new (word letters.now ∷ small slot.0 ∷ [])) }
{
    text.words(&[Word::Plain(letters), Word::Small(slot.0)])
}

fn push_create(text: &mut Text, slot: SlotNo, size: u32, label: &Label) -> Result<(), NoMemory>
    ensures { OnOk result
        (AddsWords text.old text.new (command_line (Command.Create slot size label.now))) }
{
    text.words(&[
        Word::Plain(b"create"),
        Word::Small(slot.0),
        Word::Small(size),
        Word::Label(b"", label),
    ])
}

fn push_read(text: &mut Text, slot: SlotNo, vblock: u32) -> Result<(), NoMemory>
    ensures { OnOk result
        (AddsWords text.old text.new (command_line (Command.Read slot vblock))) }
{
    text.words(&[
        Word::Plain(b"read"),
        Word::Small(slot.0),
        Word::Small(vblock),
    ])
}

fn push_write(text: &mut Text, slot: SlotNo, vblock: u32, payload: &Payload) -> Result<(), NoMemory>
    ensures { OnOk result (AddsWords text.old text.new
        (command_line (Command.Write slot vblock (plain payload.now)))) }
{
    text.words(&[
        Word::Plain(b"write"),
        Word::Small(slot.0),
        Word::Small(vblock),
        Word::Data(payload),
    ])
}

fn push_reserve(text: &mut Text, count: u16) -> Result<(), NoMemory>
    ensures { OnOk result (AddsWords text.old text.new (command_line (Command.Reserve count))) }
{
    text.words(&[Word::Plain(b"reserve"), Word::Small(u32::from(count))])
}
