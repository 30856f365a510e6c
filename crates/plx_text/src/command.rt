//! The words of commands.

ghost use Rattle.std.specs.Prelude.{◌≡◌, ◌∷◌, IfOk, codes, false};
ghost use Rattle.std.specs.Str.{bytes_eq};
ghost use Rattle.plx_text.specs.Commands.{ReadsCommand, SpellsCommand, slot_rows};
ghost use Rattle.plx_words.specs.Candidates.{Reads, by_word};

use crate::word::is;
use plx_base::{NoMemory, SlotNo};
use plx_commands::Command;
use plx_words::{Words, read_data};
use std::alloc::Global;

/// The command that the words left of a line spell.
pub(crate) fn read_command(alloc: Global, words: &mut Words) -> Result<Option<Command>, NoMemory>
    ensures { IfOk result (λ found. ReadsCommand found words.old) }
{
    let Some(word) = words.next() else {
        return Ok(None);
    };
    if is(word, b"write") {
        return read_write(alloc, words);
    }
    Ok(read_dataless(word, words))
}

// The command that this word begins, but for `write`, which alone has data.
fn read_dataless(word: &[u8], words: &mut Words) -> Option<Command>
    requires { bytes_eq word.now (codes "write") ≡ false }
    ensures { ReadsCommand result (word.now ∷ words.old) }
{
    if is(word, b"create") {
        return read_create(words);
    }
    if is(word, b"read") {
        return read_read(words);
    }
    if is(word, b"reserve") {
        return read_reserve(words);
    }
    if is(word, b"renew") {
        return read_renew(words);
    }
    if is(word, b"retire") {
        return read_retire(words);
    }
    read_bare(word, words)
}

// The command that this word begins, where it names a slot alone.
fn read_bare(word: &[u8], words: &mut Words) -> Option<Command>
    ensures { Reads result (by_word word.now (slot_rows (word.now ∷ words.old)))
        (λ command. SpellsCommand command (word.now ∷ words.old)) }
{
    let slot = SlotNo(words.last_small()?);
    if is(word, b"attach") {
        return Some(Command::Attach { slot });
    }
    if is(word, b"detach") {
        return Some(Command::Detach { slot });
    }
    if is(word, b"delete") {
        return Some(Command::Delete { slot });
    }
    None
}

fn read_create(words: &mut Words) -> Option<Command>
    ensures { ReadsCommand result (codes "create" ∷ words.old) }
{
    let slot = SlotNo(words.small()?);
    let size = words.small()?;
    let label = words.label(b"")?;
    words.end()?;
    Some(Command::Create { slot, size, label })
}

fn read_read(words: &mut Words) -> Option<Command>
    ensures { ReadsCommand result (codes "read" ∷ words.old) }
{
    let slot = SlotNo(words.small()?);
    let vblock = words.last_small()?;
    Some(Command::Read { slot, vblock })
}

fn read_write(alloc: Global, words: &mut Words) -> Result<Option<Command>, NoMemory>
    ensures { IfOk result (λ found. ReadsCommand found (codes "write" ∷ words.old)) }
{
    let Some(slot) = words.small() else {
        return Ok(None);
    };
    let Some(vblock) = words.small() else {
        return Ok(None);
    };
    let Some(word) = words.last() else {
        return Ok(None);
    };
    let Some(payload) = read_data(alloc, word)? else {
        return Ok(None);
    };
    let slot = SlotNo(slot);
    Ok(Some(Command::Write {
        slot,
        vblock,
        payload,
    }))
}

fn read_reserve(words: &mut Words) -> Option<Command>
    ensures { ReadsCommand result (codes "reserve" ∷ words.old) }
{
    let count = words.last_number(1, 256)? as u16;
    Some(Command::Reserve { count })
}

fn read_renew(words: &mut Words) -> Option<Command>
    ensures { ReadsCommand result (codes "renew" ∷ words.old) }
{
    words.end()?;
    Some(Command::Renew)
}

fn read_retire(words: &mut Words) -> Option<Command>
    ensures { ReadsCommand result (codes "retire" ∷ words.old) }
{
    words.end()?;
    Some(Command::Retire)
}
