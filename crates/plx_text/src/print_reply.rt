//! How replies are printed.
ghost use Rattle.std.specs.Prelude.{◌≡◌, ◌^◌, ◌∷◌, [], OnOk, codes};
ghost use Rattle.plx_text.specs.Replies.{lease_piece, reply_line};
ghost use Rattle.plx_text.specs.Traces.{plain, plain_reply};
ghost use Rattle.plx_words.specs.Pieces.{named, word};
ghost use Rattle.plx_words.specs.Written.{AddsWords, piece_of};

use crate::word::push_word;
use plx_base::{BlockNo, LeaseName, LeaseRecord, NoMemory, Payload};
use plx_commands::{Reply, Report};
use plx_words::{Text, Word};

/// The words of a reply.
pub(crate) fn push_reply(text: &mut Text, reply: &Reply) -> Result<(), NoMemory>
    ensures { OnOk result (AddsWords text.old text.new (reply_line (plain_reply reply.now))) }
{
    match reply {
        Reply::Attached { report } => push_attached(text, report),
        Reply::Detached => push_word(text, b"detached"),
        Reply::Created => push_word(text, b"created"),
        Reply::Deleted => push_word(text, b"deleted"),
        Reply::Data { payload } => push_data(text, payload),
        Reply::Written { number } => push_written(text, *number),
        Reply::Flushed { applied, blocks } => push_flushed(text, *applied, *blocks),
        Reply::Reserved => push_word(text, b"reserved"),
        Reply::Renewed => push_word(text, b"renewed"),
        Reply::Retired => push_word(text, b"retired"),
        Reply::Reclaimed {
            covered,
            freed,
            reads,
        } => push_reclaimed(text, *covered, *freed, *reads),
        Reply::NotAttached => push_word(text, b"not-attached"),
        Reply::AlreadyAttached => push_word(text, b"already-attached"),
        Reply::NoImage => push_word(text, b"no-image"),
        Reply::Exists => push_word(text, b"exists"),
        Reply::OutOfRange { size } => push_out_of_range(text, *size),
        Reply::Busy { lease, seen } => push_busy(text, *lease, seen),
        Reply::Lost {
            lease,
            until,
            reading,
        } => push_lost(text, *lease, *until, *reading),
        Reply::ReadFault { block } => push_block(text, b"read-fault", *block),
        Reply::WriteFault { block } => push_block(text, b"write-fault", *block),
        Reply::Full => push_word(text, b"full"),
        Reply::Damaged { block } => push_block(text, b"damaged", *block),
        Reply::WornOut { count } => push_worn(text, *count),
    }
}

// A reply that names a block.
fn push_block(text: &mut Text, letters: &[u8], block: BlockNo) -> Result<(), NoMemory>
    ensures { OnOk result (AddsWords text.old text.new
        (word letters.now ∷ named (codes "block=") (2 ^ 64) block.0 ∷ [])) }
{
    text.words(&[Word::Plain(letters), Word::Named(b"block=", block.0)])
}

fn push_attached(text: &mut Text, report: &Report) -> Result<(), NoMemory>
    ensures { OnOk result (AddsWords text.old text.new (reply_line (Reply.Attached report.now))) }
{
    text.words(&[
        Word::Plain(b"attached"),
        Word::Flag(b"live=", report.live),
        Word::NamedSmall(b"gen=", report.generation),
        Word::NamedSmall(b"size=", report.size),
        Word::Named(b"writes=", report.writes),
        Word::NamedSmall(b"taken=", report.taken),
        Word::NamedSmall(b"dropped=", report.dropped),
        Word::Label(b"label=", &report.label),
    ])
}

fn push_data(text: &mut Text, payload: &Payload) -> Result<(), NoMemory>
    ensures { OnOk result
        (AddsWords text.old text.new (reply_line (Reply.Data (plain payload.now)))) }
{
    text.words(&[Word::Plain(b"data"), Word::Data(payload)])
}

fn push_written(text: &mut Text, number: u64) -> Result<(), NoMemory>
    ensures { OnOk result (AddsWords text.old text.new (reply_line (Reply.Written number))) }
{
    text.words(&[Word::Plain(b"written"), Word::Number(number)])
}

fn push_flushed(text: &mut Text, applied: u64, blocks: u32) -> Result<(), NoMemory>
    ensures { OnOk result (AddsWords text.old text.new
        (reply_line (Reply.Flushed applied blocks))) }
{
    text.words(&[
        Word::Plain(b"flushed"),
        Word::Named(b"applied=", applied),
        Word::NamedSmall(b"blocks=", blocks),
    ])
}

fn push_reclaimed(text: &mut Text, covered: u32, freed: u64, reads: u64) -> Result<(), NoMemory>
    ensures { OnOk result
        (AddsWords text.old text.new (reply_line (Reply.Reclaimed covered freed reads))) }
{
    text.words(&[
        Word::Plain(b"reclaimed"),
        Word::NamedSmall(b"covered=", covered),
        Word::Named(b"freed=", freed),
        Word::Named(b"reads=", reads),
    ])
}

fn push_out_of_range(text: &mut Text, size: u32) -> Result<(), NoMemory>
    ensures { OnOk result (AddsWords text.old text.new (reply_line (Reply.OutOfRange size))) }
{
    text.words(&[
        Word::Plain(b"out-of-range"),
        Word::NamedSmall(b"size=", size),
    ])
}

fn push_busy(text: &mut Text, lease: LeaseName, seen: &LeaseRecord) -> Result<(), NoMemory>
    ensures { OnOk result (AddsWords text.old text.new (reply_line (Reply.Busy lease seen.now))) }
{
    match seen {
        LeaseRecord::Free => text.words(&[
            Word::Plain(b"busy"),
            lease_word(lease),
            Word::Plain(b"free"),
        ]),
        LeaseRecord::Claimed { claim, until } => text.words(&[
            Word::Plain(b"busy"),
            lease_word(lease),
            Word::NamedWide(b"boot=", claim.boot.0),
            Word::Named(b"claim=", claim.number),
            Word::Named(b"sample=", claim.sample),
            Word::Named(b"until=", *until),
        ]),
    }
}

fn push_lost(text: &mut Text, lease: LeaseName, until: u64, reading: u64) -> Result<(), NoMemory>
    ensures { OnOk result
        (AddsWords text.old text.new (reply_line (Reply.Lost lease until reading))) }
{
    text.words(&[
        Word::Plain(b"lost"),
        lease_word(lease),
        Word::Named(b"until=", until),
        Word::Named(b"reading=", reading),
    ])
}

fn push_worn(text: &mut Text, count: u64) -> Result<(), NoMemory>
    ensures { OnOk result (AddsWords text.old text.new (reply_line (Reply.WornOut count))) }
{
    text.words(&[Word::Plain(b"worn"), Word::Named(b"count=", count)])
}

fn lease_word(lease: LeaseName) -> Word<'static>
    ensures { piece_of result ≡ lease_piece lease }
{
    match lease {
        LeaseName::Root => Word::Plain(b"lease=root"),
        LeaseName::Image(slot) => Word::NamedSmall(b"lease=image:", slot.0),
        LeaseName::Extent(extent) => Word::NamedSmall(b"lease=extent:", extent.0),
    }
}
