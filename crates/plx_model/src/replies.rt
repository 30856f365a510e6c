//! Replies by their numbers, and which replies a command has.
ghost use Rattle.std.specs.Prelude.{◌≡◌};
ghost use Rattle.plx_commands.specs.Replies.{number_of, ok_of, own_ok, is_in, row, is_own, is_listed, ends_sessions, may_claim};

use plx_commands::{Command, Reply};

/// The number of every Ok.
pub const OK: u8 = 0;

const BUSY: u8 = 8;

const LOST: u8 = 9;

const WRITE_FAULT: u8 = 11;

// The number of a reply.
pub fn number_of(reply: &Reply) -> u8
    ensures { result ≡ number_of reply.now }
{
    match reply {
        Reply::Attached { .. } => OK,
        Reply::Detached => OK,
        Reply::Created => OK,
        Reply::Deleted => OK,
        Reply::Data { .. } => OK,
        Reply::Written { .. } => OK,
        Reply::Flushed { .. } => OK,
        Reply::Reserved => OK,
        Reply::Renewed => OK,
        Reply::Retired => OK,
        Reply::Reclaimed { .. } => OK,
        Reply::NotAttached => 1,
        Reply::AlreadyAttached => 2,
        Reply::NoImage => 3,
        Reply::Exists => 4,
        Reply::OutOfRange { .. } => 5,
        Reply::Busy { .. } => BUSY,
        Reply::Lost { .. } => LOST,
        Reply::ReadFault { .. } => 10,
        Reply::WriteFault { .. } => WRITE_FAULT,
        Reply::Full => 12,
        Reply::Damaged { .. } => 13,
        Reply::WornOut { .. } => 15,
    }
}

// Which Ok the reply is, counted from 1.
pub fn ok_of(reply: &Reply) -> Option<u8>
    ensures { result ≡ ok_of reply.now }
{
    match reply {
        Reply::Attached { .. } => Some(1),
        Reply::Detached => Some(2),
        Reply::Created => Some(3),
        Reply::Deleted => Some(4),
        Reply::Data { .. } => Some(5),
        Reply::Written { .. } => Some(6),
        Reply::Flushed { .. } => Some(7),
        Reply::Reserved => Some(11),
        Reply::Renewed => Some(12),
        Reply::Retired => Some(13),
        Reply::Reclaimed { .. } => Some(14),
        _ => None,
    }
}

// Which Ok is the command's.
fn own_ok(command: &Command) -> u8
    ensures { result ≡ own_ok command.now }
{
    match command {
        Command::Attach { .. } => 1,
        Command::Detach { .. } => 2,
        Command::Create { .. } => 3,
        Command::Delete { .. } => 4,
        Command::Read { .. } => 5,
        Command::Write { .. } => 6,
        Command::Flush { .. } => 7,
        Command::Reserve { .. } => 11,
        Command::Renew => 12,
        Command::Retire => 13,
        Command::Reclaim => 14,
    }
}

// The numbers of the command's replies besides its Ok.
fn row(command: &Command) -> &'static [u8]
    ensures { result.now ≡ row command.now }
{
    match command {
        Command::Attach { .. } => &[2, 3, 8, 9, 10, 11, 13, 15],
        Command::Detach { .. } => &[1, 9, 11],
        Command::Create { .. } => &[1, 4, 5, 9, 11, 15],
        Command::Delete { .. } => &[1, 3, 9, 11],
        Command::Read { .. } => &[1, 3, 5, 9, 10, 13],
        Command::Write { .. } => &[1, 3, 5, 8, 9, 10, 11, 12, 13, 15],
        Command::Flush { .. } => &[1, 3, 8, 9, 10, 11, 12, 13, 15],
        Command::Reserve { .. } => &[8, 9, 10, 11, 12, 13, 15],
        Command::Renew => &[9, 11],
        Command::Retire => &[9, 10, 11, 13],
        Command::Reclaim => &[8, 9, 10, 11, 13, 15],
    }
}

fn is_in(number: u8, row: &[u8]) -> bool
    ensures { result ≡ is_in number row.now }
{
    match row {
        [] => false,
        [first, others @ ..] => number == *first || is_in(number, others),
    }
}

// Whether the reply is the command's own Ok.
pub fn is_own(command: &Command, reply: &Reply) -> bool
    ensures { result ≡ is_own command.now reply.now }
{
    match ok_of(reply) {
        Some(ok) => ok == own_ok(command),
        None => false,
    }
}

// Whether the reply is one of the command's.
pub fn is_listed(command: &Command, reply: &Reply) -> bool
    ensures { result ≡ is_listed command.now reply.now }
{
    is_own(command, reply) || is_in(number_of(reply), row(command))
}

// Whether the reply ends all sessions of the appliance.
pub fn ends_sessions(reply: &Reply) -> bool
    ensures { result ≡ ends_sessions (number_of reply.now) }
{
    let number = number_of(reply);
    number == LOST || number == WRITE_FAULT
}

// Whether the command may claim a lease.
pub fn may_claim(command: &Command) -> bool
    ensures { result ≡ may_claim command.now }
{
    is_in(BUSY, row(command))
}
