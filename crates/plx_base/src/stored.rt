//! Records as they are stored: what tells the kind, fields one after another, and zeros.
ghost use Rattle.std.specs.Prelude.{◌≡◌, ◌↔◌, ◌+◌, ◌≤◌, length, IsTrue};
ghost use Rattle.plx_base.specs.Blocks.{with_bytes_at};
ghost use Rattle.plx_base.specs.Fields.{little};
ghost use Rattle.plx_base.specs.Spelling.{fields_bytes, fields_width, head_of, field_number, block_of_fields, width_of};

use crate::block::{BLOCK_LEN, SECTOR_LEN, are_all, copy_at};
use crate::field::{put_u32, put_u64, put_u128};

/// A number as it is stored.
#[derive(Clone, Copy)]
pub enum Field {
    U32(u32),
    U64(u64),
    U128(u128),
}

/// Writes fields one after another from `at` on, and gives the place after them.
pub fn put_fields(bytes: &mut [u8], at: usize, fields: &[Field]) -> usize
    requires { at + fields_width fields.now ≤ length bytes.old }
    ensures same { bytes.new ≡ with_bytes_at at (fields_bytes fields.now) bytes.old }
    ensures next { result ≡ at + fields_width fields.now }
{
    let mut place = at;
    for field in fields {
        place = put_field(bytes, place, *field);
    }
    place
}

// Writes one field, and gives the place after it.
fn put_field(bytes: &mut [u8], at: usize, field: Field) -> usize
    requires { at + width_of field ≤ length bytes.old }
    ensures same { bytes.new ≡ with_bytes_at at
        (little (width_of field) (field_number field)) bytes.old }
    ensures next { result ≡ at + width_of field }
{
    match field {
        Field::U32(number) => {
            put_u32(bytes, at, number);
            at + 4
        }
        Field::U64(number) => {
            put_u64(bytes, at, number);
            at + 8
        }
        Field::U128(number) => {
            put_u128(bytes, at, number);
            at + 16
        }
    }
}

/// Makes a block of 4,096 bytes a record: the magic, the fields one after another, the last bytes,
/// and zeros.
pub fn put_record(bytes: &mut [u8], magic: &[u8], fields: &[Field], last: &[u8])
    requires block { length bytes.old ≡ 4096 }
    requires short { length magic.now + (fields_width fields.now + length last.now) ≤ 4096 }
    ensures { bytes.new ≡ block_of_fields magic.now fields.now last.now }
{
    bytes.fill(0);
    put_head(bytes, magic, fields, last);
}

/// Whether a block is this record, of which all but zeros lies in the first sector.
pub fn is_record(bytes: &[u8], magic: &[u8], fields: &[Field], last: &[u8]) -> bool
    requires { length magic.now + (fields_width fields.now + length last.now) ≤ 512 }
    ensures { IsTrue result ↔ (bytes.now ≡ block_of_fields magic.now fields.now last.now) }
{
    if bytes.len() != BLOCK_LEN {
        return false;
    }
    let mut sector = [0; SECTOR_LEN];
    put_head(&mut sector, magic, fields, last);
    let (first, others) = bytes.split_at(SECTOR_LEN);
    first == sector.as_slice() && are_all(others, 0)
}

// Writes the magic, the fields and the last bytes one after another, from the first byte on.
fn put_head(bytes: &mut [u8], magic: &[u8], fields: &[Field], last: &[u8])
    requires { length magic.now + (fields_width fields.now + length last.now) ≤ length bytes.old }
    ensures { bytes.new ≡ with_bytes_at 0 (head_of magic.now fields.now last.now) bytes.old }
{
    copy_at(bytes, 0, magic);
    let end = put_fields(bytes, magic.len(), fields);
    copy_at(bytes, end, last);
}
