//! The descriptor that commits a journal slot.
ghost use Rattle.std.specs.Prelude.{◌≡◌, ◌↔◌, length, IsTrue};
ghost use Rattle.std.specs.List.{All};
ghost use Rattle.plx_base.specs.Blocks.{zeros};
ghost use Rattle.plx_base.specs.Spelling.{OnlySector};
ghost use Rattle.plx_gate.specs.Descriptors.{IsDescriptor, IsDescriptorReading, descriptor_bytes, descriptor_fields, found_descriptor, is_descriptor};
ghost use Rattle.plx_gate.specs.Descriptors.{read_descriptor as descriptor_in};

use plx_base::{Field, are_all, get_u32, get_u64, is_record, put_record};

/// The bytes that begin every descriptor.
const MAGIC: &[u8] = b"PLXJRNL1";

/// The virtual blocks of an image end below this one.
const VBLOCKS_END: u32 = 1 << 27;

/// The numbers of writes end below this one.
const NUMBERS_END: u64 = 1 << 48;

/// A write of one block that a journal slot holds.
#[derive(Clone, Copy, PartialEq, Eq)]
pub struct Descriptor {
    /// The generation of the image that was written, from 1 on.
    pub generation: u32,
    /// The virtual block that was written, below 2^27.
    pub vblock: u32,
    /// The number of the write within its image, from 1 to 2^48 - 1.
    pub number: u64,
}

/// What a block of 4,096 bytes says: `Some(None)` is an empty descriptor, and `None` bytes outside
/// the format.
pub fn read_descriptor(bytes: &[u8]) -> Option<Option<Descriptor>>
    requires { length bytes.now ≡ 4096 }
    ensures same { result ≡ descriptor_in bytes.now }
    ensures grammar { IsDescriptorReading bytes.now result }
{
    if are_zeros(bytes) {
        return Some(None);
    }
    let descriptor = found(bytes);
    if !is_within(&descriptor) {
        return None;
    }
    if !is_record(bytes, MAGIC, &fields(&descriptor), &[]) {
        return None;
    }
    Some(Some(descriptor))
}

/// Makes a block of 4,096 bytes the spelling of a descriptor. Over another descriptor and over an
/// empty one the first sector tells all.
pub fn write_descriptor(value: &Descriptor, bytes: &mut [u8])
    requires long { length bytes.old ≡ 4096 }
    requires limits { IsDescriptor value.now }
    ensures spelled { bytes.new ≡ descriptor_bytes value.now }
    ensures sector { (old : Descriptor) → bytes.old ≡ descriptor_bytes old
        → OnlySector 0 bytes.new bytes.old }
    ensures empty { bytes.old ≡ zeros → OnlySector 0 bytes.new bytes.old }
{
    put_record(bytes, MAGIC, &fields(value), &[]);
}

// The descriptor whose numbers stand at the places of the fields.
fn found(bytes: &[u8]) -> Descriptor
    requires { length bytes.now ≡ 4096 }
    ensures { result ≡ found_descriptor bytes.now }
{
    Descriptor {
        generation: get_u32(bytes, 8),
        vblock: get_u32(bytes, 12),
        number: get_u64(bytes, 16),
    }
}

// Whether a descriptor is within its limits.
fn is_within(value: &Descriptor) -> bool
    ensures { result ≡ is_descriptor value.now }
{
    1 <= value.generation
        && value.vblock < VBLOCKS_END
        && 1 <= value.number
        && value.number < NUMBERS_END
}

// The fields of a descriptor.
fn fields(value: &Descriptor) -> [Field; 3]
    ensures { result ≡ descriptor_fields value.now }
{
    [
        Field::U32(value.generation),
        Field::U32(value.vblock),
        Field::U64(value.number),
    ]
}

// Whether each byte is zero.
fn are_zeros(bytes: &[u8]) -> bool
    ensures { IsTrue result ↔ All (λ b. b ≡ 0) bytes.now }
{
    are_all(bytes, 0)
}
