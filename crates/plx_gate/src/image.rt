//! The record of an image.
ghost use Rattle.std.specs.Prelude.{◌≡◌, ◌≤◌, ◌↔◌, length, IsSome, IfSome, IfNone, false};
ghost use Rattle.plx_base.specs.Labels.{IsLabel};
ghost use Rattle.plx_base.specs.Spelling.{IsReading, OnlySector};
ghost use Rattle.plx_gate.specs.Images.{IsImage, found_image, found_label, image_bytes, image_fields, is_image, label_of};
ghost use Rattle.plx_gate.specs.Images.{read_image as image_in};
ghost use Rattle.plx_gate.specs.Images.{fields_of as numbers_of};
ghost use Rattle.plx_gate.specs.Images.{are_within as within};

use plx_base::{Field, Label, Ptr, get_u32, get_u64, is_record, put_record};

/// The bytes that begin an image record.
const MAGIC: &[u8] = b"PLXIMAG1";

/// The most blocks that an image has.
const SIZE_MAX: u32 = 1 << 27;

/// The most snapshots that are taken over an image's life.
const SNAPSHOTS_MAX: u32 = 128;

/// The numbers of writes end below this one.
const NUMBERS_END: u64 = 1 << 48;

/// The most bytes that a label has.
const LABEL_LEN: u32 = 32;

/// Where the label begins.
const LABEL_START: usize = 48;

/// What the record of an image says.
#[derive(Drop)]
pub struct LiveRecord {
    /// The image's number among those that the slot had, from 1 on.
    pub generation: u32,
    /// The image's blocks, from 1 to 2^27.
    pub size: u32,
    /// How many snapshots were taken, at most 128.
    pub taken: u32,
    /// The root of its tree.
    pub root: Ptr,
    /// The number of the last write that its tree has, below 2^48.
    pub applied: u64,
    /// What it is called.
    pub label: Label,
}

/// What the record of an image slot says.
#[derive(Drop)]
pub enum ImageRecord {
    /// There is no image in the slot.
    Free {
        /// How many images the slot had before.
        generation: u32,
    },
    /// There is an image.
    Live(LiveRecord),
}

/// What an image record's block of 4,096 bytes says, or `None` where the bytes are outside the
/// format.
pub fn read_image(bytes: &[u8]) -> Option<ImageRecord>
    requires { length bytes.now ≡ 4096 }
    ensures same { result ≡ image_in bytes.now }
    ensures grammar { IsReading IsImage image_bytes bytes.now result }
{
    let image = found(bytes)?;
    if !is_record(bytes, MAGIC, &fields(&image), label(&image)) {
        return None;
    }
    Some(image)
}

/// Makes a block of 4,096 bytes the spelling of an image record. Over another record the first sector
/// tells all.
pub fn write_image(value: &ImageRecord, bytes: &mut [u8])
    requires long { length bytes.old ≡ 4096 }
    requires limits { IsImage value.now }
    ensures spelled { bytes.new ≡ image_bytes value.now }
    ensures sector { (old : ImageRecord) → IsImage old → bytes.old ≡ image_bytes old
        → OnlySector 0 bytes.new bytes.old }
{
    put_record(bytes, MAGIC, &fields(value), label(value));
}

// The image record whose numbers and label stand at the places of the fields, where it is within its
// limits.
fn found(bytes: &[u8]) -> Option<ImageRecord>
    requires { length bytes.now ≡ 4096 }
    ensures same { IfSome result (λ image. image ≡ found_image bytes.now) }
    ensures limits { IfSome result IsImage }
    ensures past { IfNone result (is_image (found_image bytes.now) ≡ false) }
{
    let generation = get_u32(bytes, 12);
    if get_u32(bytes, 8) == 0 {
        return Some(ImageRecord::Free { generation });
    }
    let size = get_u32(bytes, 16);
    let taken = get_u32(bytes, 20);
    let applied = get_u64(bytes, 32);
    if !are_within(generation, size, taken, applied) {
        return None;
    }
    let root = Ptr::read(get_u64(bytes, 24))?;
    let label = label_in(bytes)?;
    Some(ImageRecord::Live(LiveRecord {
        generation,
        size,
        taken,
        root,
        applied,
        label,
    }))
}

// Whether the numbers of a live image are within their limits.
fn are_within(generation: u32, size: u32, taken: u32, applied: u64) -> bool
    ensures { result ≡ within generation size taken applied }
{
    1 <= generation
        && 1 <= size
        && size <= SIZE_MAX
        && taken <= SNAPSHOTS_MAX
        && applied < NUMBERS_END
}

// The label that stands at its place.
fn label_in(bytes: &[u8]) -> Option<Label>
    requires { length bytes.now ≡ 4096 }
    ensures label { IsSome result ↔ IsLabel (found_label bytes.now) }
    ensures same { IfSome result (λ label. label ≡ found_label bytes.now) }
{
    let len = get_u32(bytes, 40);
    if len > LABEL_LEN {
        return None;
    }
    Label::new(&bytes[LABEL_START..LABEL_START + len as usize])
}

// The bytes of a label.
fn label(image: &ImageRecord) -> &[u8]
    ensures same { result.now ≡ label_of image.now }
    ensures short { length result.now ≤ 32 }
{
    match image {
        ImageRecord::Free { .. } => &[],
        ImageRecord::Live(live) => live.label.as_slice(),
    }
}

// The fields of an image record.
fn fields(image: &ImageRecord) -> [Field; 8]
    ensures { result ≡ image_fields image.now }
{
    match image {
        ImageRecord::Free { generation } => fields_of(0, *generation, 0, 0, 0, 0, 0),
        ImageRecord::Live(live) => {
            let label_len = live.label.as_slice().len() as u32;
            fields_of(
                1,
                live.generation,
                live.size,
                live.taken,
                live.root.value(),
                live.applied,
                label_len,
            )
        }
    }
}

// The fields of these numbers.
fn fields_of(
    state: u32,
    generation: u32,
    size: u32,
    taken: u32,
    root: u64,
    applied: u64,
    label_len: u32,
) -> [Field; 8]
    ensures { result ≡ numbers_of state generation size taken root applied label_len }
{
    [
        Field::U32(state),
        Field::U32(generation),
        Field::U32(size),
        Field::U32(taken),
        Field::U64(root),
        Field::U64(applied),
        Field::U32(label_len),
        Field::U32(0),
    ]
}
