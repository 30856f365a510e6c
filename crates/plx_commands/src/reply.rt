use plx_base::{BlockNo, Label, LeaseName, LeaseRecord, Payload};

/// What an attach reports of its image.
#[derive(Drop)]
pub struct Report {
    /// Whether the slot has an image.
    pub live: bool,
    /// How often an image was made in this slot.
    pub generation: u32,
    /// The image's size in blocks.
    pub size: u32,
    /// The number of writes that the image has seen.
    pub writes: u64,
    /// The number of snapshots taken, dropped ones included.
    pub taken: u32,
    /// The number of dropped snapshots.
    pub dropped: u32,
    /// The image's label.
    pub label: Label,
}

/// What an appliance answers to a command.
#[derive(Drop)]
pub enum Reply {
    /// The slot is attached.
    Attached {
        report: Report,
    },
    /// The session has ended.
    Detached,
    /// The image is made.
    Created,
    /// The slot is free.
    Deleted,
    /// The bytes of the virtual block that was read.
    Data {
        payload: Payload,
    },
    /// The write was journalled, as the image's write of this number, counted from 1.
    Written {
        number: u64,
    },
    /// The tree holds all writes up to number `applied`; `blocks` fresh blocks were taken for it.
    Flushed {
        applied: u64,
        blocks: u32,
    },
    /// As many fresh blocks are in hand as were asked for.
    Reserved,
    /// Every lease held is renewed.
    Renewed,
    /// Fresh blocks are given back, and leases without a session released.
    Retired,
    /// `covered` extents were swept, `freed` bits of their maps cleared, and `reads` nodes read.
    Reclaimed {
        covered: u32,
        freed: u64,
        reads: u64,
    },
    /// A named image has no session on this appliance.
    NotAttached,
    /// The named image has a session on this appliance already.
    AlreadyAttached,
    /// There is no such slot, or the slot holds no image.
    NoImage,
    /// The slot holds an image already.
    Exists,
    /// The virtual block isn't below the image's size, or an image of such a size can't be made.
    OutOfRange {
        size: u32,
    },
    /// A claim of the lease found this record there.
    Busy {
        lease: LeaseName,
        seen: LeaseRecord,
    },
    /// A reading of the clock was at or past the end of a lease in use, or a write under it came too
    /// late. Moments and readings are in milliseconds.
    Lost {
        lease: LeaseName,
        until: u64,
        reading: u64,
    },
    /// The read of this block failed.
    ReadFault {
        block: BlockNo,
    },
    /// The write of this block failed.
    WriteFault {
        block: BlockNo,
    },
    /// There is no room left.
    Full,
    /// This block was read, and its bytes are outside the format.
    Damaged {
        block: BlockNo,
    },
    /// A count stands at its last value.
    WornOut {
        count: u64,
    },
}
