//! The leases.
ghost use Rattle.std.specs.Prelude.{◌≡◌, ◌↔◌, length, IsTrue};
ghost use Rattle.plx_base.specs.Spelling.{IsReading, OnlySector};
ghost use Rattle.plx_gate.specs.Leases.{IsLease, found_lease, is_lease, lease_bytes, lease_fields};
ghost use Rattle.plx_gate.specs.Leases.{read_lease as lease_in};
ghost use Rattle.plx_gate.specs.Leases.{fields_of as numbers_of};

use plx_base::{
    Boot, Claim, Field, LeaseRecord, get_u32, get_u64, get_u128, is_record, put_record,
};

/// The bytes that begin a lease.
const MAGIC: &[u8] = b"PLXLEAS1";

/// The numbers of claims end below this one.
const CLAIMS_END: u64 = 1 << 40;

/// Clock readings end below this one, in milliseconds.
const READINGS_END: u64 = 1 << 48;

/// The moments up to which a lease is claimed end below this one, in milliseconds.
const UNTIL_END: u64 = 1 << 49;

/// How long a claim lasts at least from its sample on, in milliseconds.
const LEASE: u64 = 10_000;

/// What a lease's block of 4,096 bytes says, or `None` where the bytes are outside the format.
pub fn read_lease(bytes: &[u8]) -> Option<LeaseRecord>
    requires { length bytes.now ≡ 4096 }
    ensures same { result ≡ lease_in bytes.now }
    ensures grammar { IsReading IsLease lease_bytes bytes.now result }
{
    let lease = found(bytes);
    if !is_within(lease) {
        return None;
    }
    if !is_record(bytes, MAGIC, &fields(lease), &[]) {
        return None;
    }
    Some(lease)
}

/// Makes a block of 4,096 bytes the spelling of a lease. Over another lease the first sector tells all.
pub fn write_lease(value: &LeaseRecord, bytes: &mut [u8])
    requires long { length bytes.old ≡ 4096 }
    requires limits { IsLease value.now }
    ensures spelled { bytes.new ≡ lease_bytes value.now }
    ensures sector { (old : LeaseRecord) → bytes.old ≡ lease_bytes old
        → OnlySector 0 bytes.new bytes.old }
{
    put_record(bytes, MAGIC, &fields(*value), &[]);
}

// The lease whose numbers stand at the places of the fields.
fn found(bytes: &[u8]) -> LeaseRecord
    requires { length bytes.now ≡ 4096 }
    ensures { result ≡ found_lease bytes.now }
{
    if get_u32(bytes, 8) == 0 {
        return LeaseRecord::Free;
    }
    let claim = Claim {
        boot: Boot(get_u128(bytes, 16)),
        number: get_u64(bytes, 32),
        sample: get_u64(bytes, 40),
    };
    let until = get_u64(bytes, 48);
    LeaseRecord::Claimed { claim, until }
}

// Whether a lease is within its limits.
fn is_within(lease: LeaseRecord) -> bool
    ensures { result ≡ is_lease lease }
{
    match lease {
        LeaseRecord::Free => true,
        LeaseRecord::Claimed { claim, until } => {
            claim.number < CLAIMS_END
                && claim.sample < READINGS_END
                && claim.sample + LEASE <= until
                && until < UNTIL_END
        }
    }
}

// The fields of a lease.
fn fields(lease: LeaseRecord) -> [Field; 6]
    ensures { result ≡ lease_fields lease }
{
    match lease {
        LeaseRecord::Free => fields_of(0, 0, 0, 0, 0),
        LeaseRecord::Claimed { claim, until } => {
            fields_of(1, claim.boot.0, claim.number, claim.sample, until)
        }
    }
}

// The fields of these numbers.
fn fields_of(state: u32, boot: u128, number: u64, sample: u64, until: u64) -> [Field; 6]
    ensures { result ≡ numbers_of state boot number sample until }
{
    [
        Field::U32(state),
        Field::U32(0),
        Field::U128(boot),
        Field::U64(number),
        Field::U64(sample),
        Field::U64(until),
    ]
}
