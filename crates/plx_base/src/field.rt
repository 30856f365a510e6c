//! Numbers in bytes, the lowest byte first.
ghost use Rattle.std.specs.Prelude.{◌≡◌, ◌+◌, ◌≤◌, length};
ghost use Rattle.plx_base.specs.Blocks.{with_bytes_at};
ghost use Rattle.plx_base.specs.Fields.{little, number_at};

use byteorder::{ByteOrder, LittleEndian};

/// The number in the 4 bytes from `at` on.
pub fn get_u32(bytes: &[u8], at: usize) -> u32
    requires { at + 4 ≤ length bytes.now }
    ensures { result ≡ number_at 4 at bytes.now }
{
    LittleEndian::read_u32(&bytes[at..])
}

/// The number in the 8 bytes from `at` on.
pub fn get_u64(bytes: &[u8], at: usize) -> u64
    requires { at + 8 ≤ length bytes.now }
    ensures { result ≡ number_at 8 at bytes.now }
{
    LittleEndian::read_u64(&bytes[at..])
}

/// The number in the 16 bytes from `at` on.
pub fn get_u128(bytes: &[u8], at: usize) -> u128
    requires { at + 16 ≤ length bytes.now }
    ensures { result ≡ number_at 16 at bytes.now }
{
    LittleEndian::read_u128(&bytes[at..])
}

/// Writes a number into the 4 bytes from `at` on.
pub fn put_u32(bytes: &mut [u8], at: usize, value: u32)
    requires { at + 4 ≤ length bytes.old }
    ensures { bytes.new ≡ with_bytes_at at (little 4 value) bytes.old }
{
    LittleEndian::write_u32(&mut bytes[at..], value);
}

/// Writes a number into the 8 bytes from `at` on.
pub fn put_u64(bytes: &mut [u8], at: usize, value: u64)
    requires { at + 8 ≤ length bytes.old }
    ensures { bytes.new ≡ with_bytes_at at (little 8 value) bytes.old }
{
    LittleEndian::write_u64(&mut bytes[at..], value);
}

/// Writes a number into the 16 bytes from `at` on.
pub fn put_u128(bytes: &mut [u8], at: usize, value: u128)
    requires { at + 16 ≤ length bytes.old }
    ensures { bytes.new ≡ with_bytes_at at (little 16 value) bytes.old }
{
    LittleEndian::write_u128(&mut bytes[at..], value);
}
