//! The blocks that are stored. A block that isn't is zeros.
ghost use Rattle.std.specs.Prelude.{◌≡◌, ◌<◌, ℕ, Bool, true, false, length, IfOk, OnOk, OnErr, IsTrue};
ghost use Rattle.plx_base.specs.Blocks.{zeros};
ghost use Rattle.plx_base.specs.Sectors.{with_landed_sector, put};
ghost use Rattle.plx_disk.specs.Stored.{device_of, is_stored};

use plx_base::{Block, NoMemory};
use std::alloc::Global;
use std::collections::BTreeMap;
use std::mem;

/// A block of these bytes.
pub fn block_of(alloc: Global, bytes: &[u8]) -> Result<Block, NoMemory>
    requires { length bytes.now ≡ 4096 }
    ensures { IfOk result (λ b. b ≡ bytes.now) }
{
    let mut block = Block::zeros(alloc)?;
    block.set(bytes);
    Ok(block)
}

/// A block of these bytes: the spare one, if there is one.
pub fn given(alloc: Global, spare: &mut Option<Block>, bytes: &[u8]) -> Result<Block, NoMemory>
    requires { length bytes.now ≡ 4096 }
    ensures { IfOk result (λ b. b ≡ bytes.now) }
{
    let Some(mut block) = spare.take() else {
        return block_of(alloc, bytes);
    };
    block.set(bytes);
    Ok(block)
}

/// One sector of a write lands on its block.
pub fn land_on(blocks: &mut BTreeMap<u64, Block>, block: u64, sector: u8, bytes: &Block)
    requires within { sector < 8 }
    requires present { is_stored blocks.old block ≡ true }
    ensures lands { (b : ℕ) → device_of blocks.new b
        ≡ put (device_of blocks.old) block (with_landed_sector sector bytes.now
        (device_of blocks.old block)) b }
    ensures stored { (b : ℕ) → is_stored blocks.new b ≡ is_stored blocks.old b }
{
    match blocks.get_mut(&block) {
        Some(stored) => stored.land(sector, bytes),
        None => unreachable!(),
    }
}

/// The block has a place, in which a write can land.
pub fn make_place(
    alloc: Global,
    blocks: &mut BTreeMap<u64, Block>,
    block: u64,
) -> Result<(), NoMemory>
    ensures same { (b : ℕ) → device_of blocks.new b ≡ device_of blocks.old b }
    ensures present { OnOk result (is_stored blocks.new block ≡ true) }
    ensures others { (b : ℕ) → is_stored blocks.old b ≡ true → is_stored blocks.new b ≡ true }
{
    if blocks.contains_key(&block) {
        return Ok(());
    }
    let empty = Block::zeros(alloc)?;
    blocks.insert(block, empty)?;
    Ok(())
}

/// Puts bytes into a block.
pub fn store(blocks: &mut BTreeMap<u64, Block>, block: u64, bytes: Block) -> Result<(), NoMemory>
    ensures ok { OnOk result ((b : ℕ) → device_of blocks.new b
        ≡ put (device_of blocks.old) block bytes b) }
    ensures err { OnErr result ((b : ℕ) → device_of blocks.new b ≡ device_of blocks.old b) }
    ensures others { (b : ℕ) → is_stored blocks.old b ≡ true → is_stored blocks.new b ≡ true }
{
    blocks.insert(block, bytes)?;
    Ok(())
}

/// What is stored of a block and the buffer change places. False, and nothing changes, where the block
/// isn't stored.
pub fn trade(blocks: &mut BTreeMap<u64, Block>, block: u64, buffer: &mut Block) -> bool
    ensures found { result ≡ is_stored blocks.old block }
    ensures given { IsTrue result → buffer.new ≡ device_of blocks.old block }
    ensures instead { IsTrue result → (b : ℕ) → device_of blocks.new b
        ≡ put (device_of blocks.old) block buffer.old b }
    ensures none { result ≡ false → (b : ℕ) → device_of blocks.new b ≡ device_of blocks.old b }
    ensures stored { (b : ℕ) → is_stored blocks.new b ≡ is_stored blocks.old b }
{
    match blocks.get_mut(&block) {
        Some(stored) => {
            mem::swap(stored, buffer);
            true
        }
        None => false,
    }
}
