//! What a block holds, without a block where one byte says it.
ghost use Rattle.std.specs.Prelude.{◌≡◌, ◌↔◌, IfOk};
ghost use Rattle.plx_base.specs.Canonical.{payload_of};
ghost use Rattle.plx_base.specs.Payload.{IsAll, IsUniform, bytes_of};

use crate::block::Block;
use std::alloc::{AllocError, Global};

/// What a block holds: one byte throughout, or all its bytes.
#[derive(Drop)]
pub enum Payload {
    All(u8),
    Whole(Block),
}

impl Payload {
    /// What the block holds.
    pub fn of(alloc: Global, block: &Block) -> Result<Payload, AllocError>
        ensures same { IfOk result (λ p. bytes_of p ≡ block.now) }
        ensures all { IfOk result (λ p. IsAll p ↔ IsUniform block.now) }
        ensures canonical { IfOk result (λ p. p ≡ payload_of block.now) }
    {
        let byte = block.as_slice()[0];
        if block.is_filled(byte) {
            return Ok(Payload::All(byte));
        }
        Ok(Payload::Whole(block.copy(alloc)?))
    }

    /// What the block holds, without memory.
    pub fn holding(block: Block) -> Payload
        ensures { result ≡ payload_of block }
    {
        let byte = block.as_slice()[0];
        if block.is_filled(byte) {
            return Payload::All(byte);
        }
        Payload::Whole(block)
    }

    /// A block that holds it.
    pub fn to_block(&self, alloc: Global) -> Result<Block, AllocError>
        ensures { IfOk result (λ b. b ≡ bytes_of self.now) }
    {
        match self {
            Payload::All(byte) => Block::filled(alloc, *byte),
            Payload::Whole(block) => block.copy(alloc),
        }
    }

    /// An equal payload.
    pub fn copy(&self, alloc: Global) -> Result<Payload, AllocError>
        ensures { IfOk result (λ p. p ≡ self.now) }
    {
        match self {
            Payload::All(byte) => Ok(Payload::All(*byte)),
            Payload::Whole(block) => Ok(Payload::Whole(block.copy(alloc)?)),
        }
    }
}
