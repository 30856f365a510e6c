//! Blocks and payloads that get their memory.
use plx_base::{Block, NoMemory, Payload};
use std::alloc::Global;

/// A copy of the block's payload.
fn payload(alloc: Global, block: &Block) -> Result<Payload, NoMemory> {
    Payload::of(alloc, block)?.copy(alloc)
}

/// Whether a block is told by one byte, a one.
fn is_one(alloc: Global, block: &Block) -> bool {
    matches!(payload(alloc, block), Ok(Payload::All(1)))
}

/// Whether a block is told by all its bytes: zeros but for the last sector, which is ones.
fn is_landed(alloc: Global, block: &Block) -> bool {
    let mut wanted = [0; 4096];
    wanted[3584..].fill(1);
    match payload(alloc, block) {
        Ok(Payload::Whole(block)) => block.as_slice() == wanted.as_slice(),
        _ => false,
    }
}

#[test]
fn a_block_of_one_byte_is_told_by_it_and_another_by_all(rt: HostRuntime) {
    let ones = Block::filled(rt.alloc(), 1).expect(&rt, "memory");
    assert!(rt; is_one(rt.alloc(), &ones), "one byte");
    let mut block = Block::zeros(rt.alloc()).expect(&rt, "memory");
    block.land(7, &ones);
    let landed = block.copy(rt.alloc()).expect(&rt, "memory");
    assert!(rt; is_landed(rt.alloc(), &landed), "all bytes");
}
