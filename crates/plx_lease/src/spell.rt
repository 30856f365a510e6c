//! Leases as blocks.
ghost use Rattle.std.specs.Prelude.{◌≡◌};
ghost use Rattle.plx_gate.specs.Leases.{IsLease};
ghost use Rattle.plx_gate.specs.Leases.{lease_bytes as bytes_of_lease};

use plx_base::{BLOCK_LEN, Block, LeaseRecord};
use plx_gate::write_lease;

/// Makes a block the spelling of a lease.
pub fn spell_lease(lease: &LeaseRecord, block: &mut Block)
    requires { IsLease lease.now }
    ensures { block.new ≡ bytes_of_lease lease.now }
{
    let mut bytes = [0; BLOCK_LEN];
    write_lease(lease, &mut bytes);
    block.set(&bytes);
}
