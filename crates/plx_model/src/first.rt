//! The tables of a model before the first entry.
ghost use Rattle.std.specs.Prelude.{◌≡◌, IfOk, map, replicate, None, false};
ghost use Rattle.plx_commands.specs.Model.{first_slot};
ghost use Rattle.plx_model.specs.Shown.{running_of, seat_sessions, slot_of};

use crate::seat::Seat;
use crate::slot::SlotState;
use plx_base::NoMemory;
use std::alloc::Global;

// The slots before the first entry.
pub fn first_slots(alloc: Global, images: u32) -> Result<Vec<SlotState>, NoMemory>
    ensures { IfOk result (λ slots. map slot_of slots.items ≡ replicate images first_slot) }
{
    let mut slots = Vec::new(alloc);
    for _ in 0..images {
        slots.push(SlotState::new(alloc))?;
    }
    Ok(slots)
}

// The appliances before the first entry.
pub fn first_seats(alloc: Global, appliances: u32) -> Result<Vec<Seat>, NoMemory>
    ensures sessions { IfOk result (λ seats. map seat_sessions seats.items
        ≡ replicate appliances (λ slot. false)) }
    ensures running { IfOk result (λ seats. map running_of seats.items
        ≡ replicate appliances None) }
{
    let mut seats = Vec::new(alloc);
    for _ in 0..appliances {
        seats.push(Seat::new())?;
    }
    Ok(seats)
}
