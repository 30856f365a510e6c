//! The block-list model.
ghost use Rattle.std.specs.Prelude.{◌≤◌, length};

use crate::first::{first_seats, first_slots};
use crate::seat::Seat;
use crate::slot::SlotState;
use plx_base::NoMemory;
use std::alloc::Global;

/// The block-list model: images, their changes under way, owners, sessions and running commands. It
/// knows no time, lease, tree, journal or extent.
#[derive(Drop)]
pub struct Model {
    pub(crate) alloc: Global,
    pub(crate) slots: Vec<SlotState>,
    pub(crate) seats: Vec<Seat>,
    ghost few: { length slots.items ≤ 256 },
}

impl Model {
    ghost use Rattle.std.specs.Prelude.{◌≡◌, ◌≤◌, IfOk};
    ghost use Rattle.plx_commands.specs.Model.{first_model};
    ghost use Rattle.plx_model.specs.Shown.{model_of_tables};

    /// The model before the first entry, of 1 to 256 images and 1 to 8 appliances.
    pub fn new(alloc: Global, images: u32, appliances: u32) -> Result<Model, NoMemory>
        requires some_images { 1 ≤ images }
        requires few_images { images ≤ 256 }
        requires some_appliances { 1 ≤ appliances }
        requires few_appliances { appliances ≤ 8 }
        ensures { IfOk result (λ model. model_of_tables model ≡ first_model images appliances) }
    {
        let slots = first_slots(alloc, images)?;
        let seats = first_seats(alloc, appliances)?;
        Ok(Model {
            alloc,
            slots,
            seats,
        })
    }
}
