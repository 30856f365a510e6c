//! Lists with a place for each image, which may be empty.
ghost use Rattle.std.specs.Prelude.{◌≡◌, ℕ, None, IfOk, slice_index_or};
ghost use Rattle.std.specs.Vec.{vec_len};

use plx_base::NoMemory;
use std::alloc::Global;

/// So many empty places.
pub fn empty_places<T: Drop>(alloc: Global, count: u32) -> Result<Vec<Option<T>>, NoMemory>
    ensures len { IfOk result (λ places. vec_len places ≡ count) }
    ensures none { IfOk result (λ places. (k : ℕ) → slice_index_or places.items k None ≡ None) }
{
    let mut places = Vec::with_capacity(alloc, count as usize)?;
    for _ in 0..count {
        places.push(None)?;
    }
    Ok(places)
}

/// Each place becomes empty.
pub fn clear_places<T: Drop>(places: &mut Vec<Option<T>>)
    ensures len { vec_len places.new ≡ vec_len places.old }
    ensures none { (k : ℕ) → slice_index_or places.new.items k None ≡ None }
{
    for index in 0..places.len() {
        places[index] = None;
    }
}
