//! Places for pairs.
ghost use Rattle.std.specs.Prelude.{◌≡◌, true, IfOk, OnOk, OnErr};
ghost use Rattle.maze_route.specs.Kept.{cells_waiting};
ghost use Rattle.maze_route.specs.Places.{IsPut, HasFree};

use crate::slot::Slot;
use std::alloc::AllocError;

/// Puts a pair into a free place, or behind the last. More than 4,294,967,296 places count as
/// want of memory.
pub(crate) fn put(
    slots: &mut Vec<Slot>,
    free: &mut Option<u32>,
    slot: Slot,
) -> Result<u32, AllocError>
    requires taken { slot.taken ≡ true }
    requires free { HasFree slots.old.items free.old }
    ensures put { IfOk result (λ place. IsPut slots.old.items slots.new.items place slot) }
    ensures free { HasFree slots.new.items free.new }
    ensures err_slots { OnErr result (slots.new.items ≡ slots.old.items) }
    ensures err_free { OnErr result (free.new ≡ free.old) }
{
    let Some(place) = *free else {
        return push_place(slots, slot);
    };
    *free = slots[place as usize].next;
    slots[place as usize] = slot;
    Ok(place)
}

/// Puts a pair behind the last place.
fn push_place(slots: &mut Vec<Slot>, slot: Slot) -> Result<u32, AllocError>
    requires { slot.taken ≡ true }
    ensures put { IfOk result (λ place. IsPut slots.old.items slots.new.items place slot) }
    ensures err { OnErr result (slots.new.items ≡ slots.old.items) }
{
    let Ok(place) = u32::try_from(slots.len()) else {
        return Err(AllocError);
    };
    slots.push(slot)?;
    Ok(place)
}

/// Puts the cells of all pairs in the place of what a list held.
pub(crate) fn waiting(slots: &[Slot], cells: &mut Vec<u32>) -> Result<(), AllocError>
    ensures { OnOk result (cells.new.items ≡ cells_waiting slots.now) }
{
    cells.clear();
    for slot in slots {
        if slot.taken {
            cells.push(slot.cell)?;
        }
    }
    Ok(())
}
