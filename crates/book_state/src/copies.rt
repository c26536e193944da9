//! The trees that a history books.
ghost use Rattle.std.specs.Prelude.{◌≡◌, map, IfOk};
ghost use Rattle.std.specs.List.{range_with_len};
ghost use Rattle.book_state.specs.Replicas.{tree_at_place, place_of};

use crate::history::History;
use crate::places::{Places, tree_by_place};
use gr_base::Routes;
use std::alloc::AllocError;

/// The tree of each net's claim, where the claims stand at these places. The history shares the trees'
/// nodes. The only error is want of memory.
pub(crate) fn copied_routes(
    history: &History,
    places: &Places,
    nets: u32,
) -> Result<Routes, AllocError>
    ensures { IfOk result (λ routes. routes ≡
        map (λ net. tree_at_place history.now (place_of places.now net)) (range_with_len 0 nets)) }
{
    let alloc = history.alloc();
    let mut routes = Routes::new(alloc, nets)?;
    for net in 0..nets {
        let Some(tree) = tree_by_place(history, places, net as usize) else {
            continue;
        };
        routes.set(net, tree.copy(alloc)?);
    }
    Ok(routes)
}
