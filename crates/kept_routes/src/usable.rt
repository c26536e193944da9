//! Trees whose wires are in usable directions.
ghost use Rattle.std.specs.Prelude.{◌≡◌, ◌↔◌, IsTrue};
ghost use Rattle.grid_demand.specs.Tables.{capacity_of};
ghost use Rattle.kept_routes.specs.Kept.{HasUsableWires};
ghost use Rattle.gr_base.specs.Designs.{DesignView};

use gr_base::RouteTree;
use grid_demand::Capacity;

/// Whether each wire edge of a tree is in a usable direction.
pub(crate) fn has_usable_wires(capacity: &Capacity, tree: &RouteTree) -> bool
    requires { tree.now.shape ≡ capacity.now.shape }
    ensures { (d : DesignView) → capacity.now ≡ capacity_of d → IsTrue result ↔ HasUsableWires d tree.now }
{
    for node in 0..tree.len() {
        if let Some(edge) = tree.wire_to_parent(node) {
            if !capacity.usable(edge) {
                return false;
            }
        }
    }
    true
}
