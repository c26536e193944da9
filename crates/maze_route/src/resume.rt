//! How a search goes on from what the one before left.
ghost use Rattle.std.specs.Prelude.{◌≡◌, ℕ, ◌≤◌, [], All, length, Option, OnOk};
ghost use Rattle.gr_base.specs.declared.grid.Edge.{Edge};
ghost use Rattle.maze_route.specs.Kept.{AreWaiting, IsKept, IsResumable};
ghost use Rattle.maze_route.specs.Labels.{label_at};
ghost use Rattle.maze_route.specs.Search.{most_distance, IsAtMost, HasSources, IsSearching};
ghost use Rattle.maze_route.specs.Steps.{size_of, rest_of, FitsIn, pane_graph};
ghost use Rattle.maze_route.specs.Windows.{TreeLiesIn};

use crate::front::Frontier;
use crate::pane::{Aim, Neighbour, Pane};
use crate::search::reach;
use crate::steps::distance_to;
use gr_base::RouteTree;
use std::alloc::AllocError;

/// Makes it a frontier at which the tree's cells have label 0, and what waits does so by this bound on the
/// rest of the way.
pub(crate) fn resume(
    pane: Pane,
    aim: &Aim,
    tree: &RouteTree,
    waiting: &mut Vec<u32>,
    front: &mut Frontier,
) -> Result<(), AllocError>
    requires aim { FitsIn pane aim.now }
    requires grid { tree.now.shape ≡ pane.grid }
    requires tree { TreeLiesIn pane.window tree.now }
    requires size { length front.old.labels.costs.items ≡ size_of pane }
    requires kept { IsResumable pane tree.now front.old }
    ensures size { length front.new.labels.costs.items ≡ size_of pane }
    ensures sources { (price : Edge → Option ℕ) →
        OnOk result (HasSources (pane_graph pane tree.now price) (label_at front.new.labels.costs.items)) }
    ensures searching { (price : Edge → Option ℕ) → IsKept (pane_graph pane tree.now price) (size_of pane) front.old →
        OnOk result (IsSearching (pane_graph pane tree.now price) (rest_of pane aim.now)
        (label_at front.new.labels.costs.items) front.new.queue.pairs (size_of pane)) }
{
    front.queue.cells(waiting)?;
    front.queue.clear();
    wait_again(pane, aim, waiting, front)?;
    seed(pane, aim, tree, front)
}

/// Puts labelled cells into an empty queue.
fn wait_again(pane: Pane, aim: &Aim, cells: &[u32], front: &mut Frontier) -> Result<(), AllocError>
    requires aim { FitsIn pane aim.now }
    requires size { length front.old.labels.costs.items ≡ size_of pane }
    requires labelled { All (λ cell. IsAtMost (label_at front.old.labels.costs.items cell) most_distance) cells.now }
    requires empty { front.old.queue ≡ record { pairs = []; last = 0 } }
    ensures labels { front.new.labels.costs.items ≡ front.old.labels.costs.items }
    ensures last { front.new.queue.last ≡ 0 }
    ensures waiting { OnOk result (AreWaiting (rest_of pane aim.now) (label_at front.old.labels.costs.items)
        front.new.queue.pairs cells.now) }
{
    for &cell in cells {
        let label = front.labels.at(cell).unwrap();
        let rest = distance_to(aim, pane.spot(cell).place);
        front.queue.push(label + rest, cell)?;
    }
    Ok(())
}

/// Gives each of the tree's cells the label 0.
fn seed(pane: Pane, aim: &Aim, tree: &RouteTree, front: &mut Frontier) -> Result<(), AllocError>
    requires aim { FitsIn pane aim.now }
    requires grid { tree.now.shape ≡ pane.grid }
    requires tree { TreeLiesIn pane.window tree.now }
    requires size { length front.old.labels.costs.items ≡ size_of pane }
    requires last { front.old.queue.last ≡ 0 }
    ensures size { length front.new.labels.costs.items ≡ size_of pane }
    ensures sources { (price : Edge → Option ℕ) →
        OnOk result (HasSources (pane_graph pane tree.now price) (label_at front.new.labels.costs.items)) }
    ensures searching { (price : Edge → Option ℕ) → IsSearching (pane_graph pane tree.now price) (rest_of pane aim.now)
        (label_at front.old.labels.costs.items) front.old.queue.pairs (size_of pane) → OnOk result (
        IsSearching (pane_graph pane tree.now price) (rest_of pane aim.now)
        (label_at front.new.labels.costs.items) front.new.queue.pairs (size_of pane)) }
{
    for node in 0..tree.len() {
        let spot = pane.spot(pane.local(tree.cell(node)));
        let start = Neighbour {
            cell: spot.local,
            cost: 0,
            place: spot.place,
        };
        reach(aim, front, 0, Some(start))?;
    }
    Ok(())
}
