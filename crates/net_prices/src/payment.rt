//! What is paid for one group of a net's pins.
ghost use Rattle.std.specs.Prelude.{◌≡◌, ◌*◌, ◌<◌, ◌≤◌, length, IsTrue};
ghost use Rattle.gr_base.specs.Grid.{cells_of};
ghost use Rattle.gr_base.specs.Trees.{is_among as is_one_of};
ghost use Rattle.net_prices.specs.Arcs.{AreLower};
ghost use Rattle.net_prices.specs.Payments.{IsRaised, MayPay};

use crate::arcs::pay_all;
use crate::labels::Labels;
use gr_base::Shape;

/// Whether a cell is one of these.
fn is_among(cells: &[u32], cell: u32) -> bool
    ensures { result ≡ is_one_of cells.now cell }
{
    cells.iter().any(|other| *other == cell)
}

/// Whether labels allow to pay a distance for a pin: its own is 0, and the driver's at least the distance.
fn may_pay(
    labels: &Labels,
    shape: Shape,
    driver: u32,
    pins: &[u32],
    pin: u32,
    distance: u32,
) -> bool
    requires driver { driver < cells_of shape }
    requires labels { length labels.now.table ≡ cells_of shape }
    ensures { IsTrue result → MayPay labels.now.table driver pins.now pin distance }
{
    if pin >= shape.cells() || labels.at(pin) != 0 {
        return false;
    }
    distance <= labels.at(driver) && is_among(pins, pin)
}

/// Pays a distance for a pin: takes of what is left for arcs what labels fall along them, up to the
/// distance. Gives what is paid: the distance, or nothing where the labels don't allow it.
pub(crate) fn pay(
    left: &mut Vec<u32>,
    labels: &Labels,
    shape: Shape,
    driver: u32,
    pins: &[u32],
    pin: u32,
    distance: u32,
) -> u32
    requires driver { driver < cells_of shape }
    requires labels { length labels.now.table ≡ cells_of shape }
    requires left { length left.old.items ≡ 6 * cells_of shape }
    ensures lower { AreLower left.old.items left.new.items }
    ensures raised { IsRaised shape driver pins.now left.old.items left.new.items result }
{
    if !may_pay(labels, shape, driver, pins, pin, distance) {
        return 0;
    }
    if !pay_all(left, labels, shape, distance) {
        return 0;
    }
    distance
}
