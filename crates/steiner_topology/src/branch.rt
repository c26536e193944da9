//! Adds a point where a point's way to its parent can be shared, and keeps the lists of children in step.
ghost use Rattle.std.specs.Prelude.{◌≡◌, ℕ, ◌+◌, ◌<◌, ◌^◌, ◌∷◌, [], ◌++◌, vec_len, length, All, IsTrue, IfSome, OnOk};
ghost use Rattle.steiner_topology.specs.Topology.{parent_of, is_neighbour, meeting, saving, best_neighbour, with_branch, branched, handled};
ghost use Rattle.steiner_topology.specs.Children.{AreChildren, lists_of, without, is_better, preferred, best_of};

use crate::children::{Children, list_branch};
use crate::point::{Join, Point, Tile};
use crate::tile::{distance, middle};
use std::alloc::AllocError;

/// Adds a point where the way from a point to its parent can be shared with the way from one of
/// the parent's other neighbours, if that saves something. The neighbour that saves most is taken,
/// and of several the one of least number. The lists of the points' children are kept, so this
/// takes time in the number of the parent's neighbours. The only error is want of memory.
pub fn handle(
    points: &mut Vec<Point>,
    children: &mut Vec<Children>,
    join: Join,
) -> Result<(), AllocError>
    requires inside { join.point < vec_len points.old }
    requires parents { All (λ p. p.parent < vec_len points.old) points.old.items }
    requires few { vec_len points.old + 1 < 2 ^ 32 }
    requires children { AreChildren points.old.items (lists_of children.old.items) }
    ensures points { OnOk result (points.new.items ≡ handled points.old.items join) }
    ensures children { OnOk result (AreChildren points.new.items (lists_of children.new.items)) }
{
    let j = join.point;
    let Some(q) = best_neighbour(points, children, j) else {
        return Ok(());
    };
    if saving(points, j, q) == 0 {
        return Ok(());
    }
    add_branch(points, children, j, q)
}

/// The neighbour of a point's parent with which the point saves most, and of several the one of
/// least number. None if the parent has no other neighbour.
fn best_neighbour(points: &[Point], children: &[Children], j: u32) -> Option<u32>
    requires inside { j < length points.now }
    requires parents { All (λ p. p.parent < length points.now) points.now }
    requires children { AreChildren points.now (lists_of children.now) }
    ensures best { result ≡ best_neighbour points.now j }
    ensures inside { IfSome result (λ q. q < length points.now) }
{
    let i = points[j as usize].parent;
    let best = best_child(points, children[i as usize].as_slice(), j);
    let above = points[i as usize].parent;
    if above == i || above == j {
        return best;
    }
    better(points, j, best, above)
}

/// Of some points other than j itself the one with which j saves most, and of several the one of
/// least number.
fn best_child(points: &[Point], children: &[u32], j: u32) -> Option<u32>
    requires inside { j < length points.now }
    requires children { All (λ q. q < length points.now) children.now }
    requires parents { All (λ p. p.parent < length points.now) points.now }
    ensures best { result ≡ best_of points.now j (without j children.now) }
    ensures inside { IfSome result (λ q. q < length points.now) }
{
    let mut best = None;
    for &q in children {
        if q != j {
            best = better(points, j, best, q);
        }
    }
    best
}

/// Of the neighbour that is kept so far, if there is one, and the next, the one that saves more,
/// and if they save the same, the one of lower number.
fn better(points: &[Point], j: u32, kept: Option<u32>, q: u32) -> Option<u32>
    requires j { j < length points.now }
    requires kept { IfSome kept (λ k. k < length points.now) }
    requires q { q < length points.now }
    requires parents { All (λ p. p.parent < length points.now) points.now }
    ensures better { result ≡ preferred points.now j kept q }
    ensures inside { IfSome result (λ k. k < length points.now) }
{
    match kept {
        Some(kept) if !is_better(points, j, kept, q) => Some(kept),
        _ => Some(q),
    }
}

/// Whether a point saves more with the next neighbour than with the one that is kept, or saves the
/// same and the next has the lower number.
fn is_better(points: &[Point], j: u32, kept: u32, q: u32) -> bool
    requires j { j < length points.now }
    requires kept { kept < length points.now }
    requires q { q < length points.now }
    requires parents { All (λ p. p.parent < length points.now) points.now }
    ensures { result ≡ is_better points.now j kept q }
{
    let savings = (saving(points, j, kept), saving(points, j, q));
    if savings.0 != savings.1 {
        savings.0 < savings.1
    } else {
        q < kept
    }
}

/// How much shorter the ways from a point and from a neighbour of its parent get, if they meet
/// before the parent: by the distance from where they meet to the parent.
fn saving(points: &[Point], j: u32, q: u32) -> u64
    requires j { j < length points.now }
    requires q { q < length points.now }
    requires parents { All (λ p. p.parent < length points.now) points.now }
    ensures { result ≡ saving points.now j q }
{
    let i = points[j as usize].parent;
    distance(points[i as usize].tile, meeting(points, j, q))
}

/// The tile where the ways from a point and from a neighbour of its parent to the parent meet.
fn meeting(points: &[Point], j: u32, q: u32) -> Tile
    requires j { j < length points.now }
    requires q { q < length points.now }
    requires parents { All (λ p. p.parent < length points.now) points.now }
    ensures { result ≡ meeting points.now j q }
{
    let i = points[j as usize].parent;
    middle(
        points[j as usize].tile,
        points[i as usize].tile,
        points[q as usize].tile,
    )
}

/// Adds the point where the ways from a point and from a neighbour of its parent meet, below the
/// upper one of the parent and the neighbour.
fn add_branch(
    points: &mut Vec<Point>,
    children: &mut Vec<Children>,
    j: u32,
    q: u32,
) -> Result<(), AllocError>
    requires j { j < vec_len points.old }
    requires q { q < vec_len points.old }
    requires neighbour { IsTrue (is_neighbour points.old.items j q) }
    requires parents { All (λ p. p.parent < vec_len points.old) points.old.items }
    requires few { vec_len points.old + 1 < 2 ^ 32 }
    requires children { AreChildren points.old.items (lists_of children.old.items) }
    ensures points { OnOk result (points.new.items ≡ branched points.old.items j q) }
    ensures children { OnOk result (AreChildren points.new.items (lists_of children.new.items)) }
{
    let i = points[j as usize].parent;
    let tile = meeting(points, j, q);
    if points[i as usize].parent == q {
        hang_branch(points, children, Point { tile, parent: q }, i, j)
    } else {
        hang_branch(points, children, Point { tile, parent: i }, q, j)
    }
}

/// Adds a point, hangs two others on it, of which one hung on the same parent, and keeps the lists.
fn hang_branch(
    points: &mut Vec<Point>,
    children: &mut Vec<Children>,
    branch: Point,
    lower: u32,
    j: u32,
) -> Result<(), AllocError>
    requires upper { branch.parent < vec_len points.old }
    requires lower { lower < vec_len points.old }
    requires j { j < vec_len points.old }
    requires hangs { parent_of points.old.items lower ≡ branch.parent }
    requires apart { j ≡ lower → ⊥ }
    requires parents { All (λ p. p.parent < vec_len points.old) points.old.items }
    requires few { vec_len points.old + 1 < 2 ^ 32 }
    requires children { AreChildren points.old.items (lists_of children.old.items) }
    ensures points { OnOk result (points.new.items ≡ with_branch points.old.items branch.tile branch.parent lower j) }
    ensures children { OnOk result (AreChildren points.new.items (lists_of children.new.items)) }
{
    let i = points[j as usize].parent;
    list_branch(children, i, branch.parent, lower, j)?;
    hang_points(points, branch, lower, j)
}

/// Adds a point, and hangs two others on it.
fn hang_points(points: &mut Vec<Point>, branch: Point, lower: u32, j: u32) -> Result<(), AllocError>
    requires lower { lower < vec_len points.old }
    requires j { j < vec_len points.old }
    requires few { vec_len points.old + 1 < 2 ^ 32 }
    ensures { OnOk result (points.new.items ≡ with_branch points.old.items branch.tile branch.parent lower j) }
{
    let number = points.len() as u32;
    points.push(branch)?;
    points[lower as usize].parent = number;
    points[j as usize].parent = number;
    Ok(())
}
