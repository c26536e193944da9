//! Keeps a list of each point's children, so that a point's neighbours are found without a search.
ghost use Rattle.std.specs.Prelude.{◌≡◌, ◌+◌, ◌<◌, ◌^◌, [], vec_len, length, replicate, All, OnOk};
ghost use Rattle.steiner_topology.specs.Children.{AreChildren, lists_of, without, unlisted, listed, branch_listed};

use crate::point::Point;
use smallvec::SmallVec;
use std::alloc::{AllocError, Global};

/// The numbers of a point's children. Few points have more than four.
pub type Children = SmallVec<u32, 4>;

/// Puts the list of each point's children in place of the lists that there are. The only error is
/// want of memory.
pub fn put_child_lists(
    alloc: Global,
    points: &[Point],
    children: &mut Vec<Children>,
) -> Result<(), AllocError>
    requires parents { All (λ p. p.parent < length points.now) points.now }
    requires few { length points.now < 2 ^ 31 }
    ensures { OnOk result (AreChildren points.now (lists_of children.new.items)) }
{
    put_empty_lists(alloc, points.len(), children)?;
    for child in 0..points.len() as u32 {
        let parent = points[child as usize].parent;
        if parent == child {
            continue;
        }
        list(children, parent, child)?;
    }
    Ok(())
}

/// Puts so many empty lists in place of those that there are.
fn put_empty_lists(alloc: Global, count: usize, lists: &mut Vec<Children>) -> Result<(), AllocError>
    ensures { OnOk result (lists_of lists.new.items ≡ replicate count []) }
{
    lists.clear();
    for _ in 0..count {
        lists.push(SmallVec::new(alloc))?;
    }
    Ok(())
}

/// Moves `lower` and `j` from the lists of `upper` and of `i`, their parents so far, to that of a
/// new point below `upper`.
pub fn list_branch(
    children: &mut Vec<Children>,
    i: u32,
    upper: u32,
    lower: u32,
    j: u32,
) -> Result<(), AllocError>
    requires i { i < vec_len children.old }
    requires upper { upper < vec_len children.old }
    requires few { vec_len children.old + 1 < 2 ^ 32 }
    ensures { OnOk result (lists_of children.new.items ≡ branch_listed (lists_of children.old.items) i upper lower j) }
{
    let number = children.len() as u32;
    let branch = SmallVec::from_slice(*children.allocator(), &[lower, j])?;
    unlist(children, i, j);
    unlist(children, upper, lower);
    list(children, upper, number)?;
    children.push(branch)?;
    Ok(())
}

/// Takes a child out of its parent's list.
fn unlist(children: &mut Vec<Children>, parent: u32, child: u32)
    requires { parent < vec_len children.old }
    ensures { lists_of children.new.items ≡ unlisted (lists_of children.old.items) parent child }
{
    remove(&mut children[parent as usize], child);
}

/// Takes a number out of a list.
fn remove(list: &mut Children, child: u32)
    ensures { list.new.items ≡ without child list.old.items }
{
    list.retain(|c| *c != child);
}

/// Adds a child to its parent's list.
fn list(children: &mut Vec<Children>, parent: u32, child: u32) -> Result<(), AllocError>
    requires { parent < vec_len children.old }
    ensures { OnOk result (lists_of children.new.items ≡ listed (lists_of children.old.items) parent child) }
{
    children[parent as usize].push(child)?;
    Ok(())
}
