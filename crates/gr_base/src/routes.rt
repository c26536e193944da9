//! The routes of a design.
ghost use Rattle.std.specs.Prelude.{◌≡◌, ℕ, ◌<◌, length, Some, None, IfOk, replicate, slice_set};
ghost use Rattle.std.specs.Option.{option_copied};
ghost use Rattle.gr_base.specs.Trees.{tree_at};

use crate::tree::RouteTree;
use std::alloc::{AllocError, Global};
use std::marker::Model;

/// At most one tree for each net of a design. Nets count from 0.
#[derive(Debug, Drop)]
pub struct Routes {
    trees: Vec<Option<RouteTree>>,
}

impl Model for Routes {
    ghost use Rattle.std.specs.Prelude.{List, Option};
    ghost use Rattle.gr_base.specs.Trees.{TreeView};

    ghost Value = { List (Option TreeView) };

    ghost view = { λ r. r.trees.items };
}

impl Routes {
    /// Routes of this many nets, none of which has a tree. The only error is want of memory.
    pub fn new(alloc: Global, nets: u32) -> Result<Routes, AllocError>
        ensures { IfOk result (λ routes. routes ≡ replicate nets None) }
    {
        let mut trees = Vec::with_capacity(alloc, nets as usize)?;
        for _ in 0..nets {
            trees.push(None)?;
        }
        Ok(Routes { trees })
    }

    /// Sets a net's tree. A tree that was set for it before is dropped.
    pub fn set(&mut self, net: u32, tree: RouteTree)
        requires { net < length self.old }
        ensures { self.new ≡ slice_set self.old net (Some tree) }
    {
        self.trees[net as usize] = Some(tree);
    }

    /// A net's tree. None exactly where none was set.
    pub fn get(&self, net: u32) -> Option<&RouteTree>
        ensures { option_copied result ≡ tree_at self.now net }
    {
        self.trees.get(net as usize)?.as_ref()
    }
}
