//! A topology as callers see it: points that were shown to be a tree, to be read but not changed.
ghost use Rattle.std.specs.Prelude.{◌≡◌, ◌<◌, ◌^◌, List, vec_len, length};
ghost use Rattle.steiner_topology.specs.declared.point.Point.{Point};
ghost use Rattle.steiner_topology.specs.Spanning.{IsTopology};

use crate::point::{Point, Tile};
use std::marker::Model;

/// How a net's tiles hang together: a tree whose first points are the tiles in their order, point 0
/// its root, and whose further points are those where branches meet.
#[derive(Debug, Drop)]
pub struct Topology {
    points: Vec<Point>,
}

impl Model for Topology {
    ghost Value = { List Point };

    ghost view = { λ t. t.points.items };

    ghost invariant = { λ t. (vec_len t.points < 2 ^ 32) × IsTopology t.points.items };
}

impl Topology {
    ghost use Rattle.steiner_topology.specs.Topology.{place_of, parent_of};

    pub(crate) fn from_points(points: Vec<Point>) -> Self
        requires few { vec_len points < 2 ^ 32 }
        requires tree { IsTopology points.items }
        ensures { result ≡ points.items }
    {
        Topology { points }
    }

    /// The list that the points stand in.
    pub(crate) fn into_points(self) -> Vec<Point> {
        self.points
    }

    /// How many points there are: the tiles, and the points where branches meet.
    pub fn len(&self) -> u32
        ensures len { result ≡ length self.now }
        ensures tree { IsTopology self.now }
    {
        self.points.len() as u32
    }

    /// The tile of a point below `len`.
    pub fn tile(&self, point: u32) -> Tile
        requires { point < length self.now }
        ensures { result ≡ place_of self.now point }
    {
        self.points[point as usize].tile
    }

    /// The parent of a point below `len`. Point 0 is its own parent.
    pub fn parent(&self, point: u32) -> u32
        requires { point < length self.now }
        ensures parent { result ≡ parent_of self.now point }
        ensures inside { result < length self.now }
    {
        self.points[point as usize].parent
    }
}
