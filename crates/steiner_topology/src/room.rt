//! The memory that topologies are made with, kept from net to net; what it holds has no bearing on them.
use crate::children::Children;
use crate::point::{Join, Point, Waiting};
use crate::tree::Topology;
use std::alloc::Global;

/// What topologies are made with, kept from net to net. What it holds between two calls means
/// nothing.
#[derive(Debug, Drop)]
pub struct TopologyRoom {
    pub(crate) waiting: Vec<Waiting>,
    pub(crate) joins: Vec<Join>,
    pub(crate) children: Vec<Children>,
    pub(crate) points: Vec<Point>,
}

impl TopologyRoom {
    /// Room that takes no memory yet.
    pub fn new(alloc: Global) -> TopologyRoom {
        TopologyRoom {
            waiting: Vec::new(alloc),
            joins: Vec::new(alloc),
            children: Vec::new(alloc),
            points: Vec::new(alloc),
        }
    }

    /// Takes the memory of a topology that is no longer wanted.
    pub fn give_back(&mut self, topology: Topology) {
        self.points = topology.into_points();
    }
}
