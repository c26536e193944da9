//! The walls that are taken, so that no two of them share an edge.
ghost use Rattle.std.specs.Prelude.{◌≡◌, ◌==◌, ℕ, ◌<◌, ◌++◌, ◌∷◌, ◌||◌, [], false};
ghost use Rattle.std.specs.Prelude.{All, fold, length, slice_index_or, IfOk, OnOk};
ghost use Rattle.std.specs.List.{list_any};
ghost use Rattle.cut_bounds.specs.Places.{places_of, IsWallOf};
ghost use Rattle.cut_bounds.specs.Taken.{take_apart as taken_apart, AreMarks};

use crate::places::gather_places;
use crate::wall::MeasuredWall;
use gr_base::Shape;
use std::alloc::{AllocError, Global};

/// Walls of which no two share an edge, with marks at the places of their wires.
#[derive(Drop)]
struct Taken {
    walls: Vec<MeasuredWall>,
    marks: Vec<bool>,
    /// Room for the places of a wall's wires.
    places: Vec<u32>,
}

/// Those of some walls that share no edge with one that is taken before. The only error is want of memory.
pub(crate) fn take_walls(
    alloc: Global,
    shape: Shape,
    walls: &[MeasuredWall],
) -> Result<Vec<MeasuredWall>, AllocError>
    requires { All (λ m. IsWallOf shape m.wall) walls.now }
    ensures { IfOk result (λ taken. taken.items ≡ fold (taken_apart shape) [] walls.now) }
{
    let mut taken = Taken::none(alloc, shape)?;
    for wall in walls {
        taken.take_apart(shape, *wall)?;
    }
    Ok(taken.walls)
}

impl Taken {
    /// No walls. The only error is want of memory.
    fn none(alloc: Global, shape: Shape) -> Result<Taken, AllocError>
        ensures walls { IfOk result (λ taken. taken.walls.items ≡ []) }
        ensures marks { IfOk result (λ taken. AreMarks shape taken.walls.items taken.marks.items) }
    {
        let tiles = shape.columns() as usize * shape.rows() as usize;
        Ok(Taken {
            walls: Vec::new(alloc),
            marks: vec![in alloc; false; 2 * tiles]?,
            places: Vec::new(alloc),
        })
    }

    /// Takes a wall, if it shares no edge with those that are taken.
    fn take_apart(&mut self, shape: Shape, wall: MeasuredWall) -> Result<(), AllocError>
        requires wall { IsWallOf shape wall.wall }
        requires marks { AreMarks shape self.old.walls.items self.old.marks.items }
        ensures walls { OnOk result (self.new.walls.items ≡ taken_apart shape self.old.walls.items wall) }
        ensures marks { OnOk result (AreMarks shape self.new.walls.items self.new.marks.items) }
    {
        gather_places(&mut self.places, shape, wall.wall)?;
        if any_marked(&self.marks, &self.places) {
            return Ok(());
        }
        self.add(shape, wall)?;
        Ok(())
    }

    /// Takes a wall of whose wires the places are gathered.
    fn add(&mut self, shape: Shape, wall: MeasuredWall) -> Result<(), AllocError>
        requires wall { IsWallOf shape wall.wall }
        requires places { self.old.places.items ≡ places_of shape wall.wall }
        requires marks { AreMarks shape self.old.walls.items self.old.marks.items }
        ensures walls { OnOk result (self.new.walls.items ≡ self.old.walls.items ++ wall ∷ []) }
        ensures marks { OnOk result (AreMarks shape self.new.walls.items self.new.marks.items) }
    {
        mark_places(&mut self.marks, &self.places);
        self.walls.push(wall)?;
        Ok(())
    }
}

/// Whether one of the places has a mark.
fn any_marked(marks: &[bool], places: &[u32]) -> bool
    requires { All (λ place. place < length marks.now) places.now }
    ensures { result ≡ list_any (λ place. slice_index_or marks.now place false) places.now }
{
    for place in places {
        if marks[*place as usize] {
            return true;
        }
    }
    false
}

/// Marks each of the places.
fn mark_places(marks: &mut Vec<bool>, places: &[u32])
    requires { All (λ place. place < length marks.old.items) places.now }
    ensures long { length marks.new.items ≡ length marks.old.items }
    ensures each { (n : ℕ) → slice_index_or marks.new.items n false ≡
        (list_any (λ place. place == n) places.now || slice_index_or marks.old.items n false) }
{
    for place in places {
        marks[*place as usize] = true;
    }
}
