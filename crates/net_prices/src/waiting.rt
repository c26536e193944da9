//! The cells that wait in a search, by their distance.
ghost use Rattle.std.specs.Prelude.{◌≡◌};

use crate::groups::{at, put};
use std::alloc::{AllocError, Global};
use std::mem::swap;

/// How many buckets there are.
const BUCKETS: u32 = 1_024;

/// Over how many distances a bucket goes, as a power of 2. Within a bucket cells come in any order, so that
/// some are looked at again; between them there is none to look for.
const WIDTH: u32 = 2;

/// What stands for no entry.
const NONE: u32 = u32::MAX;

/// A cell that waits.
#[derive(Clone, Copy, Debug)]
struct WaitingCell {
    distance: u32,
    cell: u32,
    /// The place of the entry before it in its bucket.
    before: u32,
}

/// Cells that wait, in buckets by their distance: those of the bucket at hand come first. Those too far for
/// the buckets wait apart until the buckets are empty.
#[derive(Debug, Drop)]
pub(crate) struct Waiting {
    /// By bucket: the place of its last entry.
    last: Vec<u32>,
    entries: Vec<WaitingCell>,
    far: Vec<WaitingCell>,
    /// Those that were far, while they are looked at again.
    were_far: Vec<WaitingCell>,
    /// The distance at which the first bucket begins.
    base: u32,
    bucket: u32,
    /// The first bucket behind those that have held something.
    end: u32,
}

impl Waiting {
    /// Nothing that waits. The only error is want of memory.
    pub(crate) fn new(alloc: Global) -> Result<Waiting, AllocError> {
        Ok(Waiting {
            last: vec![in alloc; NONE; BUCKETS as usize]?,
            entries: Vec::new(alloc),
            far: Vec::new(alloc),
            were_far: Vec::new(alloc),
            base: 0,
            bucket: 0,
            end: 0,
        })
    }

    /// Takes all out.
    pub(crate) fn clear(&mut self) {
        for bucket in self.bucket..self.end {
            put(&mut self.last, bucket, NONE);
        }
        self.entries.clear();
        self.far.clear();
        self.base = 0;
        self.bucket = 0;
        self.end = 0;
    }

    /// Puts a cell in. The only error is want of memory.
    pub(crate) fn push(&mut self, distance: u32, cell: u32) -> Result<(), AllocError> {
        let bucket = (distance.saturating_sub(self.base) >> WIDTH).max(self.bucket);
        let entry = WaitingCell {
            distance,
            cell,
            before: at(&self.last, bucket),
        };
        if bucket >= BUCKETS {
            self.far.push(entry)?;
            return Ok(());
        }
        let place = self.entries.len().min(NONE as usize) as u32;
        self.entries.push(entry)?;
        put(&mut self.last, bucket, place);
        self.end = self.end.max(bucket.saturating_add(1));
        Ok(())
    }

    /// Takes a cell of the bucket at hand out, with its distance.
    pub(crate) fn take(&mut self) -> Option<(u32, u32)> {
        let place = at(&self.last, self.bucket);
        let entry = *self.entries.get(place as usize)?;
        put(&mut self.last, self.bucket, entry.before);
        Some((entry.distance, entry.cell))
    }

    /// Goes to the next bucket that holds something. False where none does. The only error is want of
    /// memory.
    pub(crate) fn advance(&mut self) -> Result<bool, AllocError> {
        for bucket in self.bucket..self.end {
            if at(&self.last, bucket) != NONE {
                self.bucket = bucket;
                return Ok(true);
            }
        }
        self.bucket = self.end;
        self.bring_near()
    }

    /// Puts the cells that wait apart into buckets, as far as they are near enough now. False where there
    /// are none. The only error is want of memory.
    fn bring_near(&mut self) -> Result<bool, AllocError> {
        if self.far.is_empty() {
            return Ok(false);
        }
        self.base = least_distance(&self.far);
        self.bucket = 0;
        self.end = 0;
        self.were_far.clear();
        swap(&mut self.far, &mut self.were_far);
        for place in 0..self.were_far.len() {
            if let Some(entry) = self.were_far.get(place).copied() {
                self.push(entry.distance, entry.cell)?;
            }
        }
        Ok(true)
    }
}

/// The least distance of some entries.
fn least_distance(entries: &[WaitingCell]) -> u32 {
    let mut least = NONE;
    for entry in entries {
        least = least.min(entry.distance);
    }
    least
}
