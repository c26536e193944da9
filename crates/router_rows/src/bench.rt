//! The texts and devices that commands are run over.
use crate::devices::Devices;
use cost_rules::Rules;
use gr_io::{MemoryShelf, MemorySink};
use ripup_workers::Gate;
use router_top::{Ended, run};
use run_histories::HandLog;
use std::alloc::{AllocError, Global};
use std::sync::Wait;
use std::thread::Threads;
use track_book::ClosedBook;

/// A text under a name.
#[derive(Debug, Drop)]
pub(crate) struct Held {
    pub name: String,
    pub bytes: Vec<u8>,
}

/// The texts that are held, the one that is written, and the devices.
#[derive(Debug, Drop)]
pub(crate) struct Bench {
    pub texts: Vec<Held>,
    pub devices: Devices,
}

/// How a run ended, with the book of its rounds, and whose its entries are.
#[derive(Drop)]
pub(crate) struct End {
    pub status: u8,
    pub book: Option<ClosedBook>,
    pub hands: Vec<HandLog>,
}

/// What a run left.
#[derive(Drop)]
pub(crate) struct Left {
    pub ended: End,
    pub out: MemorySink,
    pub err: MemorySink,
}

impl Bench {
    pub(crate) fn new(alloc: Global) -> Bench {
        Bench {
            texts: Vec::new(alloc),
            devices: Devices::ample(),
        }
    }

    /// Begins a text, in place of an earlier one of that name. It is the last one from then on.
    pub(crate) fn begin(&mut self, alloc: Global, name: &str) -> Result<(), AllocError> {
        self.texts.retain(|held| held.name.as_str() != name);
        self.texts.push(Held {
            name: String::from_str(alloc, name)?,
            bytes: Vec::new(alloc),
        })?;
        Ok(())
    }

    /// Adds a part to the text that was begun last.
    pub(crate) fn add(&mut self, part: &str) -> Result<(), AllocError> {
        match self.texts.last_mut() {
            Some(held) => held.bytes.extend_from_slice(part.as_bytes()),
            None => Ok(()),
        }
    }

    /// Adds a line with this end to the text that was begun last.
    pub(crate) fn add_line(&mut self, line: &str, end: &str) -> Result<(), AllocError> {
        self.add(line)?;
        self.add(end)
    }

    /// How many bytes the text of a name has, or 0.
    pub(crate) fn size_of(&self, name: &str) -> usize {
        match self.texts.iter().find(|held| held.name.as_str() == name) {
            Some(held) => held.bytes.len(),
            None => 0,
        }
    }

    /// Runs these words over the texts, of which one may be cut to its first bytes.
    pub(crate) fn run<R: AllocGlobal + Threads + Wait + Sync, G: Gate + Sync>(
        &self,
        rt: &R,
        gate: &G,
        rules: &Rules,
        devices: Devices,
        cut: Option<(&str, usize)>,
        words: &[String],
    ) -> Result<Left, AllocError> {
        let alloc = rt.alloc();
        let mut shelf = self.shelf(alloc, devices, cut)?;
        let mut out = sink_of(alloc, devices, devices.out)?;
        let mut err = sink_of(alloc, devices, devices.err)?;
        let ended = end_of(rt, words, &mut shelf, &mut out, &mut err, gate, rules);
        Ok(Left { ended, out, err })
    }

    fn shelf(
        &self,
        alloc: Global,
        devices: Devices,
        cut: Option<(&str, usize)>,
    ) -> Result<MemoryShelf, AllocError> {
        let mut shelf = MemoryShelf::new(alloc, vec![in alloc; devices.shelf]?);
        for held in &self.texts {
            let name = held.name.as_str();
            let bytes = match cut {
                Some((cut_name, size)) if cut_name == name => first_bytes(&held.bytes, size),
                _ => &held.bytes,
            };
            if !shelf.holds(name) {
                shelf.hold(alloc, name, bytes)?;
            }
        }
        shelf.piece(devices.read.max(1));
        Ok(shelf)
    }
}

/// A sink of which this call fails.
fn sink_of(alloc: Global, devices: Devices, call: u64) -> Result<MemorySink, AllocError> {
    let fails = vec![in alloc; call]?;
    MemorySink::new(alloc, devices.room, devices.write.max(1), fails)
}

/// How the command ends. What is proved of it is not needed here.
fn end_of<R: AllocGlobal + Threads + Wait + Sync, G: Gate + Sync>(
    rt: &R,
    words: &[String],
    shelf: &mut MemoryShelf,
    out: &mut MemorySink,
    err: &mut MemorySink,
    gate: &G,
    rules: &Rules,
) -> End {
    let Ended {
        status,
        book,
        hands,
        ..
    } = run(rt, rt.alloc(), words, shelf, out, err, gate, rules);
    End {
        status,
        book,
        hands,
    }
}

/// The first bytes of a text, at most so many.
fn first_bytes(bytes: &[u8], size: usize) -> &[u8] {
    &bytes[..size.min(bytes.len())]
}
