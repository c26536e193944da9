//! The coordinator, who ends the rounds.
ghost use Rattle.std.specs.Prelude.{◌≡◌, ◌<◌, ◌++◌, length, map, IfOk};
ghost use Rattle.ripup_workers.specs.Meetings.{Learns, HaveMet, HaveMetBehind};
ghost use Rattle.ripup_workers.specs.Marking.{IsMarked, AreMarked};

use crate::team::{Coordinator, Marked};
use crate::worker::Worker;
use book_state::Reply;
use std::alloc::AllocError;
use std::sync::Wait;
use std::thread::Threads;
use track_book::{BookName, TrackBook};

/// When the coordinator meets the workers at the end of a round.
#[derive(Clone, Copy, Debug, PartialEq, Eq)]
enum Meeting {
    BeforeMark,
    AfterMark,
}

impl<N: BookName> Coordinator<N> {
    /// Ends a round: once what all workers did is seen, it is marked, and the workers see the mark. The
    /// victims are looked for by at most so many threads.
    pub(crate) fn end_round<R: Threads + Wait + Sync>(
        &mut self,
        rt: &R,
        book: &TrackBook<N>,
        workers: &mut Vec<Worker<N>>,
        threads: u32,
    ) -> Result<Marked, AllocError>
        requires workers { 0 < length workers.old.items }
        requires threads { 0 < threads }
        ensures { IfOk result (λ marked. AreMarked N.capacity self.old.pass self.new.pass
            (map (λ w. w.pass) workers.old.items) (map (λ w. w.pass) workers.new.items) marked) }
    {
        self.meet_all(rt, book, workers, Meeting::BeforeMark);
        let marked = self.mark(rt, book, threads)?;
        self.meet_all(rt, book, workers, Meeting::AfterMark);
        Ok(marked)
    }

    /// Meets the first worker and then all of them, so that each comes to know what the first had added.
    pub(crate) fn meet_behind_first<R: Wait>(
        &mut self,
        rt: &R,
        book: &TrackBook<N>,
        workers: &mut Vec<Worker<N>>,
    )
        requires { 0 < length workers.old.items }
        ensures { HaveMetBehind N.capacity self.old.pass self.new.pass (map (λ w. w.pass) workers.old.items)
            (map (λ w. w.pass) workers.new.items) }
    {
        self.meet(rt, book, &mut workers[0], Meeting::BeforeMark);
        self.meet_all(rt, book, workers, Meeting::BeforeMark);
    }

    /// Meets each worker.
    fn meet_all<R: Wait>(
        &mut self,
        rt: &R,
        book: &TrackBook<N>,
        workers: &mut Vec<Worker<N>>,
        meeting: Meeting,
    )
        requires { 0 < length workers.old.items }
        ensures { HaveMet N.capacity self.old.pass self.new.pass (map (λ w. w.pass) workers.old.items)
            (map (λ w. w.pass) workers.new.items) }
    {
        for at in 0..workers.len() {
            self.meet(rt, book, &mut workers[at], meeting);
        }
    }

    /// Meets a worker: both come to have seen the same. A mark is then read by the worker's replica too.
    fn meet<R: Wait>(
        &mut self,
        rt: &R,
        book: &TrackBook<N>,
        worker: &mut Worker<N>,
        meeting: Meeting,
    )
        ensures own { Learns N.capacity self.old.pass self.new.pass }
        ensures other { Learns N.capacity worker.old.pass worker.new.pass }
        ensures same { self.new.pass.seen ≡ worker.new.pass.seen }
    {
        let one = &mut self.pass;
        let other = &mut worker.pass;
        match meeting {
            Meeting::BeforeMark => book.meet(rt, one, other),
            Meeting::AfterMark => book.meet_and_bring_up(rt, one, other, &mut worker.replica),
        }
    }

    /// Marks the edges over their capacity, and finds the nets on such edges.
    fn mark<R: Threads + Wait + Sync>(
        &mut self,
        rt: &R,
        book: &TrackBook<N>,
        threads: u32,
    ) -> Result<Marked, AllocError>
        requires { 0 < threads }
        ensures { IfOk result (IsMarked N.capacity self.old.pass self.new.pass) }
    {
        book.find_overfull(rt, threads)?;
        let Reply::Marked { overflow } = book.mark(rt, &mut self.pass)? else {
            unreachable!()
        };
        let victims = book.victims(rt, &mut self.pass, threads)?;
        Ok(Marked { overflow, victims })
    }
}
