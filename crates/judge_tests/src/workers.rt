//! Workers that share the search for cycles.

ghost use Rattle.std.specs.Prelude.{◌≤◌};
ghost use Rattle.common.specs.declared.limits.TheConstants.{MAX_WORKERS};
ghost use Rattle.best.specs.Seats.{IsBestSeatOf, known_of};
ghost use Rattle.search.specs.SourceRow.{AreShared};

use crate::bound::jobs_with_bound;
use crate::recordings::{THREE_AND_FOUR, recording_of, relation_of};
use best::{Best, BestSeat};
use common::{EventId, Gate, MAX_EVENTS, OpenGate};
use judge::{Verdict, judge_gated};
use recording::{Event, Recording, RecordingSize};
use relations::Relation;
use report::{MemorySink, MemorySource, Outcome, answer};
use search::{SourceJob, least_length, run_jobs};
use std::alloc::Global;
use std::sync::Wait;
use std::sync::atomic::{AtomicBool, AtomicU64, Ordering};
use std::test::Fail;
use std::thread;
use std::thread::Threads;
use std::time::Instant;

/// What is noted of a piece that is done, beside its worker.
const DONE: u64 = 1 << 32;

/// Notes who begins and is done with each piece. It holds the worker that begins first until another is done with a
/// piece, and each one that begins or is done for the first time until as many have as are to be at work.
#[derive(Drop)]
struct Watch {
    /// Of each piece 0, then its worker's number plus 1, and `DONE` more once it is done.
    pieces: Vec<AtomicU64>,
    workers: usize,
    at_work: usize,
    started: AtomicU64,
    passed: AtomicBool,
    wrong: AtomicBool,
}

/// What is noted of a piece that a worker began.
fn note_of(worker: usize) -> u64 {
    (worker as u64).wrapping_add(1)
}

impl Watch {
    /// One of this many pieces and workers, of whom so many are to be at work.
    fn new(alloc: Global, pieces: usize, workers: usize, at_work: usize) -> Option<Watch> {
        let mut notes = Vec::new(alloc);
        for _ in 0..pieces {
            notes.push(AtomicU64::new(0)).ok()?;
        }
        Some(Watch {
            pieces: notes,
            workers,
            at_work,
            started: AtomicU64::new(0),
            passed: AtomicBool::new(false),
            wrong: AtomicBool::new(false),
        })
    }

    /// Whether a note is changed, where it is as it has to be.
    fn is_changed(&self, piece: usize, before: u64, after: u64) -> bool {
        match self.pieces.get(piece) {
            Some(note) => note
                .compare_exchange(before, after, Ordering::SeqCst, Ordering::SeqCst)
                .is_ok(),
            None => false,
        }
    }

    /// Changes the note of a worker's piece.
    fn change(&self, worker: usize, piece: usize, before: u64, after: u64) {
        if worker >= self.workers || !self.is_changed(piece, before, after) {
            self.wrong.store(true, Ordering::SeqCst);
        }
    }

    /// Whether a worker is done with a piece.
    fn has_worked(&self, worker: usize) -> bool {
        let done = DONE.wrapping_add(note_of(worker));
        self.pieces
            .iter()
            .any(|note| note.load(Ordering::SeqCst) == done)
    }

    /// Whether a worker has begun a piece.
    fn has_begun(&self, worker: usize) -> bool {
        let begun = note_of(worker);
        self.pieces
            .iter()
            .any(|note| note.load(Ordering::SeqCst) == begun)
            || self.has_worked(worker)
    }

    /// How many workers have begun a piece, or are done with one.
    fn count_workers(&self, are_done: bool) -> usize {
        let mut count = 0usize;
        for worker in 0..self.workers {
            if self.has_worked(worker) || !are_done && self.has_begun(worker) {
                count = count.wrapping_add(1);
            }
        }
        count
    }

    /// Waits for a while until this many workers have begun, or are done.
    fn wait_for(&self, count: usize, are_done: bool) -> bool {
        for _ in 0..10_000_000 {
            if self.wrong.load(Ordering::SeqCst) {
                break;
            }
            if self.count_workers(are_done) >= count {
                return true;
            }
            thread::yield_now();
        }
        self.wrong.store(true, Ordering::SeqCst);
        false
    }

    /// Whether each piece was begun once and then done once by its worker.
    fn is_done(&self) -> bool {
        let wrong = self.wrong.load(Ordering::SeqCst);
        !wrong
            && self
                .pieces
                .iter()
                .all(|note| note.load(Ordering::SeqCst) > DONE)
    }

    /// Whether each piece was made once, by as many workers as are to be at work, of whom the first that began was
    /// passed by another, where there is one.
    fn is_right(&self) -> bool {
        let passed = self.passed.load(Ordering::SeqCst);
        let at_work = self.count_workers(true);
        self.is_done() && at_work == self.at_work && passed == (at_work > 1)
    }
}

impl Gate for Watch {
    fn begin(&self, worker: usize, piece: usize) {
        let is_first = !self.has_begun(worker);
        self.change(worker, piece, 0, note_of(worker));
        let number = self.started.fetch_add(1, Ordering::SeqCst);
        if is_first && self.wait_for(self.at_work, false) && number == 0 && self.at_work > 1 {
            // This worker is not done.
            let passed = self.wait_for(1, true);
            self.passed.store(passed, Ordering::SeqCst);
        }
    }

    fn done(&self, worker: usize, piece: usize) {
        let note = note_of(worker);
        let is_first = !self.has_worked(worker);
        self.change(worker, piece, note, DONE.wrapping_add(note));
        if is_first {
            let _ = self.wait_for(self.at_work, true);
        }
    }
}

/// Whether workers leave the length of the shorter cycle in the seat, where it is the cap of the rows too.
fn leave<G: Gate>(
    rt: &(impl Threads + Wait + Sync),
    alloc: Global,
    jobs: Vec<SourceJob>,
    best: &Best,
    seat: &mut BestSeat,
    workers: usize,
    gate: &G,
) -> bool
    requires seat { IsBestSeatOf best.now seat.old }
    requires jobs { AreShared (known_of seat.old).relation jobs.items }
    requires workers { (1 ≤ workers) × (workers ≤ MAX_WORKERS) }
{
    let Ok(rows) = run_jobs(rt, alloc, jobs, best, seat, workers, gate) else {
        return false;
    };
    best.read(seat) == Some(3) && least_length(&rows) == Some(3)
}

/// Whether this many workers find the shorter of two cycles.
fn find_the_shorter<G: Gate>(
    rt: &(impl Threads + Wait + Sync),
    alloc: Global,
    workers: usize,
    gate: &G,
) -> bool
    requires { (1 ≤ workers) × (workers ≤ MAX_WORKERS) }
{
    let Some(relation) = relation_of(alloc, THREE_AND_FOUR) else {
        return false;
    };
    let Some((jobs, best, mut seat)) = jobs_with_bound(alloc, relation) else {
        return false;
    };
    leave(rt, alloc, jobs, &best, &mut seat, workers, gate)
}

#[test]
fn workers_leave_the_shortest_length(rt: HostRuntime) -> Result<(), Fail> {
    assert!(rt; find_the_shorter(&rt, rt.alloc(), 1, &OpenGate));
    assert!(rt; find_the_shorter(&rt, rt.alloc(), 2, &OpenGate));
    Ok(())
}

/// Whether this many workers judge that a recording has a cycle of these events.
fn is_judged<R: Threads + Wait + Sync>(
    rt: &R,
    alloc: Global,
    recording: &Recording,
    workers: usize,
    events: &[EventId],
    watch: &Watch,
) -> bool
    requires { (1 ≤ workers) × (workers ≤ MAX_WORKERS) }
{
    if recording.len() > MAX_EVENTS {
        return false;
    }
    match judge_gated(rt, alloc, recording, workers, watch) {
        Ok(Verdict::Cycle(certificate)) => certificate.cycle.as_slice() == events,
        _ => false,
    }
}

/// Whether two workers judge that the shorter of two cycles is the least.
fn is_judged_shorter<R: Threads + Wait + Sync>(rt: &R, alloc: Global, watch: &Watch) -> bool {
    match recording_of(alloc, THREE_AND_FOUR) {
        Some(recording) => is_judged(rt, alloc, &recording, 2, &[4, 5, 6], watch),
        None => false,
    }
}

/// Whether the answer of two workers begins with the shorter of two cycles.
fn is_answered_shorter<R: Threads + Wait + Sync>(rt: &R, alloc: Global, watch: &Watch) -> bool {
    let mut source = MemorySource::new(THREE_AND_FOUR.as_bytes());
    let mut sink = MemorySink::new(alloc);
    let answered = answer(rt, alloc, &mut source, &mut sink, 2, watch);
    let shorter = b"cycle of 3\n4 -> 5 Rf\n5 -> 6 Po\n6 -> 4 Fr\n";
    answered == Ok(Outcome::Violation) && sink.written_bytes().starts_with(shorter)
}

/// Whether two workers find, judge and answer so while the one that begins first is held.
fn is_passed<R: Threads + Wait + Sync>(rt: &R, alloc: Global) -> bool {
    let (Some(found), Some(judged), Some(answered)) = (
        Watch::new(alloc, 7, 2, 2),
        Watch::new(alloc, 7, 2, 2),
        Watch::new(alloc, 7, 2, 2),
    ) else {
        return false;
    };
    find_the_shorter(rt, alloc, 2, &found)
        && found.is_right()
        && is_judged_shorter(rt, alloc, &judged)
        && judged.is_right()
        && is_answered_shorter(rt, alloc, &answered)
        && answered.is_right()
}

#[test]
fn a_worker_waits_for_no_other(rt: HostRuntime) -> Result<(), Fail> {
    assert!(rt; is_passed(&rt, rt.alloc()));
    Ok(())
}

/// A core with this many stores to one address, whose write list is their reverse.
fn reversed_writes(alloc: Global, events: EventId) -> Option<Recording> {
    let mut list = Vec::new(alloc);
    for number in 0..events {
        list.push(events - 1 - number).ok()?;
    }
    let core = Vec::from_elem(alloc, Event::S { a: 0, w: 1 }, events as usize).ok()?;
    let cores = vec![in alloc; core].ok()?;
    let writes = vec![in alloc; list].ok()?;
    let init = vec![in alloc; 0].ok()?;
    Recording::from_parts(alloc, RecordingSize::Short, cores, writes, init)
        .ok()?
        .ok()
}

/// Whether each row of this many stores in reverse is made once, by this many of the workers.
fn is_made_once<R: Threads + Wait + Sync>(
    rt: &R,
    alloc: Global,
    events: EventId,
    workers: usize,
    at_work: usize,
) -> bool
    requires { (1 ≤ workers) × (workers ≤ MAX_WORKERS) }
{
    let (Some(recording), Some(watch)) = (
        reversed_writes(alloc, events),
        Watch::new(alloc, events as usize, workers, at_work),
    ) else {
        return false;
    };
    is_judged(rt, alloc, &recording, workers, &[0, 1], &watch) && watch.is_right()
}

// Of as many workers as may be asked for, few events occupy two, and the most events three.
#[test]
fn workers_make_each_row_once(rt: HostRuntime) -> Result<(), Fail> {
    assert!(rt; is_made_once(&rt, rt.alloc(), 40, 1, 1));
    assert!(rt; is_made_once(&rt, rt.alloc(), 40, 8, 2));
    assert!(rt; is_made_once(&rt, rt.alloc(), MAX_EVENTS as EventId, 2, 2));
    assert!(rt; is_made_once(&rt, rt.alloc(), MAX_EVENTS as EventId, 8, 3));
    Ok(())
}

/// How long a search of one worker takes from the beginning of each row to its end.
struct Lasting<'a> {
    rt: &'a HostRuntime,
    start: Instant,
    /// When the last row began, and how long all lasted, in nanoseconds.
    begun: AtomicU64,
    inside: AtomicU64,
}

impl Drop for Lasting<'_> {
    fn drop(self) {
        let Self {
            rt,
            start,
            begun,
            inside,
        } = self;
    }
}

impl Lasting<'_> {
    /// The nanoseconds since the start.
    fn now(&self) -> u64 {
        match self.start.elapsed(self.rt) {
            Ok(time) => time
                .as_secs()
                .saturating_mul(1_000_000_000)
                .saturating_add(time.subsec_nanos() as u64),
            Err(_) => 0,
        }
    }
}

impl Gate for Lasting<'_> {
    fn begin(&self, _worker: usize, _piece: usize) {
        self.begun.store(self.now(), Ordering::SeqCst);
    }

    fn done(&self, _worker: usize, _piece: usize) {
        let lasted = self.now().saturating_sub(self.begun.load(Ordering::SeqCst));
        self.inside.fetch_add(lasted, Ordering::SeqCst);
    }
}

/// The forced pairs of the most events, which have cycles.
fn most_pairs(alloc: Global) -> Option<Relation> {
    let recording = reversed_writes(alloc, MAX_EVENTS as EventId)?;
    if recording.len() > MAX_EVENTS {
        return None;
    }
    Relation::of(alloc, &recording).ok()
}

/// Searches by one worker, and says whether it came to its end.
fn is_searched<R: Threads + Wait + Sync, G: Gate>(
    threads: &R,
    alloc: Global,
    relation: Relation,
    gate: &G,
) -> Option<bool> {
    let (jobs, best, mut seat) = jobs_with_bound(alloc, relation)?;
    Some(run_jobs(threads, alloc, jobs, &best, &mut seat, 1, gate).is_ok())
}

/// Whether most of the time of a search by one worker passes between the beginning of a row and its end.
fn lasts_inside<R: Threads + Wait + Sync>(
    rt: &HostRuntime,
    threads: &R,
    alloc: Global,
) -> Option<bool> {
    let relation = most_pairs(alloc)?;
    let gate = Lasting {
        rt,
        start: Instant::now(rt).ok()?,
        begun: AtomicU64::new(0),
        inside: AtomicU64::new(0),
    };
    let is_searched = is_searched(threads, alloc, relation, &gate)?;
    Some(is_searched && gate.inside.load(Ordering::SeqCst) > gate.now() / 2)
}

/// Whether it does so in one run of many, since a thread may be kept from its processor.
fn may_last_inside<R: Threads + Wait + Sync>(rt: &HostRuntime, threads: &R, alloc: Global) -> bool {
    for _ in 0..10 {
        if lasts_inside(rt, threads, alloc) == Some(true) {
            return true;
        }
    }
    false
}

// A row that is made before its beginning, or again after its end, takes time of its own.
#[test]
fn rows_are_made_between_their_beginning_and_end(rt: HostRuntime) -> Result<(), Fail> {
    assert!(rt; may_last_inside(&rt, &rt, rt.alloc()));
    Ok(())
}
