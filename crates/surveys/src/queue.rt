//! A queue, on which batches of a block wait for workers, and from which they are collected in order.

ghost use Rattle.std.specs.Prelude.{◌≤◌, ◌<◌, length};

use crate::batch::{Batch, Extent};
use crate::lines::split_line;
use common::OutOfMemory;
use std::alloc::Global;
use std::mem::replace;
use std::sync::atomic::{AtomicUsize, Ordering};
use std::sync::{Condvar, Mutex, Wait};
use std::thread;

/// How many batches lie on a queue at most.
const SLOTS: usize = 512;

/// How many bytes a batch has at least, but for the last one of a block.
const BATCH: usize = 16_384;

/// How often a thread looks for what it needs after a change before it sleeps, where nothing lies here: some 150
/// microseconds in all, since to wake it may take longer than to judge a batch of short recordings.
const LOOKS: usize = 512;

/// How often it does while something lies here, so that more is to come soon: some 5 milliseconds in all, since where
/// processors are shared with other machines, to wake it may take as long.
const LOOKS_AT_WORK: usize = 16_384;

/// What is done where a worker has the oldest batch while half of the batches here are judged, as where the worker's
/// processor is at work for another machine.
#[derive(Clone, Copy, Drop, PartialEq, Eq)]
pub(crate) enum WhenLate {
    /// Its lines are offered again, to workers that have nothing to do.
    OfferAgain,
    /// It is waited for.
    Wait,
}

/// What lies at a slot.
#[derive(Drop)]
enum Slot {
    /// Nothing.
    Free,
    /// A batch that no worker has taken.
    Waiting(Batch),
    /// Nothing, since a worker has taken the batch, which has this extent.
    Taken(Extent),
    /// A batch that a worker has taken, and no other one again.
    WaitingAgain(Batch),
    /// Nothing, since all that was offered of the batch is taken.
    TakenAgain,
    /// A batch that a worker has put back.
    Judged(Batch),
}

impl Slot {
    /// Whether it has a batch that no worker has taken.
    fn is_waiting(&self) -> bool {
        matches!(self, Slot::Waiting(_))
    }

    /// Puts a batch here; false where the slot is not free.
    fn put(&mut self, batch: Batch) -> bool {
        if !matches!(self, Slot::Free) {
            return false;
        }
        *self = Slot::Waiting(batch);
        true
    }

    /// Takes a batch that waits.
    fn take(&mut self) -> Option<Batch> {
        match replace(self, Slot::Free) {
            Slot::Waiting(batch) => {
                *self = Slot::Taken(batch.extent());
                Some(batch)
            }
            other => {
                *self = other;
                None
            }
        }
    }

    /// Takes a batch that waits again.
    fn take_again(&mut self) -> Option<Batch> {
        match replace(self, Slot::TakenAgain) {
            Slot::WaitingAgain(batch) => Some(batch),
            other => {
                *self = other;
                None
            }
        }
    }

    /// Puts a judged batch here; false where it was put here before.
    fn put_back(&mut self, batch: Batch) -> bool {
        if matches!(self, Slot::Judged(_)) {
            return false;
        }
        *self = Slot::Judged(batch);
        true
    }

    /// Takes a judged batch away.
    fn collect(&mut self) -> Option<Batch> {
        match replace(self, Slot::Free) {
            Slot::Judged(batch) => Some(batch),
            other => {
                *self = other;
                None
            }
        }
    }
}

/// The slots of a queue, which are used in turn: a batch lies at the slot of its number, modulo how many there are.
#[derive(Drop)]
struct Slots {
    slots: Vec<Slot>,
    /// How many batches were put: the number of the next one.
    next_put: usize,
    /// The number of the batch that is taken next.
    next_taken: usize,
    /// The number of the oldest batch that was not collected.
    oldest: usize,
    /// How many of those that lie here are judged.
    judged: usize,
    /// How many bytes the batches have that were put and not collected.
    bytes: usize,
    /// How many recordings were put.
    recordings: usize,
    /// How many of these were collected.
    collected: usize,
    /// How many recordings may lie here.
    room: usize,
    when_late: WhenLate,
    is_closed: bool,
}

impl Slots {
    /// What lies at the slot of a batch.
    fn at(&self, batch: usize) -> Option<&Slot> {
        self.slots.get(batch % SLOTS)
    }

    /// The slot of a batch.
    fn at_mut(&mut self, batch: usize) -> Option<&mut Slot> {
        self.slots.get_mut(batch % SLOTS)
    }

    /// Whether a batch waits for a worker that no worker has taken.
    fn has_waiting(&self) -> bool {
        match self.at(self.next_taken) {
            Some(slot) => slot.is_waiting(),
            None => false,
        }
    }

    /// Whether a batch waits for a worker, for the first time or again.
    fn has_work(&self) -> bool {
        self.has_waiting() || matches!(self.at(self.oldest), Some(Slot::WaitingAgain(_)))
    }

    /// The extent of the oldest batch, if a worker has it, half of those that lie here are judged, and it is to be
    /// offered again.
    fn late(&self) -> Option<Extent> {
        let all = self.next_put.wrapping_sub(self.oldest);
        match self.at(self.oldest) {
            Some(Slot::Taken(extent))
                if self.when_late == WhenLate::OfferAgain
                    && self.judged >= all.wrapping_sub(self.judged) => { Some(*extent) }
            _ => None,
        }
    }

    /// Whether workers have the oldest batch, and none has put it back.
    fn is_oldest_taken(&self) -> bool {
        matches!(
            self.at(self.oldest),
            Some(Slot::Taken(_) | Slot::WaitingAgain(_) | Slot::TakenAgain)
        )
    }

    /// Whether more than this many bytes lie here, workers have the oldest batch, it is not to be offered again, and no
    /// other one waits.
    fn is_behind(&self, kept: usize) -> bool {
        self.bytes > kept && !self.has_waiting() && self.is_oldest_taken() && self.late().is_none()
    }

    /// How many bytes lie here, and for how many recordings there is room.
    fn totals_held(&self) -> (usize, usize) {
        let waiting = self.recordings.wrapping_sub(self.collected);
        (self.bytes, self.room.saturating_sub(waiting))
    }

    /// Puts a batch with this many recordings; false where all slots are used.
    fn put(&mut self, bytes: Vec<u8>, recordings: usize) -> bool {
        let length = bytes.len();
        let batch = Batch::new(bytes, Some(self.recordings), recordings);
        let is_put = match self.at_mut(self.next_put) {
            Some(slot) => slot.put(batch),
            None => false,
        };
        if is_put {
            self.next_put = self.next_put.wrapping_add(1);
            self.bytes = self.bytes.wrapping_add(length);
            self.recordings = self.recordings.wrapping_add(recordings);
        }
        is_put
    }

    /// Takes the next batch that waits, with its number; none after the end.
    fn take(&mut self) -> Option<(usize, Batch)> {
        if self.is_closed {
            return None;
        }
        let number = self.next_taken;
        let batch = self.at_mut(number)?.take()?;
        self.next_taken = number.wrapping_add(1);
        Some((number, batch))
    }

    /// Takes the next batch that waits, for the first time or again, with its number; none after the end.
    fn take_any(&mut self) -> Option<(usize, Batch)> {
        if let Some(found) = self.take() {
            return Some(found);
        }
        if self.is_closed {
            return None;
        }
        let number = self.oldest;
        let batch = self.at_mut(number)?.take_again()?;
        Some((number, batch))
    }

    /// Offers the lines of the oldest batch again, if it is late; where there are none, for lack of memory, it is
    /// waited for.
    fn offer_again(&mut self, lines: Option<Batch>) {
        if self.late().is_none() {
            return;
        }
        if let Some(slot) = self.at_mut(self.oldest) {
            *slot = match lines {
                Some(batch) => Slot::WaitingAgain(batch),
                None => Slot::TakenAgain,
            };
        }
    }

    /// Puts a judged batch with this number back to where it lay, unless it was put back before.
    fn put_back(&mut self, number: usize, batch: Batch) {
        if number.wrapping_sub(self.oldest) >= SLOTS {
            return;
        }
        let is_put = match self.at_mut(number) {
            Some(slot) => slot.put_back(batch),
            None => false,
        };
        if is_put {
            self.judged = self.judged.wrapping_add(1);
        }
    }

    /// How often a thread that found no batch looks again before it sleeps.
    fn looks(&self) -> usize {
        if self.is_closed {
            return 0;
        }
        if self.bytes == 0 {
            LOOKS
        } else {
            LOOKS_AT_WORK
        }
    }

    /// How many bytes the oldest batch has, if it is judged.
    fn judged_length(&self) -> Option<usize> {
        match self.at(self.oldest) {
            Some(Slot::Judged(batch)) => Some(batch.bytes().len()),
            _ => None,
        }
    }

    /// Takes the oldest batch away if it is judged.
    fn collect(&mut self) -> Option<Batch> {
        let batch = self.at_mut(self.oldest)?.collect()?;
        self.oldest = self.oldest.wrapping_add(1);
        self.judged = self.judged.wrapping_sub(1);
        self.bytes = self.bytes.wrapping_sub(batch.bytes().len());
        self.collected = self.collected.wrapping_add(batch.recordings());
        Some(batch)
    }

    /// What the thread that collects does next, which leaves at most this many bytes here.
    fn turn(&mut self, kept: usize) -> Turn {
        if self.bytes <= kept {
            return Turn::Over;
        }
        if let Some(batch) = self.collect() {
            return Turn::Collected(batch);
        }
        if let Some((number, batch)) = self.take() {
            return Turn::Judge(number, batch);
        }
        match self.late() {
            Some(extent) => Turn::OfferAgain(extent),
            None => Turn::Over,
        }
    }
}

/// What the thread that collects does next.
#[derive(Drop)]
pub(crate) enum Turn {
    /// Nothing more.
    Over,
    /// It has the oldest batch.
    Collected(Batch),
    /// It judges the batch with this number.
    Judge(usize, Batch),
    /// It offers the lines of the oldest batch again, which have this extent.
    OfferAgain(Extent),
}

/// The extent of the first lines that make a batch of at most this many recordings: those of them that are not empty.
fn first_lines(bytes: &[u8], most: usize) -> Extent
    requires { 0 < length bytes.now }
    ensures some { 0 < result.bytes }
    ensures within { result.bytes ≤ length bytes.now }
{
    let (line, mut rest) = split_line(bytes);
    let mut recordings = usize::from(!line.is_empty());
    'lines: while !rest.is_empty() && bytes.len() - rest.len() < BATCH && recordings < most {
        let (line, more) = split_line(rest);
        recordings = recordings.wrapping_add(usize::from(!line.is_empty()));
        rest = more;
    }
    Extent {
        bytes: bytes.len() - rest.len(),
        recordings,
    }
}

/// A queue. One thread puts batches and collects them. No clause says who judges a batch, or that it comes back as it
/// was: what is collected is compared.
#[derive(Drop)]
pub(crate) struct WorkQueue {
    slots: Mutex<Slots>,
    was_put: Condvar,
    was_judged: Condvar,
    /// How often a batch was put, offered again or put back, the last one was collected, or the queue was closed.
    changes: AtomicUsize,
}

impl WorkQueue {
    /// A queue with room for this many recordings and all its slots free, after which it needs no memory. Fails only if
    /// out of memory.
    pub(crate) fn new(
        alloc: Global,
        room: usize,
        when_late: WhenLate,
    ) -> Result<WorkQueue, OutOfMemory> {
        let mut slots = Vec::with_capacity(alloc, SLOTS)?;
        for _ in 0..SLOTS {
            slots.push(Slot::Free)?;
        }
        Ok(WorkQueue {
            slots: Mutex::new(Slots {
                slots,
                next_put: 0,
                next_taken: 0,
                oldest: 0,
                judged: 0,
                bytes: 0,
                recordings: 0,
                collected: 0,
                room,
                when_late,
                is_closed: false,
            }),
            was_put: Condvar::new(),
            was_judged: Condvar::new(),
            changes: AtomicUsize::new(0),
        })
    }

    /// Puts a batch with this many recordings; false where all slots are used or memory runs out.
    fn put<R: Wait>(&self, rt: &R, alloc: Global, bytes: &[u8], recordings: usize) -> bool {
        let Ok(copy) = Vec::from_slice(alloc, bytes) else {
            return false;
        };
        let is_put = self.slots.lock(rt).put(copy, recordings);
        self.changes.fetch_add(1, Ordering::SeqCst);
        self.was_put.notify_one();
        is_put
    }

    /// Puts these lines, of which those that lie here are the first, in batches of at most this many recordings; false
    /// where there is no more room or memory runs out before.
    pub(crate) fn offer<R: Wait>(&self, rt: &R, alloc: Global, lines: &[u8], most: usize) -> bool {
        let (from, mut room) = self.slots.lock(rt).totals_held();
        let mut rest = &lines[from.min(lines.len())..];
        'batches: while !rest.is_empty() {
            let Extent { bytes, recordings } = first_lines(rest, most);
            if recordings > room || !self.put(rt, alloc, &rest[..bytes], recordings) {
                return false;
            }
            room = room.saturating_sub(recordings);
            rest = &rest[bytes..];
        }
        true
    }

    /// How many bytes the oldest batch has, if it is judged.
    pub(crate) fn judged_length<R: Wait>(&self, rt: &R) -> Option<usize> {
        self.slots.lock(rt).judged_length()
    }

    /// Takes the oldest batch away if it is judged.
    pub(crate) fn collect<R: Wait>(&self, rt: &R) -> Option<Batch> {
        let mut held = self.slots.lock(rt);
        let batch = held.collect();
        self.tell_if_empty(&held);
        batch
    }

    /// Offers the lines of the oldest batch again, if it is late; where there are none, for lack of memory, it is
    /// waited for.
    pub(crate) fn offer_again<R: Wait>(&self, rt: &R, lines: Option<Batch>) {
        self.slots.lock(rt).offer_again(lines);
        self.changes.fetch_add(1, Ordering::SeqCst);
        self.was_put.notify_one();
    }

    /// Has threads that look see that nothing lies here, if nothing does.
    fn tell_if_empty(&self, slots: &Slots) {
        if slots.bytes == 0 {
            self.changes.fetch_add(1, Ordering::SeqCst);
        }
    }

    /// Puts a judged batch with this number back to where it lay, unless it was put back before.
    pub(crate) fn put_back<R: Wait>(&self, rt: &R, number: usize, batch: Batch) {
        self.slots.lock(rt).put_back(number, batch);
        self.changes.fetch_add(1, Ordering::SeqCst);
        self.was_judged.notify_one();
    }

    /// The next batch, if one waits by the time that all looks are over. Their count begins anew with each change.
    fn take_soon<R: Wait>(&self, rt: &R) -> Option<(usize, Batch)> {
        let mut seen = usize::MAX;
        let mut left = LOOKS;
        for _ in 0..LOOKS_AT_WORK + LOOKS {
            let changes = self.changes.load(Ordering::SeqCst);
            if changes != seen {
                seen = changes;
                let mut held = self.slots.lock(rt);
                if let Some(found) = held.take_any() {
                    return Some(found);
                }
                left = held.looks();
            }
            if left == 0 {
                return None;
            }
            left -= 1;
            thread::yield_now();
        }
        None
    }

    /// The next batch that waits, with its number; none where the queue is closed.
    pub(crate) fn take<R: Wait>(&self, rt: &R) -> Option<(usize, Batch)> {
        if let Some(found) = self.take_soon(rt) {
            return Some(found);
        }
        let held = self.slots.lock(rt);
        let mut held = self.was_put.wait_while(rt, held, |slots| {
            !slots.is_closed && !slots.has_work()
        });
        held.take_any()
    }

    /// What the thread that collects does next, if it need not wait by the time that all looks are over.
    fn turn_soon<R: Wait>(&self, rt: &R, kept: usize) -> Option<Turn> {
        let mut seen = usize::MAX;
        for _ in 0..LOOKS_AT_WORK {
            let changes = self.changes.load(Ordering::SeqCst);
            if changes != seen {
                seen = changes;
                let mut held = self.slots.lock(rt);
                if !held.is_behind(kept) {
                    let turn = held.turn(kept);
                    self.tell_if_empty(&held);
                    return Some(turn);
                }
            }
            thread::yield_now();
        }
        None
    }

    /// What the thread that collects does next. It waits only for a batch that workers have.
    pub(crate) fn turn<R: Wait>(&self, rt: &R, kept: usize) -> Turn {
        if let Some(turn) = self.turn_soon(rt, kept) {
            return turn;
        }
        let held = self.slots.lock(rt);
        let mut held = self
            .was_judged
            .wait_while(rt, held, |slots| slots.is_behind(kept));
        let turn = held.turn(kept);
        self.tell_if_empty(&held);
        turn
    }

    /// Ends the work of all workers.
    pub(crate) fn close<R: Wait>(&self, rt: &R) {
        self.slots.lock(rt).is_closed = true;
        self.changes.fetch_add(1, Ordering::SeqCst);
        self.was_put.notify_all();
    }
}
