//! Threads that share a traced machine.

use crate::traced::Traced;
use crate::turn::{Turn, Worker};
use common::{CoreId, Gate};
use std::sync::atomic::{AtomicBool, Ordering};
use std::sync::{Condvar, Mutex, Wait};
use std::thread;
use std::thread::{Scope, Threads};

/// A traced machine that threads share.
pub type LiveMachine = Mutex<Traced>;

/// What the threads share: the machine, where they sleep until it takes a step, and whether they
/// are to stop before it has come to its end.
#[derive(Drop)]
pub(crate) struct SharedMachine {
    live: LiveMachine,
    moved: Condvar,
    stopped: AtomicBool,
}

impl SharedMachine {
    /// A machine to share, before its threads.
    pub(crate) fn new(traced: Traced) -> SharedMachine {
        SharedMachine {
            live: Mutex::new(traced),
            moved: Condvar::new(),
            stopped: AtomicBool::new(false),
        }
    }

    /// The machine, after all threads.
    pub(crate) fn into_traced(self) -> Traced {
        let SharedMachine { live, .. } = self;
        live.into_inner()
    }

    /// Ends all threads. The flag is set under the lock: else a thread that is about to sleep could
    /// miss it.
    fn stop<R: Wait>(&self, rt: &R) {
        let held = self.live.lock(rt);
        self.stopped.store(true, Ordering::SeqCst);
        drop(held);
        self.moved.notify_all();
    }

    /// A worker's turn under the lock. Where it has nothing to do, it sleeps until another worker
    /// took a step. False where it has nothing more to do.
    fn turn<R: Wait>(&self, rt: &R, worker: Worker) -> bool {
        let mut held = self.live.lock(rt);
        if self.stopped.load(Ordering::SeqCst) || held.is_ended() {
            return false;
        }
        match worker.turn(&mut held) {
            Turn::Took => {
                drop(held);
                self.moved.notify_all();
                thread::yield_now();
                true
            }
            Turn::Idle => {
                drop(self.moved.wait(rt, held));
                true
            }
            Turn::Over => false,
            Turn::Stuck => {
                drop(held);
                self.stop(rt);
                false
            }
        }
    }

    /// What a worker's thread does, up to its end or for 2^64 - 1 turns. A core's first turn, in which it takes a step,
    /// is between the calls of the gate.
    fn attend<R: Wait, G: Gate>(&self, rt: &R, gate: &G, worker: Worker) {
        if let Worker::Core(core) = worker {
            gate.begin(core as usize, core as usize);
            let goes_on = self.turn(rt, worker);
            gate.done(core as usize, core as usize);
            if !goes_on {
                return;
            }
        }
        for _ in 0..u64::MAX {
            if !self.turn(rt, worker) {
                break;
            }
        }
    }

    /// Runs a thread for each of this many cores, one for drains and one for caches, up to their end.
    /// False where a thread was not started; the others are stopped then.
    pub(crate) fn run<R: Threads + Wait + Sync, G: Gate>(
        &self,
        rt: &R,
        cores: CoreId,
        gate: &G,
    ) -> bool {
        thread::scope(thread::scope_env(), rt, |scope| {
            start_all(scope, rt, self, cores, gate)
        })
    }
}

/// Starts the threads of a shared machine, up to one that is not started.
fn start_all<'s, E, R: Threads + Wait + Sync, G: Gate>(
    scope: &Scope<'s, E>,
    rt: &'s R,
    shared: &'s SharedMachine,
    cores: CoreId,
    gate: &'s G,
) -> bool {
    for core in 0..cores {
        if !start(scope, rt, shared, gate, Worker::Core(core)) {
            return false;
        }
    }
    start(scope, rt, shared, gate, Worker::Drains) && start(scope, rt, shared, gate, Worker::Caches)
}

/// Starts a worker's thread. Where it is not started, the others are stopped.
fn start<'s, E, R: Threads + Wait + Sync, G: Gate>(
    scope: &Scope<'s, E>,
    rt: &'s R,
    shared: &'s SharedMachine,
    gate: &'s G,
    worker: Worker,
) -> bool {
    let refused = scope
        .spawn(move || shared.attend(rt, gate, worker))
        .is_err();
    if refused {
        shared.stop(rt);
    }
    !refused
}
