//! Threads that judge what is put to a queue.

ghost use Rattle.std.specs.Prelude.{◌≡◌};

use crate::engine::Engine;
use common::{Gate, MAX_WORKERS};
use std::sync::Wait;
use std::thread;
use std::thread::{Scope, Threads};

/// Starts the workers but the first, of this many, at most `MAX_WORKERS`. One whose thread does not start is left out.
fn start_workers<'s, E, R: Threads + Wait + Sync, G: Gate>(
    scope: &Scope<'s, E>,
    engine: &Engine<'s, R, G>,
    workers: usize,
) {
    let (rt, alloc, kind) = (engine.rt, engine.alloc, engine.kind);
    let (reports, gate, queue, batch) = (engine.reports, engine.gate, engine.queue, engine.batch);
    for worker in 1..workers.min(MAX_WORKERS) {
        let _ = scope.spawn(move || {
            Engine {
                rt,
                alloc,
                kind,
                reports,
                gate,
                queue,
                batch,
            }
            .work(worker)
        });
    }
}

/// A closure that is lent.
#[derive(Drop)]
struct Lent<'a, F> {
    f: &'a mut F,
}

/// Ends a loan.
fn take_back<T>(x: &mut T)
    ensures { x.new ≡ x.old }
{}

/// Calls a closure while the workers but the first, of this many, judge what it puts to the queue, and then closes the
/// queue.
pub(crate) fn with_workers<'a, R: Threads + Wait + Sync, G: Gate, F: FnMut() -> A, A>(
    engine: &Engine<'_, R, G>,
    workers: usize,
    f: &'a mut F,
) -> A
    requires { F.pre f.old }
    ensures { F.step f.old result f.new }
{
    let lent = Lent { f };
    let (f, answer) = thread::scope(
        thread::scope_env(),
        engine.rt,
        move |scope| -> (&mut F, A)
            requires { F.pre lent.f.now }
            ensures { (result.0.ghost_name ≡ lent.entry.f.ghost_name)
                × F.step lent.entry.f.now result.1 result.0.now }
        {
            start_workers(scope, engine, workers);
            let Lent { f } = lent;
            let answer = f();
            engine.queue.close(engine.rt);
            (f, answer)
        },
    );
    take_back(f);
    answer
}
