//! Short lives of one address, a call a line.
ghost use Rattle.std.specs.Prelude.{◌≡◌, length};

use common::{CoreId, EventId, MAX_EVENTS};
use moesi::Line::{E, I, M, O, S};
use moesi::{CacheError, Caches, Line};
use std::alloc::Global;
use std::test::Fail;

/// The caches of this many cores over one address. That their sizes stay is kept by the type, so that no call
/// below asks for it: where each call did, the tests took two minutes to prove.
#[derive(Drop)]
struct OneAddress {
    caches: Caches,
    cores: CoreId,
    ghost cores_are: { caches.cores ≡ cores },
    ghost is_one: { length caches.blocks ≡ 1 },
}

/// What a call at the address answers.
type Answer = Result<(), CacheError>;

const DONE: Answer = Ok(());

/// A value and the event that wrote it.
type Data = (u32, Option<EventId>);

/// A call at the address, or a look at it.
#[derive(Clone, Copy)]
enum Call {
    GetS,
    GetM,
    Put,
    Write(u32, EventId),
    Read(Data),
    Memory(Data),
}

/// A core's call, what it answers, and the lines of all cores after it.
type Row = (CoreId, Call, Answer, &'static [Line]);

impl OneAddress {
    /// Whether the lines of the cores are these.
    fn are(&self, lines: &[Line]) -> bool {
        for core in 0..self.cores {
            if lines.get(core as usize).copied() != Some(self.caches.line(core, 0)) {
                return false;
            }
        }
        lines.len() == self.cores as usize
    }

    /// Whether the row's call answers so.
    fn answers(&mut self, row: &Row) -> bool {
        let (core, call, answer, lines) = row;
        let answered = *core < self.cores
            && match call {
                Call::GetS => self.caches.get_s(*core, 0) == *answer,
                Call::GetM => self.caches.get_m(*core, 0) == *answer,
                Call::Put => self.caches.put(*core, 0) == *answer,
                Call::Write(value, event) => {
                    (*event as usize) < MAX_EVENTS
                        && self.caches.write(*core, 0, *value, *event) == *answer
                }
                Call::Read(data) => self.caches.read(*core, 0) == answer.map(|()| *data),
                Call::Memory(data) => self.caches.memory(0) == *data,
            };
        answered && self.are(lines)
    }
}

/// Whether the caches of this many cores answer the rows so, one after the other.
fn answers_all(alloc: Global, cores: CoreId, rows: &[Row]) -> Result<bool, Fail> {
    let mut caches = OneAddress {
        caches: Caches::new(alloc, cores as usize, 1)?,
        cores,
    };
    for row in rows {
        if !caches.answers(row) {
            return Ok(false);
        }
    }
    Ok(true)
}

const SHARED_AND_PUT_BACK: &[Row] = &[
    (0, Call::GetM, DONE, &[M, I, I]),
    (0, Call::Write(7, 0), DONE, &[M, I, I]),
    (1, Call::GetS, DONE, &[O, S, I]),
    (0, Call::Put, DONE, &[I, S, I]),
    (0, Call::Memory((7, Some(0))), DONE, &[I, S, I]),
    (2, Call::GetS, DONE, &[I, S, S]),
    (2, Call::Read((7, Some(0))), DONE, &[I, S, S]),
    (2, Call::GetS, Err(CacheError::C1), &[I, S, S]),
];

#[test]
fn a_written_line_is_shared_and_put_back(rt: HostRuntime) -> Result<(), Fail> {
    assert!(rt; answers_all(rt.alloc(), 3, SHARED_AND_PUT_BACK)?);
    Ok(())
}

const GIVEN_AWAY: &[Row] = &[
    (0, Call::GetM, DONE, &[M, I]),
    (0, Call::Write(7, 0), DONE, &[M, I]),
    (1, Call::GetS, DONE, &[O, S]),
    (1, Call::GetM, DONE, &[I, M]),
    (1, Call::Read((7, Some(0))), DONE, &[I, M]),
    (1, Call::Memory((0, None)), DONE, &[I, M]),
    (1, Call::Put, DONE, &[I, I]),
    (1, Call::Memory((7, Some(0))), DONE, &[I, I]),
    (0, Call::GetS, DONE, &[E, I]),
    (0, Call::Write(8, 1), DONE, &[M, I]),
    (0, Call::GetM, Err(CacheError::C2), &[M, I]),
    (1, Call::Read((0, None)), Err(CacheError::C3), &[M, I]),
    (1, Call::Write(9, 2), Err(CacheError::C4), &[M, I]),
];

#[test]
fn an_owner_gives_its_line_away(rt: HostRuntime) -> Result<(), Fail> {
    assert!(rt; answers_all(rt.alloc(), 2, GIVEN_AWAY)?);
    Ok(())
}
