//! The caches of all cores over one memory.

ghost use Rattle.std.specs.Prelude.{◌≡◌, length};

use crate::cell::Cell;
use crate::error::CacheError;
use crate::line::Line;
use crate::word::{INVALID, Turn, modified_word, unpack, word_with_line};
use crate::words::{ask, fill_memory, place, turn_all, words_for};
use common::{Addr, CoreId, EventId, OutOfMemory};
use std::alloc::Global;
use std::marker::Model;

/// The caches of some cores over one memory, with a line for each core and address, and atomic
/// transactions. States and transactions are those of MOESI (Nagarajan, Sorin, Hill and Wood, A
/// Primer on Memory Consistency and Cache Coherence, second edition, chapters 6 to 8). Data are a
/// value and the event that wrote it, or none where nothing was written. Each call asks that its core
/// and its address are there. Only `new` and `with_init` can run out of memory.
///
/// They are one list of words: word `core * addresses + addr` is a core's line of an address, and
/// those after the lines of all cores are memory.
#[derive(Drop)]
pub struct Caches {
    words: Vec<u64>,
    cores: usize,
    addresses: usize,
}

impl Model for Caches {
    ghost use Rattle.moesi.specs.State.{CacheState};
    ghost use Rattle.moesi.specs.Words.{caches_in, AreWords};

    ghost Value = { CacheState };

    ghost view = { λ s. caches_in s.cores s.addresses s.words.items };

    ghost invariant = { λ s. AreWords s.cores s.addresses s.words.items };
}

impl Caches {
    ghost use Rattle.std.specs.Prelude.{◌≡◌, ◌≤◌, ◌<◌, if◌then◌else◌, length, IfOk};
    ghost use Rattle.common.specs.declared.limits.TheConstants.{MAX_EVENTS};
    ghost use Rattle.moesi.specs.Words.{cell_in};
    ghost use Rattle.moesi.specs.Block.{cell_of, with_line, block_by, has_copy, supplied};
    ghost use Rattle.moesi.specs.Rows.{turned};
    ghost use Rattle.moesi.specs.State.{opening_caches, opening_with, block_of, line_of, memory_of, with_block};
    ghost use Rattle.moesi.specs.State.{get_s, get_m_by, get_m, get_m_stale, put, read, write, IsRowAnswer};
    ghost use Rattle.moesi.specs.Coherent.{IsCoherent};
    ghost use Rattle.moesi.specs.Laws.{OpeningIsCoherent, OpeningWithIsCoherent, EveryCallKeepsCoherence};
    ghost use Rattle.moesi.specs.Laws.{EveryCopyIsCurrent, EveryReadIsCurrent};
    ghost use Rattle.moesi.specs.Laws.{EveryTransactionKeepsCurrent, EveryWriteSetsCurrent};
    ghost use Rattle.moesi.specs.Laws.{EveryCopyWasThere, EveryWriteAddsItself};
    ghost use Rattle.moesi.specs.Laws.{OpeningHasEmptyLines, OpeningWithHasEmptyLines};
    ghost use Rattle.moesi.specs.Laws.{EveryCallKeepsEmptyLines};

    /// Caches of this many cores where no line is valid, over this many addresses with value 0 and no
    /// event. Fails only if out of memory, also where no memory could hold them.
    pub fn new(alloc: Global, cores: usize, addresses: usize) -> Result<Caches, OutOfMemory>
        ensures { IfOk result (λ s. s ≡ opening_caches cores addresses) }
    {
        Ok(Caches {
            words: words_for(alloc, cores, addresses)?,
            cores,
            addresses,
        })
    }

    /// The caches of `with_init`.
    fn with_memory(alloc: Global, cores: usize, init: &[u32]) -> Result<Caches, OutOfMemory>
        ensures { IfOk result (λ s. s ≡ opening_with cores init.now) }
    {
        let addresses = init.len();
        let mut words = words_for(alloc, cores, addresses)?;
        fill_memory(&mut words, cores, init);
        Ok(Caches {
            words,
            cores,
            addresses,
        })
    }

    /// Caches of this many cores where no line is valid, over as many addresses as there are initial values,
    /// each with its value and no event. Fails only if out of memory, also where no memory could hold them.
    ///
    /// The opening caches are coherent, whatever memory begins with, and every call but the faulty
    /// `get_m_stale` keeps them so. In coherent caches a valid line has the current data, GetS, GetM and
    /// Put don't change what is current, and a write sets it at its address alone (invariants of single
    /// writer and of data value: Nagarajan, Sorin, Hill and Wood, A Primer on Memory Consistency and Cache
    /// Coherence, second edition, chapter 2).
    pub fn with_init(alloc: Global, cores: usize, init: &[u32]) -> Result<Caches, OutOfMemory>
        ensures ok { IfOk result (λ s. s ≡ opening_with cores init.now) }
        ensures opening { OpeningIsCoherent }
        ensures opening_with { OpeningWithIsCoherent }
        ensures copies { EveryCopyIsCurrent }
        ensures reads { EveryReadIsCurrent }
        ensures transactions { EveryTransactionKeepsCurrent }
        ensures writes { EveryWriteSetsCurrent }
        ensures coherence { EveryCallKeepsCoherence }
    {
        Caches::with_memory(alloc, cores, init)
    }

    /// A core's word of an address, and for the number of cores memory's.
    fn word(&self, row: usize, addr: Addr) -> u64
        requires row { row ≤ self.now.cores }
        requires address { addr < length self.now.blocks }
        ensures line { row < self.now.cores → cell_in result ≡ cell_of (block_of self.now addr) row }
        ensures memory { row ≡ self.now.cores → (cell_in result).copy ≡ memory_of self.now addr }
    {
        self.words[place(row, self.addresses, addr as usize)]
    }

    /// Gives an address another word of a core, and for the number of cores of memory.
    fn set_word(&mut self, row: usize, addr: Addr, word: u64)
        requires row { row ≤ self.old.cores }
        requires address { addr < length self.old.blocks }
        ensures line { row < self.old.cores → self.new ≡ with_block self.old addr
            (with_line (block_of self.old addr) row (cell_in word)) }
        ensures memory { row ≡ self.old.cores → self.new ≡ with_block self.old addr
            (record { lines = (block_of self.old addr).lines; memory = (cell_in word).copy }) }
    {
        let at = place(row, self.addresses, addr as usize);
        self.words[at] = word;
    }

    /// A core's line of an address with its data.
    fn cell(&self, core: CoreId, addr: Addr) -> Cell
        requires core { core < self.now.cores }
        requires address { addr < length self.now.blocks }
        ensures { result ≡ cell_of (block_of self.now addr) core }
    {
        unpack(self.word(core as usize, addr))
    }

    /// The state of a core's line of an address.
    pub fn line(&self, core: CoreId, addr: Addr) -> Line
        requires core { core < self.now.cores }
        requires address { addr < length self.now.blocks }
        ensures { result ≡ line_of self.now core addr }
    {
        self.cell(core, addr).line
    }

    /// Memory's value of an address, and the event that wrote it.
    pub fn memory(&self, addr: Addr) -> (u32, Option<EventId>)
        requires { addr < length self.now.blocks }
        ensures { result ≡ memory_of self.now addr }
    {
        unpack(self.word(self.cores, addr)).copy
    }

    /// Turns each line of an address, and then gives a core a line with the data that a core which asks is
    /// given: in `beside` where some line was valid, else in `alone`.
    fn take(&mut self, core: CoreId, addr: Addr, turn: Turn, beside: Line, alone: Line)
        requires core { core < self.old.cores }
        requires address { addr < length self.old.blocks }
        ensures { self.new ≡ with_block self.old addr
            (with_line (block_by (turned turn) (block_of self.old addr)) core (record {
              line = if has_copy (block_of self.old addr) then beside else alone;
              copy = supplied (block_of self.old addr);
            })) }
    {
        let (valid, word) = ask(&self.words, self.cores, self.addresses, addr as usize);
        let own = word_with_line(word, if valid { beside } else { alone });
        turn_all(
            &mut self.words,
            self.cores,
            self.addresses,
            core as usize,
            addr as usize,
            turn,
            own,
        );
    }

    /// GetS: gets a core a line that it may read. C1 where its line is valid; then nothing changes.
    pub fn get_s(&mut self, core: CoreId, addr: Addr) -> Result<(), CacheError>
        requires core { core < self.old.cores }
        requires address { addr < length self.old.blocks }
        ensures answer { IsRowAnswer (get_s self.old core addr) self.old self.new result }
        ensures coherent { IsCoherent self.old → IsCoherent self.new }
    {
        if self.line(core, addr).is_valid() {
            return Err(CacheError::C1);
        }
        self.take(core, addr, Turn::Share, Line::S, Line::E);
        Ok(())
    }

    /// GetM, which turns the other lines.
    fn get_m_by(&mut self, core: CoreId, addr: Addr, turn: Turn) -> Result<(), CacheError>
        requires core { core < self.old.cores }
        requires address { addr < length self.old.blocks }
        ensures { IsRowAnswer (get_m_by turn self.old core addr) self.old self.new result }
    {
        if self.line(core, addr).is_exclusive() {
            return Err(CacheError::C2);
        }
        self.take(core, addr, turn, Line::M, Line::M);
        Ok(())
    }

    /// GetM: gets a core the only valid line of an address, which it may write. C2 where its line
    /// is M or E; then nothing changes.
    pub fn get_m(&mut self, core: CoreId, addr: Addr) -> Result<(), CacheError>
        requires core { core < self.old.cores }
        requires address { addr < length self.old.blocks }
        ensures answer { IsRowAnswer (get_m self.old core addr) self.old self.new result }
        ensures coherent { IsCoherent self.old → IsCoherent self.new }
    {
        self.get_m_by(core, addr, Turn::Invalidate)
    }

    /// GetM with a fault: other lines in S stay as they are, with their old data, so that the caches
    /// may be no longer coherent. C2 where the core's line is M or E; then nothing changes.
    ///
    /// In any caches, coherent or not, data were there before a call or are what it wrote, and a line in I
    /// has value 0 and no event, at first and after every call.
    pub fn get_m_stale(&mut self, core: CoreId, addr: Addr) -> Result<(), CacheError>
        requires core { core < self.old.cores }
        requires address { addr < length self.old.blocks }
        ensures answer { IsRowAnswer (get_m_stale self.old core addr) self.old self.new result }
        ensures transactions { EveryCopyWasThere }
        ensures writes { EveryWriteAddsItself }
        ensures opening { OpeningHasEmptyLines }
        ensures opening_with { OpeningWithHasEmptyLines }
        ensures empty { EveryCallKeepsEmptyLines }
    {
        self.get_m_by(core, addr, Turn::LeaveStale)
    }

    /// Put: gives a core's line up. C3 where it is not valid; then nothing changes.
    pub fn put(&mut self, core: CoreId, addr: Addr) -> Result<(), CacheError>
        requires core { core < self.old.cores }
        requires address { addr < length self.old.blocks }
        ensures answer { IsRowAnswer (put self.old core addr) self.old self.new result }
        ensures coherent { IsCoherent self.old → IsCoherent self.new }
    {
        let word = self.word(core as usize, addr);
        let line = unpack(word).line;
        if !line.is_valid() {
            return Err(CacheError::C3);
        }
        if line.is_owned() {
            self.set_word(self.cores, addr, word_with_line(word, Line::I));
        }
        self.set_word(core as usize, addr, INVALID);
        Ok(())
    }

    /// The value of a core's line, and the event that wrote it; C3 where the line is not valid.
    pub fn read(&self, core: CoreId, addr: Addr) -> Result<(u32, Option<EventId>), CacheError>
        requires core { core < self.now.cores }
        requires address { addr < length self.now.blocks }
        ensures { result ≡ read self.now core addr }
    {
        let cell = self.cell(core, addr);
        if !cell.line.is_valid() {
            return Err(CacheError::C3);
        }
        Ok(cell.copy)
    }

    /// Writes a value and its event, whose number is below `MAX_EVENTS`, to a core's line, which
    /// becomes M. C4 where the line is neither M nor E; then nothing changes.
    pub fn write(
        &mut self,
        core: CoreId,
        addr: Addr,
        value: u32,
        event: EventId,
    ) -> Result<(), CacheError>
        requires core { core < self.old.cores }
        requires address { addr < length self.old.blocks }
        requires event { event < MAX_EVENTS }
        ensures answer { IsRowAnswer (write self.old core addr value event) self.old self.new result }
        ensures coherent { IsCoherent self.old → IsCoherent self.new }
    {
        if !self.line(core, addr).is_exclusive() {
            return Err(CacheError::C4);
        }
        self.set_word(core as usize, addr, modified_word(value, event));
        Ok(())
    }
}

#[cfg(test)]
mod tests {
    use super::*;

    /// Whether the first line is written, shared, put back and shared again.
    fn is_written_and_put_back(caches: &mut Caches) -> bool
        requires cores { caches.old.cores ≡ 3 }
        requires address { length caches.old.blocks ≡ 1 }
    {
        caches.get_m(0, 0) == Ok(())
            && caches.write(0, 0, 7, 0) == Ok(())
            && caches.get_s(1, 0) == Ok(())
            && caches.put(0, 0) == Ok(())
            && caches.get_s(2, 0) == Ok(())
    }

    #[test]
    fn a_word_has_a_value_an_event_and_a_state(rt: HostRuntime) -> Result<(), OutOfMemory> {
        let mut caches = Caches::new(rt.alloc(), 3, 1)?;
        assert!(rt; is_written_and_put_back(&mut caches));
        let words = [0, 281479271677959, 281479271677959, 4294967303];
        assert!(rt; caches.words.as_slice() == words.as_slice());
        Ok(())
    }
}
