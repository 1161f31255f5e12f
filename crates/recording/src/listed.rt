//! The write lists of parts of a recording, which may break its rules, and the places of the writes.

ghost use Rattle.std.specs.Prelude.{◌≡◌, ◌↔◌, ◌<◌, ◌≤◌, ℕ, IsTrue};
ghost use Rattle.recording.specs.Listed.{slot_at};
ghost use Rattle.recording.specs.declared.slots.Slot.TheVariants.{Written};

use crate::lists::item_or;
use crate::parts::RecordingParts;
use crate::slots::{PackedSlot, Slot, WritePlace};
use common::{Addr, EventId};

/// Whether an event writes an address and was not met in a write list.
fn is_unmet(slots: &[PackedSlot], number: EventId, address: Addr) -> bool
    ensures { IsTrue result ↔ ((w : ℕ) × (slot_at slots.now number ≡ Written address w)) }
{
    let Some(slot) = slots.get(number as usize) else {
        return false;
    };
    match slot.slot() {
        Slot::Written(written, _) => written == address,
        _ => false,
    }
}

/// Whether each event that writes was met in a write list. No step of its loop depends on what an event does.
fn are_all_met(slots: &[PackedSlot]) -> bool
    ensures { IsTrue result → (e a w : ℕ) → ¬ (slot_at slots.now e ≡ Written a w) }
{
    let mut all = true;
    for slot in slots {
        all = all & !matches!(slot.slot(), Slot::Written(..));
    }
    all
}

/// The address that an event writes that was not met in a write list, where it is below a count; else the count.
fn unmet_below(slot: Slot, count: usize) -> usize
    ensures bound { result ≤ count }
    ensures least { (a w : ℕ) → slot ≡ Written a w → result ≤ a }
    ensures unmet { result < count → (w : ℕ) × (slot ≡ Written result w) }
{
    match slot {
        Slot::Written(address, _) => count.min(address as usize),
        _ => count,
    }
}

/// The least address below a count that an event writes that was not met in a write list; else the count.
fn first_unmet(slots: &[PackedSlot], count: usize) -> usize
    ensures bound { result ≤ count }
    ensures least { (e a w : ℕ) → slot_at slots.now e ≡ Written a w → result ≤ a }
    ensures unmet { result < count → (e w : ℕ) × (slot_at slots.now e ≡ Written result w) }
{
    if are_all_met(slots) {
        return count;
    }
    let mut first = count;
    for slot in slots {
        first = unmet_below(slot.slot(), first);
    }
    first
}

impl RecordingParts {
    ghost use Rattle.std.specs.Prelude.{◌≡◌, ◌↔◌, ◌<◌, ◌≤◌, ℕ, IsTrue, MatchOption, false, length};
    ghost use Rattle.common.specs.declared.limits.TheConstants.{MAX_RECORDED_ADDRESSES, MAX_RECORDED_EVENTS};
    ghost use Rattle.recording.specs.Execution.{event_count, write_list, Writes};
    ghost use Rattle.recording.specs.Order.{times};
    ghost use Rattle.recording.specs.Listed.{is_marked, slot_at, AreSlotsOf, AreNumbered, AreAllPlaced, ArePlacedBelow};
    ghost use Rattle.recording.specs.Listed.{IsPlaced, ListsEachWrite, ListsWritesOnce};
    ghost use Rattle.recording.specs.Recording.{IsWithinLimits};
    ghost use Rattle.recording.specs.declared.size.RecordingSize.TheVariants.{Long};
    ghost use Rattle.recording.specs.Refusals.{HasWriteList, IsLeastWithout};

    /// Whether each number in the write list of an address writes it and stands once. Then its numbers are
    /// the marked writes of the address, each with its place.
    fn lists_writes_once(&self, address: Addr, slots: &mut [PackedSlot]) -> bool
        requires few_events { event_count self.now ≤ MAX_RECORDED_EVENTS }
        requires address { address < MAX_RECORDED_ADDRESSES }
        requires slots { AreSlotsOf self.now slots.old }
        requires unmarked { (e : ℕ) → Writes self.now e address → is_marked slots.old e ≡ false }
        ensures slots { AreSlotsOf self.now slots.new }
        ensures once { IsTrue result ↔ ListsWritesOnce self.now address }
        ensures marked { IsTrue result → (e : ℕ) → Writes self.now e address
            → IsTrue (is_marked slots.new e) ↔ (0 < times (write_list self.now address) e) }
        ensures placed { IsTrue result → (e : ℕ) → 0 < times (write_list self.now address) e
            → IsPlaced (write_list self.now address) e (slot_at slots.new e) }
        ensures others { (e : ℕ) → ¬ Writes self.now e address → slot_at slots.new e ≡ slot_at slots.old e }
    {
        let list = self.write_list(address);
        if list.len() > slots.len() {
            return false;
        }
        for i in 0..list.len() {
            let number = list[i];
            if !is_unmet(slots, number, address) {
                return false;
            }
            slots[number as usize] = PackedSlot::placed(WritePlace {
                place: i as u32,
                next: item_or(list, i + 1, number),
            });
        }
        true
    }

    /// How many write lists from the first have writes of their addresses alone, each once. What stands in
    /// them gets its place.
    fn place_lists(&self, slots: &mut [PackedSlot]) -> usize
        requires within { IsWithinLimits Long self.now }
        requires numbered { AreNumbered self.now slots.old }
        ensures slots { AreSlotsOf self.now slots.new }
        ensures there { result ≤ length self.now.write_lists }
        ensures once { (a : ℕ) → a < result → ListsWritesOnce self.now a }
        ensures last { result < length self.now.write_lists → ¬ ListsWritesOnce self.now result }
        ensures placed { ArePlacedBelow self.now result slots.new }
    {
        let count = self.writes().len();
        for address in 0..count {
            if !self.lists_writes_once(address as Addr, slots) {
                return address;
            }
        }
        count
    }

    /// How many of the first lists, as many of which have their places, have each write of their addresses.
    fn first_lists_whole(&self, slots: &[PackedSlot], count: usize) -> usize
        requires slots { AreSlotsOf self.now slots.now }
        requires few_addresses { count ≤ MAX_RECORDED_ADDRESSES }
        requires placed { ArePlacedBelow self.now count slots.now }
        ensures bound { result ≤ count }
        ensures whole { (a : ℕ) → a < result → ListsEachWrite self.now a }
        ensures last { result < count → ¬ ListsEachWrite self.now result }
    {
        first_unmet(slots, count)
    }

    /// How many write lists from the first have each write of their addresses once and nothing else. What stands in
    /// them gets its place.
    fn first_lists_right(&self, slots: &mut [PackedSlot]) -> usize
        requires within { IsWithinLimits Long self.now }
        requires numbered { AreNumbered self.now slots.old }
        ensures size { length slots.new ≡ event_count self.now }
        ensures there { result ≤ length self.now.write_lists }
        ensures right { (a : ℕ) → a < result → HasWriteList self.now a }
        ensures last { result < length self.now.write_lists → ¬ HasWriteList self.now result }
        ensures placed { ArePlacedBelow self.now result slots.new }
    {
        let once = self.place_lists(slots);
        self.first_lists_whole(slots, once)
    }

    /// The least address whose write list does not have each of its writes once and nothing else; where there is none,
    /// each write gets its place.
    pub(crate) fn first_without_list(&self, slots: &mut [PackedSlot]) -> Option<Addr>
        requires within { IsWithinLimits Long self.now }
        requires numbered { AreNumbered self.now slots.old }
        ensures size { length slots.new ≡ event_count self.now }
        ensures least { MatchOption result (((a : ℕ) → HasWriteList self.now a) × AreAllPlaced self.now slots.new)
            (λ a. IsLeastWithout (HasWriteList self.now) a) }
    {
        let right = self.first_lists_right(slots);
        if right < self.writes().len() {
            return Some(right as Addr);
        }
        None
    }
}
