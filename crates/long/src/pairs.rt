//! Pairs of events, kept as a chain for each first event.

ghost use Rattle.std.specs.Prelude.{◌≡◌, ◌≤◌, ◌<◌, ◌+◌, ◌^◌, ℕ, [], length, slice_index};
ghost use Rattle.order.specs.Open.{IsOpen};
ghost use Rattle.long.specs.Chains.{times_kept, times_listed, AreChains, HaveFirstsBelow};

use common::{EventId, OutOfMemory};
use std::alloc::Global;
use std::marker::Model;

/// Pairs of events: for each first event a chain of its second ones.
#[derive(Drop)]
pub(crate) struct Pairs {
    /// For each first event one more than the place of its last pair; 0 where it has none.
    heads: Vec<u32>,
    /// For each pair its second event, and one more than the place of the pair before it of the same first event; 0
    /// where there is none.
    links: Vec<(EventId, u32)>,
}

impl Model for Pairs {
    ghost use Rattle.long.specs.Chains.{Chains, AreChains};

    ghost Value = { Chains };

    ghost view = { λ p. record { heads = p.heads.items; links = p.links.items } };

    ghost invariant = { λ p. AreChains (record { heads = p.heads.items; links = p.links.items }) };
}

/// Makes a chain of the pairs of each first event: in a pair's place comes its second event with the place of the pair
/// before it in its chain. No event has a chain before. Each pair counts one more for its second event.
fn chain_up(list: &mut [(EventId, u32)], heads: &mut [u32], counts: &mut [u32])
    requires few { length list.old + 1 < 2 ^ 32 }
    requires firsts { HaveFirstsBelow list.old (length heads.old) }
    requires seconds { (e f : ℕ) → 0 < times_listed list.old e f → f < length counts.old }
    requires size { length counts.old ≡ length heads.old }
    requires none { (e : ℕ) → slice_index heads.old e ≡ 0 }
    requires ones { (f : ℕ) → f < length counts.old → slice_index counts.old f ≡ 1 }
    ensures size { length heads.new ≡ length heads.old }
    ensures links { length list.new ≡ length list.old }
    ensures chains { AreChains (record { heads = heads.new; links = list.new }) }
    ensures each { (e f : ℕ) → times_kept (record { heads = heads.new; links = list.new }) e f
        ≡ times_listed list.old e f }
    ensures open { IsOpen (times_listed list.old) (length heads.old) [] counts.new }
{
    for place in 0..list.len() {
        let (first, second) = list[place];
        list[place] = (second, heads[first as usize]);
        heads[first as usize] = place as u32 + 1;
        counts[second as usize] += 1;
    }
}

impl Pairs {
    ghost use Rattle.std.specs.Prelude.{◌≡◌, ◌≤◌, ◌<◌, ◌+◌, ◌∷◌, ◌^◌, ℕ, [], IfOk, length, slice_index};
    ghost use Rattle.order.specs.Open.{IsOpen};
    ghost use Rattle.long.specs.Chains.{rest_from, seconds, times_kept, times_listed, HaveFirstsBelow};

    /// The pairs of a list, whose events are below a count, and for each of these one more than how often it is the
    /// second of a pair.
    pub(crate) fn of(
        alloc: Global,
        list: Vec<(EventId, EventId)>,
        count: usize,
    ) -> Result<(Pairs, Vec<u32>), OutOfMemory>
        requires few { length list.items + 1 < 2 ^ 32 }
        requires firsts { HaveFirstsBelow list.items count }
        requires seconds { (e f : ℕ) → 0 < times_listed list.items e f → f < count }
        ensures size { IfOk result (λ r. length r.0.heads ≡ count) }
        ensures few { IfOk result (λ r. length r.0.links ≡ length list.items) }
        ensures each { IfOk result (λ r. (e f : ℕ) → times_kept r.0 e f ≡ times_listed list.items e f) }
        ensures open { IfOk result (λ r. IsOpen (times_listed list.items) count [] r.1.items) }
    {
        let mut heads = vec![in alloc; 0; count]?;
        let mut counts = vec![in alloc; 1; count]?;
        let mut links = list;
        chain_up(&mut links, &mut heads, &mut counts);
        Ok((Pairs { heads, links }, counts))
    }

    /// Where the chain of an event begins; 0 where it has no pair.
    pub(crate) fn head(&self, first: EventId) -> u32
        ensures rest { rest_from self.now result ≡ seconds self.now first }
        ensures low { result ≤ length self.now.links }
    {
        match self.heads.get(first as usize) {
            Some(head) => *head,
            None => 0,
        }
    }

    /// The second event of the pair with which a chain goes on, and where it goes on after that; 0 where it ends.
    pub(crate) fn link(&self, head: u32) -> (EventId, u32)
        requires some { 0 < head }
        requires low { head ≤ length self.now.links }
        ensures rest { rest_from self.now head ≡ result.0 ∷ rest_from self.now result.1 }
        ensures low { result.1 < head }
    {
        self.links[head as usize - 1]
    }
}
