//! Memory orders of TSO.

ghost use Rattle.std.specs.Prelude.{◌↔◌, IsTrue};
ghost use Rattle.recording.specs.Tso.{IsTsoOrder};
ghost use Rattle.relations.specs.Consistency.{RespectsForced, HasNoOverlook};

use crate::kept::keeps_order;
use crate::total::is_total;
use crate::values::gives_values;
use crate::written::keeps_writes;
use common::EventId;
use recording::Recording;
use relations::forced_is_exact;

/// Whether a list of any numbers is a memory order that TSO allows for the recording: each event
/// stands once, kept pairs and write lists stand in order, and each read has the last visible write
/// as its source (Nagarajan, Sorin, Hill and Wood, A Primer on Memory Consistency and Cache
/// Coherence, second edition, chapter 4).
pub fn check(recording: &Recording, order: &[EventId]) -> bool
    ensures order { IsTrue result ↔ IsTsoOrder recording.now order.now }
    ensures respects { IsTrue result → RespectsForced recording.now order.now }
    ensures no_overlook { IsTrue result → HasNoOverlook recording.now }
{
    recording.sound();
    forced_is_exact();
    if !is_total(recording, order) || !keeps_order(recording, order) {
        return false;
    }
    keeps_writes(recording, order) && gives_values(recording, order)
}
