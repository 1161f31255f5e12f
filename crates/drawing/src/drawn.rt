//! What a picture draws.

use common::EventId;
use event_texts::Names;
use recording::Recording;

/// What is drawn: event i of the rest as event `numbers[i]` of the recording, with these names.
#[derive(Drop)]
pub(crate) struct Drawn<'a> {
    pub(crate) recording: &'a Recording,
    pub(crate) names: &'a Names,
    pub(crate) numbers: &'a [EventId],
    pub(crate) rest: &'a Recording,
}

/// How the events of a picture stand.
#[derive(Clone, Copy)]
pub(crate) enum Layout {
    /// In the order of memory, one below the other, the cores side by side.
    Ranks,
    /// Each core in the order of its program, the cores side by side.
    Columns,
}

/// How an edge is drawn.
#[derive(Clone, Copy)]
pub(crate) enum Weight {
    Bold,
    Thin,
}
