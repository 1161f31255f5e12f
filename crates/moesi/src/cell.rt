//! One core's line with its data.

use crate::line::Line;
use common::EventId;

/// One core's line of an address, with its value and the event that wrote it.
#[derive(Clone, Copy)]
pub(crate) struct Cell {
    pub line: Line,
    pub copy: (u32, Option<EventId>),
}
