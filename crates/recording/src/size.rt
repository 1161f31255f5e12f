//! How large recordings may be.

ghost use Rattle.std.specs.Prelude.{◌≡◌};
ghost use Rattle.recording.specs.Sizes.{most_cores, most_events, most_addresses};

use common::{
    MAX_ADDRESSES, MAX_CORES, MAX_EVENTS, MAX_RECORDED_ADDRESSES, MAX_RECORDED_CORES,
    MAX_RECORDED_EVENTS,
};

/// How large a recording may be.
#[derive(Clone, Copy, Drop, PartialEq, Eq)]
pub enum RecordingSize {
    /// As large as a program: at most `MAX_CORES` cores, `MAX_EVENTS` events and `MAX_ADDRESSES` addresses.
    Short,
    /// At most `MAX_RECORDED_CORES` cores, `MAX_RECORDED_EVENTS` events and `MAX_RECORDED_ADDRESSES` addresses.
    Long,
}

impl RecordingSize {
    /// The most cores.
    pub fn cores(self) -> usize
        ensures { result ≡ most_cores self }
    {
        match self {
            RecordingSize::Short => MAX_CORES,
            RecordingSize::Long => MAX_RECORDED_CORES,
        }
    }

    /// The most events over all cores.
    pub fn events(self) -> usize
        ensures { result ≡ most_events self }
    {
        match self {
            RecordingSize::Short => MAX_EVENTS,
            RecordingSize::Long => MAX_RECORDED_EVENTS,
        }
    }

    /// The most addresses.
    pub fn addresses(self) -> usize
        ensures { result ≡ most_addresses self }
    {
        match self {
            RecordingSize::Short => MAX_ADDRESSES,
            RecordingSize::Long => MAX_RECORDED_ADDRESSES,
        }
    }
}
