//! Refusals of recordings.
ghost use Rattle.std.specs.Prelude.{◌≡◌};
ghost use Rattle.refusals.specs.Table.{group_of, of_recordings};

use crate::refusal::{Group, Refusal};

/// The refusal N1 of a recording.
pub const N1: Refusal<&str> = Refusal {
    name: "N1",
    counts: None,
    said: "the text is not JSON",
    advice: "a recording is one JSON object",
};

/// The refusal N2 of a recording.
pub const N2: Refusal<&str> = Refusal {
    name: "N2",
    counts: None,
    said: "the JSON has not the shape of a recording, or a value above 4294967295",
    advice: "keys are `cores`, `writes`, `version` and perhaps `init`, and of an event those of its kind",
};

/// The refusal N3 of a recording.
pub const N3: Refusal<&str> = Refusal {
    name: "N3",
    counts: None,
    said: "the version is neither 1 nor 2, or is not the one of what stands beside it",
    advice: "version 2 has `init`, version 1 neither `init` nor an event `C`; `complete` takes version 3, and no \
        other",
};

/// The refusal N4 of a recording.
pub const N4: Refusal<&str> = Refusal {
    name: "N4",
    counts: None,
    said: "there are more than 16 cores, 512 events or 16 write lists (1024, 16777216 or 65536 with `--long`), an \
        address without a write list, or not an initial value for each write list",
    advice: "version 1 has no initial values",
};

/// The refusal N5 of a recording.
pub const N5: Refusal<&str> = Refusal {
    name: "N5",
    counts: Some("event"),
    said: "has a source that is no write to its address",
    advice: "a source is the number of the event whose value was read, or null for the initial value",
};

/// The refusal N6 of a recording.
pub const N6: Refusal<&str> = Refusal {
    name: "N6",
    counts: Some("event"),
    said: "read another value than its source wrote",
    advice: "without a source it is the initial value, which is 0 in version 1",
};

/// The refusal N7 of a recording.
pub const N7: Refusal<&str> = Refusal {
    name: "N7",
    counts: Some("address"),
    said: "has a write list that is not that of its writes",
    advice: "each event that writes the address stands there once, and nothing else",
};

/// The refusal N8 of a recording.
pub const N8: Refusal<&str> = Refusal {
    name: "N8",
    counts: None,
    said: "the addresses are not numbered by first use",
    advice: "the first address that an event uses is 0, the next new one 1, and none is unused",
};

/// The refusal N9 of a recording.
pub const N9: Refusal<&str> = Refusal {
    name: "N9",
    counts: None,
    said: "the recording is not one of the program",
    advice: "cores, operations, values written and initial values are to be those of the program that was run",
};

/// The refusals of recordings.
const RECORDINGS: (&str, &[Refusal<&str>]) = (
    "Of a recording",
    &[N1, N2, N3, N4, N5, N6, N7, N8, N9],
);

/// The refusals of recordings.
#[tactic(auto, unfolding(crate::specs::Table::of_recordings))]
pub(crate) fn of_recordings() -> Group
    ensures { group_of result ≡ of_recordings }
{
    RECORDINGS
}
