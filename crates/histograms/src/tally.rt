//! How often runs come to an outcome.

ghost use Rattle.std.specs.Prelude.{◌≡◌, ◌+◌, ◌<◌, ◌^◌, IfSome};
ghost use Rattle.histograms.specs.Histogram.{with_run};

/// Of the runs that came to an outcome.
#[derive(Clone, Copy, Drop, PartialEq, Eq)]
pub struct Tally {
    /// How many there are, 1 at least.
    pub count: u64,
    /// The number of the first, from 0.
    pub first: u64,
    /// Whether TSO has no order for the recording of one.
    pub violation: bool,
}

/// What is known of an outcome after one more run that came to it, by what was known before.
pub(crate) fn with_run(known: Option<Tally>, run: u64, violation: bool) -> Tally
    requires { IfSome known (λ t. t.count + 1 < 2 ^ 64) }
    ensures { result ≡ with_run known run violation }
{
    match known {
        Some(tally) => Tally {
            count: tally.count + 1,
            first: tally.first,
            violation: tally.violation || violation,
        },
        None => Tally {
            count: 1,
            first: run,
            violation,
        },
    }
}
