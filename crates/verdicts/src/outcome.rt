//! The outcome of a command.

ghost use Rattle.std.specs.Prelude.{◌≡◌};
ghost use Rattle.verdicts.specs.Outcomes.{status_of};

/// The outcome of a command.
#[derive(Clone, Copy, PartialEq, Eq)]
pub enum Outcome {
    /// TSO allows the recording.
    Ordered,
    /// TSO does not allow the recording, or one of several.
    Violation,
    /// A text, a number or a name is refused.
    Refused,
    /// A run left an operation or a buffered store.
    Unfinished,
    /// What was asked for stands there, and it says nothing else.
    Done,
    /// The command line, a file, memory or a thread failed.
    Error,
}

impl Outcome {
    /// The exit status of a command with this outcome.
    pub fn status(self) -> u8
        ensures { result ≡ status_of self }
    {
        match self {
            Outcome::Ordered | Outcome::Done => 0,
            Outcome::Error => 1,
            Outcome::Violation => 2,
            Outcome::Refused => 3,
            Outcome::Unfinished => 4,
        }
    }
}
