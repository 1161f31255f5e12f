//! The progress of a campaign or a survey, on a terminal.
ghost use Rattle.std.specs.Prelude.{◌≡◌};
ghost use Rattle.devices.specs.Progress.{line_due};

use common::Gate;
use std::fmt;
use std::fmt::{Display, Formatter, Write};
use std::io::IsTerminal;
use std::sync::atomic::{AtomicU64, AtomicUsize, Ordering};
use std::time::{Duration, Instant};

/// After this many milliseconds the first line is shown.
pub const FIRST_LINE: u64 = 500;

/// This many milliseconds at least lie between two lines.
pub const BETWEEN_LINES: u64 = 250;

/// What takes the longest line away.
const BLANKS: &str = "\r                                                                \r";

/// Whether progress is shown.
#[derive(Clone, Copy, Drop, PartialEq, Eq)]
pub enum Visibility {
    /// Its lines are written on a terminal.
    Shown,
    /// No line is written.
    Hidden,
}

/// How far a campaign is, or a survey.
#[derive(Clone, Copy, PartialEq, Eq)]
pub struct Line {
    /// How many trials or recordings are done.
    pub done: usize,
    /// How many trials there are; none of a survey, whose recordings are not known before its end.
    pub trials: Option<usize>,
    /// How many violations were found.
    pub found: usize,
}

impl Display for Line {
    fn fmt<W: Write>(&self, f: &mut Formatter<W>) -> fmt::Result {
        let noun = if self.found == 1 {
            "violation"
        } else {
            "violations"
        };
        match self.trials {
            Some(trials) => {
                write!(
                    f,
                    "\r{} of {trials} trials, {} {noun}",
                    self.done, self.found
                )
            }
            None => { write!(f, "\r{} recordings, {} {noun}", self.done, self.found) }
        }
    }
}

/// The line that is due this many milliseconds after the beginning, if any. The last one was written at
/// `last`; 0 stands for none.
pub fn line_due(visibility: Visibility, elapsed: u64, last: u64, line: Line) -> Option<Line>
    ensures { result ≡ line_due visibility elapsed last line }
{
    match visibility {
        Visibility::Hidden => None,
        Visibility::Shown => {
            if elapsed >= FIRST_LINE && elapsed.saturating_sub(last) >= BETWEEN_LINES {
                Some(line)
            } else {
                None
            }
        }
    }
}

fn millis(time: Duration) -> u64 {
    time.as_secs()
        .saturating_mul(1000)
        .saturating_add(time.subsec_millis() as u64)
}

/// Whether standard error is a terminal.
pub(crate) fn is_shown(rt: &HostRuntime) -> bool {
    rt.stderr().is_terminal()
}

/// Shows how far work is, on standard error where that is a terminal. Its end takes the line away.
/// Without a clock, or where it is hidden, it shows nothing.
pub struct Progress<'a> {
    rt: &'a HostRuntime,
    visibility: Visibility,
    begun: Option<Instant>,
    trials: Option<usize>,
    done: AtomicUsize,
    found: AtomicUsize,
    last: AtomicU64,
}

impl<'a> Progress<'a> {
    /// That of a campaign of this many trials, or of a survey, which begins.
    pub fn new(rt: &'a HostRuntime, trials: Option<usize>, visibility: Visibility) -> Progress<'a> {
        Progress {
            rt,
            visibility: if is_shown(rt) {
                visibility
            } else {
                Visibility::Hidden
            },
            begun: Instant::now(rt).ok(),
            trials,
            done: AtomicUsize::new(0),
            found: AtomicUsize::new(0),
            last: AtomicU64::new(0),
        }
    }

    /// Writes the line that is due at this time. Of threads that would write it, one does.
    fn show(&self, elapsed: u64) {
        let last = self.last.load(Ordering::SeqCst);
        let line = Line {
            done: self.done.load(Ordering::SeqCst),
            trials: self.trials,
            found: self.found.load(Ordering::SeqCst),
        };
        let Some(line) = line_due(self.visibility, elapsed, last, line) else {
            return;
        };
        let claim = self
            .last
            .compare_exchange(last, elapsed, Ordering::SeqCst, Ordering::SeqCst);
        if claim.is_ok() {
            let _ = eprint!(self.rt; "{line}");
        }
    }
}

impl Gate for Progress<'_> {
    fn begin(&self, _worker: usize, _piece: usize) {}

    fn done(&self, _worker: usize, _piece: usize) {
        if self.visibility == Visibility::Hidden {
            return;
        }
        self.done.fetch_add(1, Ordering::SeqCst);
        if let Some(begun) = self.begun {
            if let Ok(elapsed) = begun.elapsed(self.rt) {
                self.show(millis(elapsed));
            }
        }
    }

    fn found(&self, _worker: usize, _piece: usize) {
        self.found.fetch_add(1, Ordering::SeqCst);
    }
}

// Here all workers are done, so that none writes a line after the blanks.
impl Drop for Progress<'_> {
    fn drop(self) {
        if self.last.load(Ordering::SeqCst) > 0 {
            let _ = eprint!(self.rt; "{BLANKS}");
        }
        let Self {
            rt,
            visibility,
            begun,
            trials,
            done,
            found,
            last,
        } = self;
    }
}
