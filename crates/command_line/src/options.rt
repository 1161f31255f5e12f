//! The options of each command, and why there are none.

use clap::error::ErrorKind;
use common::{MAX_CAPACITY, MAX_STEPS, MAX_TRIALS, MAX_WORKERS};
use program::{Campaign, Fault, ShapeError};
use recording::RecordingSize;
use refusals::Refusal;
use std::alloc::AllocError;
use std::fmt;
use std::fmt::{Display, Formatter, Write};

/// What an option's number may be, which is 1 at least.
#[derive(Clone, Copy, Drop)]
pub struct Limits {
    /// The greatest.
    pub most: usize,
    /// What it is where no option says it.
    pub default: u64,
    /// The refusal of any other.
    pub refusal: OptionRefusal,
}

/// How many trials a campaign has.
pub const TRIALS: Limits = Limits {
    most: MAX_TRIALS,
    default: 64,
    refusal: OptionRefusal::Shape(ShapeError::K5),
};

/// How many steps a random run attempts at most.
pub const ATTEMPTS: Limits = Limits {
    most: MAX_STEPS,
    default: 100_000,
    refusal: OptionRefusal::Shape(ShapeError::K6),
};

/// How many steps threads may take.
pub const LIMIT: Limits = Limits {
    most: MAX_STEPS,
    default: 100_000,
    refusal: OptionRefusal::Shape(ShapeError::K6),
};

/// How many stores a buffer holds.
pub const BUFFER: Limits = Limits {
    most: MAX_CAPACITY,
    default: 8,
    refusal: OptionRefusal::Shape(ShapeError::K7),
};

/// How many workers there are.
pub const WORKERS: Limits = Limits {
    most: MAX_WORKERS,
    default: 1,
    refusal: OptionRefusal::Workers,
};

/// How many states of a program are looked at.
pub const STATES: Limits = Limits {
    most: 4_294_967_295,
    default: 1_000_000,
    refusal: OptionRefusal::States,
};

/// How many runs a histogram counts.
pub const RUNS: Limits = Limits {
    most: 4_294_967_295,
    default: 1,
    refusal: OptionRefusal::Runs,
};

/// The number of the first line that is surveyed.
pub const FROM: Limits = Limits {
    most: usize::MAX,
    default: 1,
    refusal: OptionRefusal::Lines,
};

/// How many lines are surveyed at most.
pub const LINES: Limits = Limits {
    most: usize::MAX,
    default: 1,
    refusal: OptionRefusal::Lines,
};

/// The most events of the cycles that are listed.
pub const CYCLES: Limits = Limits {
    most: 16,
    default: 1,
    refusal: OptionRefusal::Cycles,
};

/// The seed where no option says it.
pub const DEFAULT_SEED: u64 = 0;

/// What is wrong with the machine where no option says it.
pub const DEFAULT_FAULT: Fault = Fault::None;

/// What the command line asks for.
#[derive(Drop)]
pub enum Options {
    /// `run`.
    Run(RunOptions),
    /// `judge`.
    Judge(JudgeOptions),
    /// `judge --long`.
    JudgeLong(FileOptions),
    /// `trials`.
    Trials(TrialsOptions),
    /// `live`.
    Live(LiveOptions),
    /// `replay`.
    Replay(FileOptions),
    /// `explain`.
    Explain(ExplainOptions),
    /// `draw`.
    Draw(DrawOptions),
    /// `reduce`.
    Reduce(ExplainOptions),
    /// `verify`.
    Verify(VerifyOptions),
    /// `survey`.
    Survey(SurveyOptions),
    /// `merge`.
    Merge(MergeOptions),
    /// `outcomes`.
    Outcomes(OutcomesOptions),
    /// `complete`.
    Complete(CompleteOptions),
    /// `make`.
    Make(MakeOptions),
}

/// What `run` is asked: the names of the program and of the script, the machine and the steps of a random run, and how
/// many runs are counted.
#[derive(Drop)]
pub struct RunOptions {
    /// The name of the program.
    pub program: String,
    /// The name of the script; none asks for random steps.
    pub steps: Option<String>,
    /// The seed of random steps.
    pub seed: u64,
    /// How many random steps are attempted at most, 1 to `MAX_STEPS`.
    pub attempts: usize,
    /// How many stores a buffer holds, 1 to `MAX_CAPACITY`.
    pub buffer: usize,
    /// What is wrong with the machine.
    pub fault: Fault,
    /// How many random runs a histogram counts, 1 to 2^32 - 1; none asks for one run and its recording.
    pub runs: Option<usize>,
    /// How many workers share these runs at most, 1 to `MAX_WORKERS`.
    pub workers: usize,
}

/// What `judge` is asked without `--long`: the name of the recording, and how many workers judge it at most.
#[derive(Drop)]
pub struct JudgeOptions {
    /// The name of the recording.
    pub file: String,
    /// How many workers judge it at most, 1 to `MAX_WORKERS`.
    pub workers: usize,
}

/// What `trials` is asked: the campaign, the workers, the trial that is shown, and how it and progress are.
#[derive(Drop)]
pub struct TrialsOptions {
    /// The campaign; of a shard the trials of the shard alone, of which the first has the number 0.
    pub campaign: Campaign,
    /// How many workers share the trials at most, 1 to `MAX_WORKERS`.
    pub workers: usize,
    /// The trial that is shown instead of the counts, below the number of trials.
    pub show: Option<usize>,
    /// Whether of a violation that is shown only the events are that it needs.
    pub reduce: bool,
    /// Whether the counts have a header.
    pub header: bool,
    /// Whether no progress is shown.
    pub quiet: bool,
}

/// What `replay` and `judge --long` are asked: the name of the recording.
#[derive(Drop)]
pub struct FileOptions {
    /// The name of the recording.
    pub file: String,
}

/// What `explain` and `reduce` are asked: the name of the recording and the most that it may have, and the names of the
/// program that names its addresses and of the labels of its events.
#[derive(Drop)]
pub struct ExplainOptions {
    /// The name of the recording.
    pub file: String,
    /// The most that the recording may have.
    pub size: RecordingSize,
    /// The name of the program; none asks for the usual names.
    pub program: Option<String>,
    /// The name of the labels; none asks for none.
    pub labels: Option<String>,
}

/// What `draw` is asked: the recording, and which of its events are drawn.
#[derive(Drop)]
pub struct DrawOptions {
    /// The recording, and the program that names its addresses.
    pub recording: ExplainOptions,
    /// Whether all events are drawn, not only those that a violation needs.
    pub all: bool,
}

/// What `verify` is asked: the names of the recording and of the text of a verdict, how large the recording may be, and
/// how many workers check the labels.
#[derive(Drop)]
pub struct VerifyOptions {
    /// The name of the recording.
    pub recording: String,
    /// The name of the text.
    pub verdict: String,
    /// How large the recording may be; the text is that of a verdict, or of an answer to a long one.
    pub size: RecordingSize,
    /// How many workers check the labels at most, 1 to `MAX_WORKERS`.
    pub workers: usize,
}

/// What `survey` is asked: the name of the recordings, what is reported of them, and the workers.
#[derive(Drop)]
pub struct SurveyOptions {
    /// The name of the recordings.
    pub file: String,
    /// Whether each recording has a line, before the counts.
    pub each: bool,
    /// The recording that is shown instead of the lines and the counts, from 0.
    pub show: Option<usize>,
    /// Whether of a violation that is shown only the events are that it needs.
    pub reduce: bool,
    /// How many workers share the recordings at most, 1 to `MAX_WORKERS`.
    pub workers: usize,
    /// Whether no progress is shown.
    pub quiet: bool,
    /// Whether recordings are judged within the large limits.
    pub long: bool,
    /// Where the lines are values that are completed, how many states are looked at at most for each, 1 to 2^32 - 1.
    pub complete: Option<usize>,
    /// The number of the first line that is surveyed, from 1.
    pub from: usize,
    /// How many lines are surveyed at most, 1 or more; none sets no limit.
    pub lines: Option<usize>,
    /// Whether the counts have a header.
    pub header: bool,
}

/// What `merge` is asked: the names of the texts, and whether some trials or lines may be missing.
#[derive(Drop)]
pub struct MergeOptions {
    /// The names of the texts, one at least.
    pub files: Vec<String>,
    /// Whether what is missing between texts with headers is counted, not refused.
    pub partial: bool,
}

/// What `live` is asked: the name of the program, the capacity of each buffer, how many steps may be taken, and how
/// many runs are counted.
#[derive(Drop)]
pub struct LiveOptions {
    /// The name of the program.
    pub program: String,
    /// How many stores a buffer holds, 1 to `MAX_CAPACITY`.
    pub buffer: usize,
    /// How many steps may be taken, 1 to `MAX_STEPS`.
    pub limit: usize,
    /// How many runs a histogram counts, 1 to 2^32 - 1; none asks for one run and its recording.
    pub runs: Option<usize>,
}

/// What `outcomes` is asked: the name of the program, what is asked of its outcomes, and how many states are looked at.
#[derive(Drop)]
pub struct OutcomesOptions {
    /// The name of the program.
    pub program: String,
    /// What is asked of its outcomes.
    pub question: Question,
    /// How many states are looked at at most, 1 to 2^32 - 1.
    pub states: usize,
}

/// What `complete` is asked: the name of the values of a run, and how many states are looked at.
#[derive(Drop)]
pub struct CompleteOptions {
    /// The name of the values.
    pub file: String,
    /// How many states are looked at at most, 1 to 2^32 - 1.
    pub states: usize,
}

/// What `make` is asked.
#[derive(Drop)]
pub enum MakeOptions {
    /// The program and the recording of these words of a cycle.
    Cycle(String),
    /// The critical cycles.
    All {
        /// How many events they have at most, 1 to 16.
        events: usize,
        /// Whether those alone are listed that TSO forbids.
        forbidden: bool,
    },
}

/// What is asked of the outcomes of a program.
#[derive(Drop)]
pub enum Question {
    /// All of them.
    All,
    /// Whether they have what a log says.
    Observed {
        /// The name of the log.
        file: String,
        /// Whether the outcomes that no line shows are printed.
        unseen: bool,
        /// Whether it is printed why TSO forbids the first forbidden line.
        why: bool,
    },
    /// Whether one has these items.
    Exists(String),
    /// Whether none has these items.
    Never(String),
    /// A recording of the first with these items.
    Show(String),
}

/// Why the entries of words that `clap` takes are refused. Where several apply, the first in this order
/// is answered.
#[derive(Clone, Copy, Drop)]
pub enum OptionRefusal {
    /// K1 to K7: the sizes of programs, the number of trials, of attempts (of `live` the limit), or the
    /// buffer's capacity.
    Shape(ShapeError),
    /// K8: the number of workers is not from 1 to `MAX_WORKERS`.
    Workers,
    /// K9: the fault's name is none of the six.
    Fault,
    /// K10: the trial to show is not below the number of trials.
    Show,
    /// K12: the number of states is not from 1 to 2^32 - 1.
    States,
    /// K13: the number of runs is not from 1 to 2^32 - 1.
    Runs,
    /// K14: the number of events is not from 1 to 16.
    Cycles,
    /// K15: the text of a shard is not `I/N` with I from 1 to N, N at most 2^32 - 1. It comes before K5.
    Shard,
    /// K16: the number of the first line, or of lines, is 0.
    Lines,
}

/// Options that don't go together.
#[derive(Clone, Copy, Debug, Drop)]
pub enum Misfit {
    /// `--each` reports all recordings, and `--show` one of them instead.
    EachWithShow,
    /// `--header` says what is counted, and `--show` shows a trial instead.
    HeaderWithShow,
    /// `--header` says what is counted, and `--each` prints lines before the counts.
    HeaderWithEach,
    /// `--header` is for counts that are merged, and those of values are not.
    HeaderWithComplete,
    /// `--header` of a survey says how many lines are surveyed at most.
    HeaderWithoutLines,
    /// `--complete` counts what values come to, and `--show` shows a verdict instead.
    CompleteWithShow,
    /// `--reduce` cuts down what `--show` shows.
    ReduceWithoutShow,
    /// `--states` of a survey belongs to `--complete`.
    StatesWithoutComplete,
    /// Two of `--observed`, `--exists`, `--never` and `--show` ask different things.
    TwoQuestions,
    /// `--unseen` belongs to `--observed`.
    UnseenWithoutObserved,
    /// `--why` belongs to `--observed`.
    WhyWithoutObserved,
    /// `--runs` counts random runs, and `--steps` names the steps of one.
    RunsWithSteps,
    /// `--workers` of `run` share the runs of `--runs`.
    WorkersWithoutRuns,
    /// `--long` takes large recordings, and `--complete` takes values.
    CompleteWithLong,
    /// `--long` shows the answer to a recording whole, and `--reduce` shows what is left of one.
    ReduceWithLong,
    /// `--long` needs no thread, and `--workers` shares work among some.
    WorkersWithLong,
    /// A program names the addresses of a recording that is no larger, and `--long` takes larger ones.
    ProgramWithLong,
    /// `make` makes one cycle, and `--all` lists cycles instead.
    CycleWithAll,
    /// `make` asks for a cycle or for `--all`.
    NoCycle,
    /// `--forbidden` belongs to `--all`.
    ForbiddenWithoutAll,
}

impl Misfit {
    /// What `clap` says of such options.
    fn message(self) -> &'static str {
        match self {
            Misfit::EachWithShow => "error: the argument '--show <K>' cannot be used with '--each'",
            Misfit::HeaderWithShow => {
                "error: the argument '--show <K>' cannot be used with '--header'"
            }
            Misfit::HeaderWithEach => "error: the argument '--header' cannot be used with '--each'",
            Misfit::HeaderWithComplete => {
                "error: the argument '--header' cannot be used with '--complete'"
            }
            Misfit::HeaderWithoutLines => {
                "error: the following required arguments were not provided:\n  --lines <N>"
            }
            Misfit::CompleteWithShow => {
                "error: the argument '--show <K>' cannot be used with '--complete'"
            }
            Misfit::ReduceWithoutShow => {
                "error: the following required arguments were not provided:\n  --show <K>"
            }
            Misfit::StatesWithoutComplete => {
                "error: the following required arguments were not provided:\n  --complete"
            }
            Misfit::TwoQuestions => {
                "error: only one of '--observed', '--exists', '--never' and '--show' can be used"
            }
            Misfit::UnseenWithoutObserved | Misfit::WhyWithoutObserved => {
                "error: the following required arguments were not provided:\n  --observed <FILE>"
            }
            Misfit::RunsWithSteps => {
                "error: the argument '--runs <N>' cannot be used with '--steps <FILE>'"
            }
            Misfit::WorkersWithoutRuns => {
                "error: the following required arguments were not provided:\n  --runs <N>"
            }
            Misfit::CompleteWithLong => {
                "error: the argument '--complete' cannot be used with '--long'"
            }
            Misfit::ReduceWithLong => "error: the argument '--reduce' cannot be used with '--long'",
            Misfit::WorkersWithLong => {
                "error: the argument '--workers <N>' cannot be used with '--long'"
            }
            Misfit::CycleWithAll => {
                "error: the argument '[WORD]...' cannot be used with '--all <N>'"
            }
            Misfit::NoCycle => {
                "error: the following required arguments were not provided:\n  <WORD>..."
            }
            Misfit::ForbiddenWithoutAll => {
                "error: the following required arguments were not provided:\n  --all <N>"
            }
            Misfit::ProgramWithLong => {
                "error: the argument '--program <PROGRAM>' cannot be used with '--long'"
            }
        }
    }
}

impl Display for Misfit {
    fn fmt<W: Write>(&self, f: &mut Formatter<W>) -> fmt::Result {
        f.write_str(self.message())?;
        f.write_str("\n\nFor more information, try '--help'.")
    }
}

/// Why the words gave no options.
#[derive(Drop)]
pub enum OptionStop {
    /// What `clap` says: an error of the command line, or the help that was asked for.
    Clap(clap::Error),
    /// The words ask what refusals mean.
    RefusalMeanings,
    /// The words ask what this refusal means.
    RefusalMeaning(Refusal<&'static str>),
    /// `clap` takes the words, and `-` stands for two inputs.
    StandardInputTwice,
    /// `clap` takes the words, and these options don't go together.
    Misfit(Misfit),
    /// `clap` takes the words, and this is the first refusal of their entries.
    Refused(OptionRefusal),
    /// There is no memory.
    OutOfMemory,
}

impl From<AllocError> for OptionStop {
    ghost use Rattle.std.specs.Prelude.{◌≡◌};
    ghost use Rattle.command_line.specs.declared.options.OptionStop.TheVariants.{OutOfMemory};

    ghost from_gives = { λ _ e. e ≡ OutOfMemory };

    fn from(_refused: AllocError) -> OptionStop {
        OptionStop::OutOfMemory
    }
}

impl From<clap::Error> for OptionStop {
    ghost use Rattle.command_line.specs.Options.{IsSaid};

    ghost from_gives = { IsSaid };

    fn from(error: clap::Error) -> OptionStop {
        if error.kind() == ErrorKind::OutOfMemory {
            return OptionStop::OutOfMemory;
        }
        OptionStop::Clap(error)
    }
}

impl From<OptionRefusal> for OptionStop {
    ghost use Rattle.std.specs.Prelude.{◌≡◌};
    ghost use Rattle.command_line.specs.declared.options.OptionStop.TheVariants.{Refused};

    ghost from_gives = { λ refusal e. e ≡ Refused refusal };

    fn from(refusal: OptionRefusal) -> OptionStop {
        OptionStop::Refused(refusal)
    }
}
