//! The commands, and what each takes: one row for each argument and option.
ghost use Rattle.std.specs.Prelude.{◌≡◌, drop, map, take, true};
ghost use Rattle.command_line.specs.Commands.{commands, row_of};
ghost use Rattle.command_line.specs.Help.{has_right_help};

/// What an argument or an option takes.
#[derive(Clone, Copy, Drop)]
pub enum Takes {
    /// A name, which has to be given and stands without `--`.
    Place,
    /// Texts, which may be left out and stand without `--`.
    MaybePlaces,
    /// Names, of which one at least has to be given and which stand without `--`.
    Places,
    /// A text, which may be left out.
    Text,
    /// The text of `--show`, which may be left out. Its name is not `show`: of other commands that is a number.
    Shown,
    /// A number of 64 bits, which may be left out.
    Number,
    /// The number of `--all`, which may be left out. Its name is not `all`: of another command that is a flag.
    Most,
    /// A number of 64 bits that has to be given.
    Size,
    /// No value.
    Nothing,
}

/// An argument or an option.
#[derive(Clone, Copy, Drop)]
pub struct ArgumentRow {
    /// Its name.
    pub name: &'static str,
    /// What it takes.
    pub takes: Takes,
    /// The name of its value in the help, where it has one.
    pub value: &'static str,
    /// What the help says of it.
    pub help: &'static str,
}

/// A command.
#[derive(Clone, Copy, Drop)]
pub struct CommandRow {
    /// Its name.
    pub name: &'static str,
    /// Its arguments and options, in the order of the help.
    pub arguments: &'static [ArgumentRow],
}

const PROGRAM: ArgumentRow = ArgumentRow {
    name: "PROGRAM",
    takes: Takes::Place,
    value: "",
    help: "The litmus program: a file, or - for standard input",
};

const FILE: ArgumentRow = ArgumentRow {
    name: "FILE",
    takes: Takes::Place,
    value: "",
    help: "The recording: a file, or - for standard input",
};

const RECORDING: ArgumentRow = ArgumentRow {
    name: "RECORDING",
    takes: Takes::Place,
    value: "",
    help: "The recording: a file, or - for standard input",
};

const RECORDINGS: ArgumentRow = ArgumentRow {
    name: "FILE",
    takes: Takes::Place,
    value: "",
    help: "The recordings, one a line: a file, or - for standard input",
};

const TEXTS: ArgumentRow = ArgumentRow {
    name: "FILE",
    takes: Takes::Places,
    value: "",
    help: "The texts of campaigns, or those of surveys: files, or - for standard input",
};

const VERDICT: ArgumentRow = ArgumentRow {
    name: "VERDICT",
    takes: Takes::Place,
    value: "",
    help: "The text of a verdict: a file, or - for standard input",
};

const NAMES: ArgumentRow = ArgumentRow {
    name: "program",
    takes: Takes::Text,
    value: "PROGRAM",
    help: "The program that was recorded, which names the addresses: a file, or - for standard input",
};

const STEPS: ArgumentRow = ArgumentRow {
    name: "steps",
    takes: Takes::Text,
    value: "FILE",
    help: "The script: a file of at most 1000000 lines, or - for standard input; without it steps are random",
};

const RUNS: ArgumentRow = ArgumentRow {
    name: "runs",
    takes: Takes::Number,
    value: "N",
    help: "Counts the outcomes of N runs, from 1 to 4294967295, instead of showing one",
};

const SEED: ArgumentRow = ArgumentRow {
    name: "seed",
    takes: Takes::Number,
    value: "N",
    help: "The seed of what is random, any number of 64 bits [default: 0]",
};

const CORES: ArgumentRow = ArgumentRow {
    name: "cores",
    takes: Takes::Size,
    value: "N",
    help: "Cores of each program, from 1 to 16",
};

const OPS: ArgumentRow = ArgumentRow {
    name: "ops",
    takes: Takes::Size,
    value: "N",
    help: "Operations of each core, from 1 to 512, and at most 512 over all cores",
};

const ADDRESSES: ArgumentRow = ArgumentRow {
    name: "addresses",
    takes: Takes::Size,
    value: "N",
    help: "Addresses that operations are drawn from, from 1 to 16",
};

const TRIALS: ArgumentRow = ArgumentRow {
    name: "trials",
    takes: Takes::Number,
    value: "N",
    help: "Programs that are made and run, from 1 to 65536 [default: 64]",
};

const SHARD: ArgumentRow = ArgumentRow {
    name: "shard",
    takes: Takes::Text,
    value: "I/N",
    help: "Runs the I-th of N parts of the trials alone, from 1",
};

const ATTEMPTS: ArgumentRow = ArgumentRow {
    name: "attempts",
    takes: Takes::Number,
    value: "N",
    help: "The most random steps that a run attempts, from 1 to 1000000 [default: 100000]",
};

const LIMIT: ArgumentRow = ArgumentRow {
    name: "limit",
    takes: Takes::Number,
    value: "N",
    help: "Steps that may be taken, from 1 to 1000000 [default: 100000]",
};

const BUFFER: ArgumentRow = ArgumentRow {
    name: "buffer",
    takes: Takes::Number,
    value: "N",
    help: "Stores that a buffer holds, from 1 to 512 [default: 8]",
};

const FAULT: ArgumentRow = ArgumentRow {
    name: "fault",
    takes: Takes::Text,
    value: "NAME",
    help: "A fault: none, no-bypass, youngest-first, open-fence, stale-share, early-rmw [default: none]",
};

const WORKERS: ArgumentRow = ArgumentRow {
    name: "workers",
    takes: Takes::Number,
    value: "N",
    help: "The most threads that share the work, from 1 to 32 [default: 1]",
};

const SHOW: ArgumentRow = ArgumentRow {
    name: "show",
    takes: Takes::Number,
    value: "K",
    help: "Shows trial K, from 0 and below the number of trials, instead of the counts",
};

const SHOW_RECORDING: ArgumentRow = ArgumentRow {
    name: "show",
    takes: Takes::Number,
    value: "K",
    help: "Shows the verdict on recording K, from 0, instead of the counts; not with --each",
};

const EACH: ArgumentRow = ArgumentRow {
    name: "each",
    takes: Takes::Nothing,
    value: "",
    help: "Prints a line for each recording, as soon as those before it are judged, before the counts",
};

const FROM: ArgumentRow = ArgumentRow {
    name: "from",
    takes: Takes::Number,
    value: "N",
    help: "The first line that is surveyed [default: 1]",
};

const LINES: ArgumentRow = ArgumentRow {
    name: "lines",
    takes: Takes::Number,
    value: "N",
    help: "The most lines that are surveyed [default: all]",
};

const REDUCE: ArgumentRow = ArgumentRow {
    name: "reduce",
    takes: Takes::Nothing,
    value: "",
    help: "Shows of a violation only the events that it needs; only with --show",
};

const COMPLETE: ArgumentRow = ArgumentRow {
    name: "complete",
    takes: Takes::Nothing,
    value: "",
    help: "Takes the lines for values, and says of each whether TSO allows it; not with --show",
};

const LONG: ArgumentRow = ArgumentRow {
    name: "long",
    takes: Takes::Nothing,
    value: "",
    help: "Takes up to 16777216 events of 1024 cores over 65536 addresses; not with --workers",
};

const LONG_RECORDING: ArgumentRow = ArgumentRow {
    name: "long",
    takes: Takes::Nothing,
    value: "",
    help: "Takes up to 16777216 events of 1024 cores over 65536 addresses; not with --program",
};

const LONG_LINES: ArgumentRow = ArgumentRow {
    name: "long",
    takes: Takes::Nothing,
    value: "",
    help: "Takes recordings as `judge --long` does; not with --complete or --reduce",
};

const HEADER: ArgumentRow = ArgumentRow {
    name: "header",
    takes: Takes::Nothing,
    value: "",
    help: "Prints the command that prints these counts before them, for `merge`",
};

const PARTIAL: ArgumentRow = ArgumentRow {
    name: "partial",
    takes: Takes::Nothing,
    value: "",
    help: "Adds up the trials or lines that are there, and prints how many are missing between them",
};

const QUIET: ArgumentRow = ArgumentRow {
    name: "quiet",
    takes: Takes::Nothing,
    value: "",
    help: "Shows no progress on standard error",
};

const WORDS: ArgumentRow = ArgumentRow {
    name: "words",
    takes: Takes::Nothing,
    value: "",
    help: "Explains a refusal or an error on standard error, as on a terminal",
};

const ALL: ArgumentRow = ArgumentRow {
    name: "all",
    takes: Takes::Nothing,
    value: "",
    help: "Draws all events, not only those that a violation needs",
};

const VALUES: ArgumentRow = ArgumentRow {
    name: "FILE",
    takes: Takes::Place,
    value: "",
    help: "The values of a run: a file, or - for standard input",
};

const STATES: ArgumentRow = ArgumentRow {
    name: "states",
    takes: Takes::Number,
    value: "N",
    help: "The most states that are looked at, from 1 to 4294967295 [default: 1000000]",
};

const LABELS: ArgumentRow = ArgumentRow {
    name: "labels",
    takes: Takes::Text,
    value: "FILE",
    help: "Shows a label beside each event, a line of this file for each: a file, or - for standard input",
};

const OBSERVED: ArgumentRow = ArgumentRow {
    name: "observed",
    takes: Takes::Text,
    value: "FILE",
    help: "Says of each line of a log whether TSO allows it: a file, or - for standard input",
};

const UNSEEN: ArgumentRow = ArgumentRow {
    name: "unseen",
    takes: Takes::Nothing,
    value: "",
    help: "Prints the allowed outcomes that no line of the log shows, with --observed",
};

const WHY: ArgumentRow = ArgumentRow {
    name: "why",
    takes: Takes::Nothing,
    value: "",
    help: "Prints what `complete` says of the first forbidden line with all reads, with --observed",
};

const EXISTS: ArgumentRow = ArgumentRow {
    name: "exists",
    takes: Takes::Text,
    value: "ITEMS",
    help: "Says whether some outcome has these items, such as '0:r0=0 1:r0=0'",
};

const NEVER: ArgumentRow = ArgumentRow {
    name: "never",
    takes: Takes::Text,
    value: "ITEMS",
    help: "Says whether no outcome has these items",
};

const CYCLE: ArgumentRow = ArgumentRow {
    name: "WORD",
    takes: Takes::MaybePlaces,
    value: "",
    help: "The words of a cycle, such as PodWW Rfe PodRR Fre",
};

const ALL_CYCLES: ArgumentRow = ArgumentRow {
    name: "cycles",
    takes: Takes::Most,
    value: "N",
    help: "Lists the critical cycles of at most N events, from 1 to 16, a line each",
};

const FORBIDDEN: ArgumentRow = ArgumentRow {
    name: "forbidden",
    takes: Takes::Nothing,
    value: "",
    help: "Lists those alone that TSO forbids, with --all",
};

const SHOW_ITEMS: ArgumentRow = ArgumentRow {
    name: "items",
    takes: Takes::Shown,
    value: "ITEMS",
    help: "Shows how the first outcome with these items comes about: a program, a script and a recording",
};

// The commands stand in the order of the help, in several constants: a proof about one with all their texts takes long.

const RUNNING: &[CommandRow] = &[
    CommandRow {
        name: "run",
        arguments: &[
            PROGRAM, STEPS, SEED, ATTEMPTS, BUFFER, FAULT, RUNS, WORKERS, WORDS,
        ],
    },
    CommandRow {
        name: "judge",
        arguments: &[FILE, WORKERS, LONG, WORDS],
    },
    CommandRow {
        name: "trials",
        arguments: &[
            CORES, OPS, ADDRESSES, SEED, TRIALS, SHARD, ATTEMPTS, BUFFER, FAULT, WORKERS, SHOW,
            REDUCE, HEADER, QUIET, WORDS,
        ],
    },
    CommandRow {
        name: "live",
        arguments: &[PROGRAM, BUFFER, LIMIT, RUNS, WORDS],
    },
    CommandRow {
        name: "replay",
        arguments: &[FILE, WORDS],
    },
];

const EXPLAINING: &[CommandRow] = &[
    CommandRow {
        name: "explain",
        arguments: &[FILE, NAMES, LABELS, LONG_RECORDING, WORDS],
    },
    CommandRow {
        name: "draw",
        arguments: &[FILE, NAMES, LABELS, ALL, LONG_RECORDING, WORDS],
    },
    CommandRow {
        name: "reduce",
        arguments: &[FILE, NAMES, LABELS, LONG_RECORDING, WORDS],
    },
    CommandRow {
        name: "verify",
        arguments: &[RECORDING, VERDICT, LONG, WORKERS, WORDS],
    },
];

const COUNTING: &[CommandRow] = &[
    CommandRow {
        name: "survey",
        arguments: &[
            RECORDINGS,
            FROM,
            LINES,
            WORKERS,
            EACH,
            SHOW_RECORDING,
            REDUCE,
            COMPLETE,
            STATES,
            LONG_LINES,
            HEADER,
            QUIET,
            WORDS,
        ],
    },
    CommandRow {
        name: "merge",
        arguments: &[TEXTS, PARTIAL, WORDS],
    },
];

const ASKING: &[CommandRow] = &[
    CommandRow {
        name: "outcomes",
        arguments: &[
            PROGRAM, STATES, OBSERVED, UNSEEN, WHY, EXISTS, NEVER, SHOW_ITEMS, WORDS,
        ],
    },
    CommandRow {
        name: "complete",
        arguments: &[VALUES, STATES, WORDS],
    },
    CommandRow {
        name: "make",
        arguments: &[CYCLE, ALL_CYCLES, FORBIDDEN, WORDS],
    },
];

/// The first five commands, which run programs or judge.
pub fn running() -> &'static [CommandRow]
    ensures rows { map row_of result.now ≡ take 5 commands }
    ensures help { has_right_help result.now ≡ true }
{
    RUNNING
}

/// The next four, which say what a recording or a verdict is worth.
pub fn explaining() -> &'static [CommandRow]
    ensures rows { map row_of result.now ≡ take 4 (drop 5 commands) }
    ensures help { has_right_help result.now ≡ true }
{
    EXPLAINING
}

/// The next two, which count.
pub fn counting() -> &'static [CommandRow]
    ensures rows { map row_of result.now ≡ take 2 (drop 9 commands) }
    ensures help { has_right_help result.now ≡ true }
{
    COUNTING
}

/// The last three, which ask what TSO allows.
pub fn asking() -> &'static [CommandRow]
    ensures rows { map row_of result.now ≡ drop 11 commands }
    ensures help { has_right_help result.now ≡ true }
{
    ASKING
}
