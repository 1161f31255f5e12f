//! What the pages of the help say.

/// What a page of the help says.
#[derive(Clone, Copy, Drop)]
pub struct Page {
    /// In one line.
    pub about: &'static str,
    /// At length.
    pub more: &'static str,
    /// Of the exit status, with examples.
    pub statuses: &'static str,
}

/// The page of the program.
const PROGRAM: Page = Page {
    about: "Runs multiprocessor programs under total store order (TSO)",
    more: "",
    statuses: "Exit status:
  0  TSO allows the recording; of `trials`, every recording
  1  an error of the command line, a file, memory or a thread, as standard error says
  2  the recording is a violation of TSO; of `trials`, at least one is
  3  a text, a number or a name was refused, as the line `refused: ..` says, and
     `tsotest help refusals` what it means
  4  the run is unfinished; of `trials`, at least one is, and none is a violation

Examples:
  tsotest judge recording.json
  tsotest explain recording.json
  tsotest draw recording.json | dot -Tsvg > recording.svg
  tsotest reduce recording.json
  tsotest replay recording.json
  tsotest run store_buffering.litmus
  tsotest run store_buffering.litmus --steps store_buffering.steps
  tsotest trials --cores 2 --ops 8 --addresses 2 --trials 1000
  tsotest outcomes store_buffering.litmus",
};

const RUN: Page = Page {
    about: "Runs a litmus program by a script or by random steps and judges its recording",
    more: "Runs a litmus program by a script or by random steps, prints its recording and judges it.

A program has a line `core` for each core, and after it a line for each of its operations:
`st NAME VALUE` stores, `ld NAME` loads, `fence` is a full fence; `swap NAME VALUE` writes,
`add NAME VALUE` adds, and `cas NAME EXPECT VALUE` writes where it reads what it expects,
each at once with reading the old value. After the last operation `init NAME VALUE` says
what an address begins with where that is not 0.

Each core has a store buffer and a MOESI cache in front of one memory. A script has a line
for each step: `exec C` executes the next operation of core C, and `drain C` writes the
oldest store of its buffer to its cache. `gets C NAME` gets core C a line of an address that
it may read, `getm C NAME` the only line, which it may write, and `put C NAME` gives it up.
A step that is blocked is skipped. Without a script each step is drawn at random, until the
program is complete or the attempts are used up; blocked steps count. The same seed draws
the same steps. With a script, seed and attempts are not used.

The recording is one line of JSON: what each operation read and wrote, for each address its
writes in memory order, and all initial values where one is not 0 or a `cas` failed. After
it comes the verdict, as `judge` prints it; of a run that is not complete only `unfinished`
is printed.

With `--runs N` the outcomes of N runs are counted instead, each with the next seed: a line
for each outcome, as litmus7 prints it, the most frequent first, with how often it occurred,
`*>` where one of its runs is a violation and else `:>`, and the seed of the first of its
runs; then how many runs are unfinished, if some are. `outcomes --observed` takes the text.
The counts do not depend on the number of workers, which go with `--runs` alone.

A machine may be wrong in one way, and may then record a violation: with `no-bypass` loads
don't look in their core's buffer, with `youngest-first` the youngest store drains first,
with `open-fence` fences and with `early-rmw` read-modify-writes don't wait for an empty
buffer, and with `stale-share` other cores keep old copies of a line that is written.",
    statuses: "Exit status:
  0  the run is complete, and TSO allows its recording
  1  an error of the command line, a file or memory, as standard error says
  2  the run is complete, and its recording is a violation of TSO: only with a fault
  3  a text, a number or a fault's name was refused, as the line `refused: ..` says
  4  the run is unfinished: an operation or a buffered store is left
  With `--runs`: 2 where a run is a violation, else 4 where one is unfinished, else 0

Examples:
  tsotest run store_buffering.litmus --steps store_buffering.steps
  tsotest run store_buffering.litmus --runs 1000",
};

const JUDGE: Page = Page {
    about: "Judges a recording: the least order that TSO allows, or why there is none",
    more: "Judges a recording.

`ordered:` and the numbers of the events are the first memory order, in dictionary order,
that TSO allows for the recording. `overlook: load L store S` names the least read that
comes after a store of its address on the same core and gives an older value, with the
least such store. `cycle of K` and its lines name the first shortest cycle of pairs of
events that every memory order has in order, each with its reason: Po (program order), Wo
(write order), Rf (reads-from) or Fr (from-read). The label lines show that no cycle is
shorter. In the last two cases TSO allows no order. The answer does not depend on the
number of workers.

With `--long` orders and overlooks are answered as without it. A cycle has no shortcut: no
event of it is forced before an event of it other than the next. It may not be the shortest,
and has no labels.",
    statuses: "Exit status:
  0  TSO allows the recording
  1  an error of the command line, a file or memory, as standard error says
  2  the recording is a violation of TSO
  3  the recording or a number was refused, as the line `refused: ..` says

Example:
  tsotest judge recording.json",
};

const TRIALS: Page = Page {
    about: "Makes random programs, runs each by random steps and counts the verdicts",
    more: "Makes random programs, runs each by random steps, judges the recordings and counts.

Trial k, from 0, draws its program and then its steps from the seed plus k. It prints, in
this order, a line each: `trials T`, how many there were; `ordered N`, how many recordings
TSO allows; `unfinished N`, how many runs did not come to their end; `overlook N`, how many
have a load that overlooks a store of its own core; for each length K that occurs, in
ascending order, `cycle K: N`, how many have no such load but a shortest cycle of K events;
and `first violation: trial k`, or `first violation: none`. The counts do not depend on the
number of workers.

A large program needs more steps than the 100000 that are attempted at most. Each trial ends
within `--attempts 200000` of 4 cores with 128 operations over 16 addresses, within 500000
of 8 with 64, and but for one in hundreds within 1000000 of 16 with 32.

Where standard error is a terminal, a campaign that lasts shows there how many trials are
done and how many violations were found, until its end; with `--quiet` it shows nothing.

To look at a violation, give the same options and `--show K` with its number: then, instead
of the counts, the trial's program is printed, an empty line, its recording and its verdict,
as by `run`, and the exit status is that of `run`. With `--reduce` a violation is cut down
first, as by `reduce`.

With `--header` the first line is the command that prints these counts, with all options
that matter to them. By it `merge` knows which trials they are of. What `--show` shows has
none.

With `--shard I/N` the I-th of N parts of the trials is run alone, as by `--seed` and
`--trials` of its own, which `--header` prints. All N parts have all trials, each one once;
so `--trials` may be any number below 2^64 then, if no part has more than 65536.",
    statuses: "Exit status:
  0  no trial is a violation, and none is unfinished
  1  an error of the command line or memory, as standard error says
  2  at least one trial is a violation of TSO: only with a fault
  3  a number or a fault's name was refused, as the line `refused: ..` says
  4  no trial is a violation, and at least one is unfinished

Examples:
  tsotest trials --cores 4 --ops 16 --addresses 4 --trials 1000 --workers 4
  tsotest trials --cores 2 --ops 64 --addresses 2 --trials 512 --fault stale-share
  tsotest trials --cores 2 --ops 64 --addresses 2 --trials 512 --fault stale-share --show 146",
};

const LIVE: Page = Page {
    about: "Runs a litmus program by threads and judges its recording",
    more: "Runs a litmus program by threads, prints its recording and judges it.

The machine is that of `run`. A thread for each core, one for the store buffers and one for
the caches take its steps under one lock, until the program is complete or the limit of
steps is reached. Two runs may differ. With `--runs N` the outcomes of N such runs are
counted instead, as by `run --runs`; a line ends in the number of the first of its runs.",
    statuses: "Exit status:
  0  the run is complete, and TSO allows its recording
  1  an error of the command line, a file, memory or a thread, as standard error says
  3  a text or a number was refused, as the line `refused: ..` says
  4  the run is unfinished: the limit of steps was reached before its end; with `--runs`,
     at least one is

Examples:
  tsotest live store_buffering.litmus
  tsotest live store_buffering.litmus --runs 1000",
};

const REPLAY: Page = Page {
    about: "Gives a program and a script whose run makes a recording again",
    more: "Gives a program and a script whose run makes a recording again.

The line `buffer N` says which `--buffer` is enough. After an empty line comes a litmus
program, which names its addresses a0, a1 and so on, and after another empty line a
script. The run performs the first memory order, in dictionary order, that TSO allows for
the recording. A violation is answered as by `judge`. The recording's addresses have to be
numbered in the order of their first use, and each has to be used.",
    statuses: "Exit status:
  0  TSO allows the recording
  1  an error of the command line, a file or memory, as standard error says
  2  the recording is a violation of TSO
  3  the recording was refused, as the line `refused: ..` says

Example:
  tsotest replay recording.json",
};

const EXPLAIN: Page = Page {
    about: "Says the verdict on a recording in words",
    more: "Says the verdict on a recording in words.

Each event of the verdict has a line with its number, its core, what it did, and where a
value that it read came from. The line below says, of a cycle, why the event comes before
the next one, and of an order what makes its place lawful. Of an overlook there are the
store, the load, and what the load read instead. The last line of a violation of loads,
stores and fences is its cycle in the words of the tool diy, with the name of the classic
test that has it. The addresses are named a0, a1 and so on, or as in the program of
--program, whose operations and initial values have to be those of the recording. With
`--labels` each event has the label that its line of this file is, such as a cycle or a pc,
of at most 64 bytes; an empty line is none.

With `--long` a recording may have as much as with `judge --long`, whose answer is said.",
    statuses: "Exit status:
  0  TSO allows the recording
  1  an error of the command line, a file or memory, as standard error says
  2  the recording is a violation of TSO
  3  the recording, the program or the labels were refused, as the line `refused: ..` says

Examples:
  tsotest explain recording.json --program store_buffering.litmus
  tsotest explain recording.json --labels cycles.txt",
};

const DRAW: Page = Page {
    about: "Draws the verdict on a recording as a graph",
    more: "Draws the verdict on a recording as a directed graph in the DOT language of Graphviz, of
which `dot -Tsvg` makes a picture.

Each core has its events in program order from top to bottom, each with its number, what it
did, and where a value that it read came from. Of a violation only the events that it needs
are drawn, which `reduce` prints, and how many were left out between two of a core. With
`--all` all events are drawn.

The edges are program order (po), black; reads-from (rf), red; coherence order (co), blue;
and from-read (fr), orange. The edges of a cycle are bold, and of an overlook those between
the store and the load. The others go to the next event of the core, from the write that was
read, to the next write of the address, and to the first write that is newer than what was
read. The events of an order stand in memory order, from top to bottom. The addresses are
named, and the events labelled, as by `explain`.

With `--long` a recording may have as much as with `judge --long`. Of a violation the part
is drawn that `reduce --long` prints. An order has all of its events drawn, so its picture
takes time and room by their square.",
    statuses: "Exit status:
  0  TSO allows the recording
  1  an error of the command line, a file or memory, as standard error says
  2  the recording is a violation of TSO
  3  the recording, the program or the labels were refused, as the line `refused: ..` says

Example:
  tsotest draw recording.json --program store_buffering.litmus | dot -Tsvg > recording.svg",
};

const REDUCE: Page = Page {
    about: "Cuts the recording of a violation down to the events that it needs",
    more: "Cuts the recording of a violation down to the events that it needs.

A violation needs the events of its verdict, the write that each of them read, and so on.
The line `events` has their numbers. After an empty line comes a litmus program of these
events alone, and after another empty line their recording and its verdict, which is the
same one with the numbers that they have there. The addresses are named a0, a1 and so on, or
as in the program of --program, whose operations and initial values have to be those of the
recording. With `--labels` the labels of these events follow the line `events`, a line each.
A recording that TSO allows is answered as by `judge`.

With `--long` a recording may have as much as with `judge --long`. The events of its answer
are kept, and the write that each of them read, which is a store where it is none of them.
The program and the verdict are printed where these are no more than 512 events of 16 cores
over 16 addresses; else the recording alone, and the answer of `judge --long` to it.",
    statuses: "Exit status:
  0  TSO allows the recording
  1  an error of the command line, a file or memory, as standard error says
  2  the recording is a violation of TSO
  3  the recording, the program or the labels were refused, as the line `refused: ..` says

Example:
  tsotest reduce recording.json --program store_buffering.litmus",
};

const VERIFY: Page = Page {
    about: "Checks whether the text of a verdict holds of a recording, whoever gave it",
    more: "Checks whether the text of a verdict holds of a recording, whoever gave it.

A verdict carries its proof. An order holds if it is any order that TSO allows, an overlook
if the load overlooks the store, and a cycle if each pair has its reason and the labels show
that no cycle is shorter. The answer is `holds`, or `does not hold: line N`, where line N is
the first at fault, or `does not hold` where lines are missing.

With `--long` a recording may have as much as with `judge --long`. The text is one that this
prints: a cycle holds if each pair has its reason, whatever its length, and has no labels.",
    statuses: "Exit status:
  0  the verdict holds
  1  an error of the command line, a file or memory, as standard error says
  2  it does not hold
  3  the recording or a number was refused, as the line `refused: ..` says

Example:
  tsotest verify recording.json recording.verdict",
};

const SURVEY: Page = Page {
    about: "Judges many recordings, one a line, and counts the verdicts",
    more: "Judges many recordings, one a line, and counts the verdicts.

What `run`, `live` and `trials --show` print as a recording is one line. Recordings are
numbered from 0; an empty line is none. It prints, in this order, a line each:
`recordings N`, how many there are; `ordered N`, how many TSO allows; `refused N`, how many
are none; `overlook N` and, for each length K that occurs, in ascending order, `cycle K: N`,
as `trials`; `first violation: recording K` and `first refused: recording K`, or `none`.

With `--each` each recording has a line first, such as `0 ordered`, `1 overlook: load 1
store 0`, `2 cycle of 4` or `3 refused: N5 event 1`, as soon as it and those before it are
judged; then comes an empty line. With `--show K` only recording K is answered, as by
`judge`, or with `--reduce` as by `reduce`. Memory is that of some megabytes, or of the
longest line, however long the input is. The answer does not depend on the number of
workers.

With `--from F` and `--lines N` only lines F to F + N - 1 are surveyed, as if the input had
no others. Lines are numbered from 1, the empty ones among them. So one file is dealt out to
several commands; with `--header`, which asks for `--lines`, each one's first line says which
lines it counts, and `merge` adds them up.

With `--long` a recording may have as much as with `judge --long`, which judges it. The
cycle that it finds counts with its length, or in `cycle over 512: N`, after all `cycle K`.

With `--complete` each line has values alone, as `complete` reads them. It prints
`recordings N`, how many there are; `ordered N`, how many TSO allows; `impossible N`, how
many it does not; `unfinished N`, for how many there are more states than `--states` allows;
`unread N`, how many are no values; and the first of each of these three: `first impossible:
recording K`, `first unfinished: recording K`, `first unread: recording K`, or `none`. With
`--each` a line is such as `0 ordered`, `1 impossible`, `2 unfinished` or `3 refused: N2`.

Where standard error is a terminal, a survey that lasts shows there how many recordings are
done and how many violations were found, until its end; with `--quiet` it shows nothing.",
    statuses: "Exit status:
  0  TSO allows each recording, or the values of each
  1  an error of the command line, a file or memory, as standard error says
  2  at least one recording is a violation of TSO, or one's values are impossible
  3  no recording is a violation, and at least one was refused; or there is no recording K,
     or a number was refused, as the line `refused: ..` says
  4  none is a violation or refused, and at least one is unfinished

Examples:
  cat nightly/*.json | tsotest survey - --workers 4
  tsotest survey chip.jsonl --complete --workers 4
  tsotest survey nightly.jsonl --show 2 --reduce
  tsotest survey nightly.jsonl --from 4097 --lines 4096 --header",
};

const MERGE: Page = Page {
    about: "Adds up the counts of many campaigns, or of many surveys",
    more: "Adds up the counts of many campaigns, or of many surveys.

The files have what `trials` prints, or all what `survey` prints: each one text or more,
whole, one after another. What is printed is the one text of them all, in the order in
which they are named: counts are added, and `first violation: trial k` counts k through all
of them. So campaigns of n trials each with the seeds s, s + n, s + 2n, .. merge to the text
of all trials from s on, whoever ran them, and where.

Where texts begin with a header, as by `trials --header` or `survey --header`, all do, of
one campaign, or of one survey, in any order: each seed or line is in one of them, from the
first to the last. The text of them all has a header, too. With `--partial` some may be
missing: `missing N`, after the header, says how many, and the first violation of trials is
counted from the first seed, those that are missing, too.

A text that no list of outcomes has is refused, with its file and its line: counts that
don't add up, lengths of cycles out of order or past 512 or with a count of 0, or a first
violation or refusal that its counts leave no room for.",
    statuses: "Exit status:
  0  no trial or recording is a violation, and each is judged
  1  an error of the command line, a file or memory, as standard error says
  2  at least one trial or recording is a violation of TSO
  3  a text was refused, as the line `refused: ..` says; or of surveys, no recording is a
     violation, and at least one was refused
  4  of campaigns, no trial is a violation, and at least one is unfinished

Examples:
  tsotest merge shards/*.txt
  tsotest merge shards/*.txt --partial",
};

const OUTCOMES: Page = Page {
    about: "Prints every outcome that TSO allows of a litmus program",
    more: "Prints every outcome that TSO allows of a litmus program.

`outcomes: N` says how many there are. Each has a line then: `C:rK=V;` is what the K-th
reading operation of core C read, from 0 (`ld`, `swap`, `add` and `cas` read), and
`[NAME]=V;` what an address ends with. They are in order of these numbers.

With `--observed` each line of a log is answered instead: its items, in any order and some
perhaps left out, between spaces, with `x=1;` for `[x]=1;` too, after a count and `*>` or
`:>`, if there are any, as litmus7 prints it. A line without `=` and `;` in a word is passed
over, and one that begins with `{`. Printed is `allowed` or `forbidden`, the count and the
items; then `allowed: N` and `forbidden: N`, how many lines, and `unseen: N`, how many
allowed outcomes no line shows, with `--unseen` their lines. With `--why` comes an empty line
and what `complete` prints of the values of the first forbidden line that has all reads.

With `--exists` or `--never`, `Yes` or `No` says whether some outcome has all of the items,
or none; between items stands a space or `/\\`.

With `--show` stands a recording of the first outcome that has all of the items, after what
`replay` prints of it: `buffer N`, a program and a script, with empty lines between; or `No`,
if no outcome has them.

The states of a machine with store buffers are looked at, about a million a second, of about
80 bytes each. If there are more than `--states` allows, `unfinished` is printed alone.",
    statuses: "Exit status:
  0  the outcomes are printed, or a recording of one; each line of the log is allowed; the
     condition holds
  1  an error of the command line, a file or memory, as standard error says
  2  a line of the log is forbidden; the condition does not hold; no outcome has the items
  3  the program, the log, the items or a number was refused, as the line `refused: ..` says
  4  there are more states than may be looked at

Examples:
  tsotest outcomes store_buffering.litmus
  tsotest outcomes store_buffering.litmus --observed board.log --unseen
  tsotest outcomes store_buffering.litmus --observed board.log --why
  tsotest outcomes store_buffering.litmus --exists '0:r0=0 1:r0=0'
  tsotest outcomes store_buffering.litmus --show '0:r0=0 1:r0=0'",
};

const COMPLETE: Page = Page {
    about: "Says whether TSO allows the values of a run, without sources and write lists",
    more: "Says whether TSO allows the values that a run read and wrote, where nobody recorded which
write each read took its value from, nor in which order memory took the writes.

The values are a recording of version 3: `cores` as in version 2, but an event may leave out
its source `s`; `init`, what each address begins with; and perhaps `final`, what each ends
with, or null where that is not known.

Where TSO allows them, the recording is printed with sources and write lists by which it
does, so that `judge` finds an order. Else `impossible` is printed: no sources and write
lists make it lawful. Then come, where rules show it, the lines of a circle of events, each
before the next with the reason; and after an empty line the numbers of some events and a
line with these alone, of which each is needed: without it TSO would allow the rest. Where
these have one recording only, it is the last line, which `judge` and `explain` take.

The states of a machine with store buffers are looked at. If there are more than `--states`
allows, `unfinished` is printed.",
    statuses: "Exit status:
  0  TSO allows the values: the recording is printed
  1  an error of the command line, a file or memory, as standard error says
  2  TSO does not allow them
  3  the values or a number was refused, as the line `refused: ..` says
  4  there are more states than may be looked at

Example:
  tsotest complete values.json | tsotest judge -",
};

const MAKE: Page = Page {
    about: "Makes the program of a cycle, and the recording in which it happens; or lists cycles",
    more: "Makes the program of a cycle, and the recording in which the cycle happens.

A cycle is written in the words of the tool diy, with spaces between them. A word says how an
access comes before the next, and the last leads back to the first. `Pod` and `Pos` are
program order, `MFenced` and `MFences` the same with a fence between; `d` says that both have
different addresses, `s` that they have the same. The letters after it say what they are: R
for a load, W for a store, and with an A after it an atomic access, which reads and writes.
`Rfe` leads from a store to a load that reads it, `Fre` from a load to a store of a newer
value, `Coe` (or `Wse`) from a store to a later one; e says that they are on different cores,
and `Rfi`, `Fri` and `Coi` that they are on the same.

Printed are the program, an empty line, and the recording with its verdict: a cycle or an
overlook where TSO forbids it, and an order where it does not. An address has the name x, y,
z, a, b, and so on, and its stores the values 1, 2, and so on, in memory order.

With `--all N` the critical cycles of at most N events are listed, a line each, each once:
a core has at most two accesses, of two addresses, and an address has at most three, of
different cores; and five cycles of one address. A fence counts as an event, and stands only
between a store and a load: TSO keeps the order of all others.",
    statuses: "Exit status:
  0  TSO allows the recording; with `--all`, always
  1  an error of the command line or memory, as standard error says
  2  the recording is a violation of TSO
  3  the words or a number were refused, as the line `refused: ..` says

Examples:
  tsotest make PodWW Rfe PodRR Fre
  tsotest make --all 6 --forbidden",
};

/// The page of the command with this name, or else of the program.
pub fn page_of(name: &str) -> Page {
    match name {
        "run" => RUN,
        "judge" => JUDGE,
        "trials" => TRIALS,
        "live" => LIVE,
        "replay" => REPLAY,
        "explain" => EXPLAIN,
        "draw" => DRAW,
        "reduce" => REDUCE,
        "verify" => VERIFY,
        "survey" => SURVEY,
        "merge" => MERGE,
        "outcomes" => OUTCOMES,
        "complete" => COMPLETE,
        "make" => MAKE,
        _ => PROGRAM,
    }
}
