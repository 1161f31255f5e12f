//! What is asked of the files of a folder. Those of classic tests have the names of the field.

ghost use Rattle.std.specs.Prelude.{◌≡◌, ◌↔◌, IsTrue};
ghost use Rattle.case_files.specs.PrintedStatus.{verdict_status};

use crate::case::{Case, cases_of};
use crate::rules::{has_order, is_run_in_order, prints_back};
use std::alloc::{AllocError, Global};
use std::{fs, io};

/// What a command printed, with its status.
#[derive(Drop)]
pub struct Printed {
    /// The exit status.
    pub status: u8,
    /// Standard output and standard error after it.
    pub text: Vec<u8>,
}

/// What a file, or the one of its name that ends otherwise, has to meet.
#[derive(Clone, Copy)]
pub enum Rule {
    /// Each case of the file prints what it is to print.
    Performed,
    /// A verdict is printed of the recording beside it.
    Judged,
    /// The order of a verdict, if it is one, is one of the recording beside it, and its reverse is none.
    Order,
    /// A program's run by the words of a seed is complete, and in order.
    Seed(usize),
    /// A text is a complete run, and in order.
    Run,
    /// A program prints back, and its runs by threads are complete, and in order.
    Kept,
    /// A program prints back.
    PrintsBack,
}

/// What command lines have to print.
#[derive(Drop)]
pub enum Wanted<'a> {
    /// What a case wants.
    Case(Case<'a>),
    /// A verdict, with its status.
    Verdict(&'a str),
    /// A run that is complete, and in order.
    Run,
    /// Nothing: whether what is asked holds is known without a command line.
    Known(bool),
}

/// What is counted once: command lines, and what each of them has to print.
#[derive(Drop)]
pub struct Check<'a> {
    /// The command lines after the program's name, each without standard input but of a case.
    pub commands: Vec<String>,
    /// What they have to print.
    pub wanted: Wanted<'a>,
}

/// The status of what TSO allows.
const DONE: u8 = 0;

/// The status of what TSO does not allow.
const VIOLATION: u8 = 2;

/// The status that a verdict is printed with.
fn verdict_status(verdict: &[u8]) -> u8
    ensures { result ≡ verdict_status verdict.now }
{
    if verdict.starts_with(b"ordered:") {
        DONE
    } else {
        VIOLATION
    }
}

/// Whether a verdict was printed, with its status.
fn is_verdict(found: &Printed, verdict: &[u8]) -> bool
    ensures { IsTrue result ↔ ((found.now.text.items ≡ verdict.now)
        × (found.now.status ≡ verdict_status verdict.now)) }
{
    found.status == verdict_status(verdict) && found.text.as_slice() == verdict
}

/// Whether a run was printed that is complete, and in order.
fn is_run(alloc: Global, found: &Printed) -> Result<bool, AllocError> {
    match str::from_utf8(found.text.as_slice()) {
        Ok(text) => Ok(found.status == DONE && is_run_in_order(alloc, text)?),
        Err(_) => Ok(false),
    }
}

impl Check<'_> {
    /// Standard input of the command lines.
    pub fn input(&self) -> &[u8] {
        match &self.wanted {
            Wanted::Case(case) => case.input.as_bytes(),
            _ => b"",
        }
    }

    /// Whether a command line printed what it has to.
    pub fn is_met(&self, alloc: Global, found: &Printed) -> Result<bool, AllocError> {
        match &self.wanted {
            Wanted::Case(case) => Ok(case.is_met(found.status, found.text.as_slice())),
            Wanted::Verdict(verdict) => Ok(is_verdict(found, verdict.as_bytes())),
            Wanted::Run => is_run(alloc, found),
            Wanted::Known(holds) => Ok(*holds),
        }
    }

    /// Whether what is asked holds where each command line printed what it has to.
    pub fn holds(&self) -> bool {
        match &self.wanted {
            Wanted::Known(holds) => *holds,
            _ => !self.commands.is_empty(),
        }
    }
}

/// What is known to hold, or not to, without a command line.
fn check_known<'a>(alloc: Global, holds: bool) -> Check<'a> {
    Check {
        commands: Vec::new(alloc),
        wanted: Wanted::Known(holds),
    }
}

/// What one command line has to print.
fn check_of_command<'a>(
    alloc: Global,
    command: String,
    wanted: Wanted<'a>,
) -> Result<Check<'a>, AllocError> {
    let mut commands = Vec::new(alloc);
    commands.push(command)?;
    Ok(Check { commands, wanted })
}

/// What a case asks: a case without a command is never met.
fn check_of_case<'a>(alloc: Global, case: Case<'a>) -> Result<Check<'a>, AllocError> {
    let mut commands = Vec::new(alloc);
    if let Some(command) = case.command {
        commands.push(String::from_str(alloc, command)?)?;
    }
    Ok(Check {
        commands,
        wanted: Wanted::Case(case),
    })
}

/// The cases of a text, but what is remarks alone.
fn checks_of_cases<'a>(alloc: Global, text: &'a str) -> Result<Vec<Check<'a>>, AllocError> {
    let mut checks = Vec::new(alloc);
    for case in cases_of(alloc, text)? {
        if !case.is_remark() {
            checks.push(check_of_case(alloc, case)?)?;
        }
    }
    Ok(checks)
}

/// That a program prints back, and that its runs by threads are complete, and in order.
fn check_of_runs<'a>(alloc: Global, path: &str, text: &str) -> Result<Check<'a>, AllocError> {
    if !prints_back(alloc, text) {
        return Ok(check_known(alloc, false));
    }
    let mut commands = Vec::new(alloc);
    commands.push(format!(in alloc; " live {path}.litmus --buffer 1")?)?;
    commands.push(format!(in alloc; " live {path}.litmus --buffer 8")?)?;
    Ok(Check {
        commands,
        wanted: Wanted::Run,
    })
}

/// That the order of a verdict, if it is one, is one of the recording at this path.
fn check_of_order<'a>(rt: &HostRuntime, path: &str, verdict: &str) -> io::Result<Check<'a>> {
    let name = format!(in rt.alloc(); "{path}.json")?;
    let recording = fs::read(rt, name.as_str())?;
    let holds = has_order(rt.alloc(), recording.as_slice(), verdict)?;
    Ok(check_known(rt.alloc(), holds))
}

/// What a rule asks of the file at this path, with this text, which has no cases.
fn check_of<'a>(rt: &HostRuntime, path: &str, rule: Rule, text: &'a str) -> io::Result<Check<'a>> {
    let alloc = rt.alloc();
    match rule {
        Rule::Judged => {
            let command = format!(in alloc; " judge {path}.json")?;
            Ok(check_of_command(alloc, command, Wanted::Verdict(text))?)
        }
        Rule::Seed(seed) => {
            let command = format!(in alloc; " run {path}.litmus --seed {seed}")?;
            Ok(check_of_command(alloc, command, Wanted::Run)?)
        }
        Rule::Kept => Ok(check_of_runs(alloc, path, text)?),
        Rule::Order => check_of_order(rt, path, text),
        Rule::Run => Ok(check_known(alloc, is_run_in_order(alloc, text)?)),
        _ => Ok(check_known(alloc, prints_back(alloc, text))),
    }
}

/// What a rule asks of the file at this path, with this text.
pub fn checks_of<'a>(
    rt: &HostRuntime,
    path: &str,
    rule: Rule,
    text: &'a str,
) -> io::Result<Vec<Check<'a>>> {
    match rule {
        Rule::Performed => Ok(checks_of_cases(rt.alloc(), text)?),
        _ => {
            let mut checks = Vec::new(rt.alloc());
            checks.push(check_of(rt, path, rule, text)?)?;
            Ok(checks)
        }
    }
}
