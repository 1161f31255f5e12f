//! Counts of what is as it has to be.

use crate::performing::perform_lines;
use crate::tally::Tally;
use case_files::{Check, Printed, Rule, Wanted, checks_of};
use std::sync::Wait;
use std::thread::Threads;
use std::{fs, io};

/// Whether what differs at this path is shown: what is wrong has to differ.
pub fn is_shown(path: &str) -> bool {
    !path.starts_with("wrong")
}

/// Shows what a command line of a case printed that it was not to print; of other files, their names.
fn show_printed(
    rt: &HostRuntime,
    file: &str,
    check: &Check<'_>,
    command: &str,
    found: &Printed,
) -> io::Result<()> {
    let Wanted::Case(_) = check.wanted else {
        return println!(rt; "differs: {file}");
    };
    let text = String::from_utf8_lossy(rt.alloc(), found.text.as_slice())?;
    println!(rt;
        "differs: {file}\n$ tsotest{command}\n? {}\n{text}",
        found.status
    )
}

/// Shows what does not hold though no command line was performed.
fn show_known(rt: &HostRuntime, file: &str, check: &Check<'_>) -> io::Result<()> {
    match &check.wanted {
        Wanted::Case(case) => println!(rt; "differs: {file}\nno command before {}", case.wanted),
        _ => println!(rt; "differs: {file}"),
    }
}

/// Whether each command line of a check printed what it has to. Where it didn't, it is shown.
fn is_met(
    rt: &HostRuntime,
    file: &str,
    check: &Check<'_>,
    printed: &[Printed],
) -> io::Result<bool> {
    for (command, found) in check.commands.iter().zip(printed) {
        if !check.is_met(rt.alloc(), found)? {
            if is_shown(file) {
                show_printed(rt, file, check, command, found)?;
            }
            return Ok(false);
        }
    }
    if !check.holds() && is_shown(file) {
        show_known(rt, file, check)?;
    }
    Ok(check.holds())
}

/// The paths of a folder's files whose names end so, without these endings.
fn paths_of(rt: &HostRuntime, folder: &str, ending: &str) -> io::Result<Vec<String>> {
    let mut paths = Vec::new(rt.alloc());
    for entry in fs::read_dir(rt, folder)? {
        let entry = entry?;
        if let Some(name) = entry.file_name().strip_suffix(ending) {
            paths.push(format!(in rt.alloc(); "{folder}/{name}")?)?;
        }
    }
    Ok(paths)
}

/// Counts what a rule asks of each file of a folder whose name ends so: of a file of cases each case.
pub fn count_all<R: Threads + Wait + Sync>(
    rt: &HostRuntime,
    threads: &R,
    folder: &str,
    ending: &str,
    rule: Rule,
) -> io::Result<Tally> {
    let mut tally = Tally::new();
    for path in &paths_of(rt, folder, ending)? {
        let file = format!(in rt.alloc(); "{path}{ending}")?;
        let text = fs::read_to_string(rt, file.as_str())?;
        for check in &checks_of(rt, path, rule, text.as_str())? {
            let printed = perform_lines(rt, threads, &check.commands, check.input())?;
            tally.count(is_met(rt, file.as_str(), check, &printed)?);
        }
    }
    Ok(tally)
}
