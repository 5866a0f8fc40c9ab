//! Runs rows of messages, grafts and flushes, which stand in files as text, over a map, a tree of
//! nodes in memory and, where a row asks for it, nodes over a device in memory, and compares what
//! they have. How the files are written is said in `lines`.
#![tactic(auto)]

mod asks;
mod calls;
mod image;
mod lines;
mod machine;
mod report;
mod shapes;
mod stop;
mod stored;
mod walk;
mod words;

use report::{Counts, Report};
use std::process::ExitCode;
use std::{env, fs, io};

/// The status where a row differs.
const DIFFERS: u8 = 1;

/// The status where a file isn't read, or where there is no memory.
const UNREAD: u8 = 2;

fn main(rt: HostRuntime) -> ExitCode {
    ExitCode::from(status(&rt).unwrap_or(UNREAD))
}

/// The files that the program is called with.
fn called_with(rt: &HostRuntime) -> io::Result<Vec<String>> {
    let mut words = Vec::new(rt.alloc());
    for word in env::args(rt)?.skip(1) {
        words.push(word)?;
    }
    Ok(words)
}

/// Runs the files that it is called with, and gives its status.
fn status(rt: &HostRuntime) -> io::Result<u8> {
    let words = called_with(rt)?;
    run_files(rt, &words)
}

/// Runs these files, and tells how many rows passed.
fn run_files(rt: &HostRuntime, words: &[String]) -> io::Result<u8> {
    let mut counts = Counts::NONE;
    for word in words {
        counts = counts.plus(run_file(rt, word.as_str())?);
    }
    let Counts { rows, failed, .. } = counts;
    let passed = rows.saturating_sub(failed);
    println!(rt; "{passed} rows passed, {failed} failed")?;
    Ok(if failed == 0 { 0 } else { DIFFERS })
}

/// Runs a file.
fn run_file(rt: &HostRuntime, name: &str) -> io::Result<Counts> {
    let text = fs::read_to_string(rt, name)?;
    let mut report = Report::new(rt.alloc(), name)?;
    report.run(text.as_str())?;
    tell(rt, name, &report)
}

/// Prints where a file's rows differ, and how many rows and lines there are.
fn tell(rt: &HostRuntime, name: &str, report: &Report<'_>) -> io::Result<Counts> {
    let counts = report.counts();
    let Counts { rows, lines, .. } = counts;
    print!(rt; "{}", report.text())?;
    println!(rt; "{name}: {rows} rows, {lines} lines")?;
    Ok(counts)
}
