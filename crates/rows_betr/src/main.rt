//! Runs rows of scripts, which stand in files as text, through the calls of the program over a
//! device in memory, and compares what each call writes with what its row says, or shows it.
#![tactic(auto)]

mod program;

use program::Betr;
use rows_bench::{Bench, Counts};
use std::process::ExitCode;
use std::{env, fs, io};

/// The status where a row differs.
const DIFFERS: u8 = 1;

/// The status where a file isn't read, or where there is no memory.
const UNREAD: u8 = 2;

fn main(rt: HostRuntime) -> ExitCode {
    ExitCode::from(status(&rt).unwrap_or(UNREAD))
}

/// The words that the program is called with, without its name.
fn called_with(rt: &HostRuntime) -> io::Result<Vec<String>> {
    let mut words = Vec::new(rt.alloc());
    for word in env::args(rt)?.skip(1) {
        words.push(word)?;
    }
    Ok(words)
}

/// Runs the files that it is called with, and gives its status.
fn status(rt: &HostRuntime) -> io::Result<u8> {
    let words = called_with(rt)?;
    run_files(rt, &words)
}

/// Runs these files, of which the first may be `--show`, and tells how many rows passed.
fn run_files(rt: &HostRuntime, words: &[String]) -> io::Result<u8> {
    let mut counts = Counts::new();
    let mut shows = false;
    for word in words {
        if word.as_str() == "--show" {
            shows = true;
        } else {
            counts = counts.plus(run_file(rt, word.as_str(), shows)?);
        }
    }
    let Counts { rows, failed, .. } = counts;
    let passed = rows.saturating_sub(failed);
    println!(rt; "{passed} rows passed, {failed} failed")?;
    Ok(if failed == 0 { 0 } else { DIFFERS })
}

/// Runs a file.
fn run_file(rt: &HostRuntime, name: &str, shows: bool) -> io::Result<Counts> {
    let text = fs::read_to_string(rt, name)?;
    let bench = Bench::new(rt.alloc(), name, shows)?;
    run_text(rt, name, text.as_str(), bench)
}

/// Runs the text of a file, and prints what its rows show and where they differ.
fn run_text<'t>(
    rt: &HostRuntime,
    name: &str,
    text: &'t str,
    bench: Bench<'t>,
) -> io::Result<Counts> {
    let mut bench = bench;
    bench.read::<Betr>(text)?;
    tell(rt, name, &bench)
}

/// Prints what a file's rows show and where they differ, and how many rows and lines there are.
fn tell(rt: &HostRuntime, name: &str, bench: &Bench<'_>) -> io::Result<Counts> {
    let counts = bench.counts();
    let Counts { rows, lines, .. } = counts;
    print!(rt; "{}", bench.report())?;
    println!(rt; "{name}: {rows} rows, {lines} lines")?;
    Ok(counts)
}
