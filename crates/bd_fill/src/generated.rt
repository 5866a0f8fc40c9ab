//! The script of a fill.

ghost use Rattle.std.specs.Prelude.{◌≡◌, ◌≤◌, ◌<◌, ◌++◌, ◌∷◌, [], Some, None, length, min, take, IfOk};
ghost use Rattle.bd_script.specs.Generated.{Load, generated_line, line_count};
ghost use Rattle.bd_fill.specs.Scripts.{generated_script, unread};

use bd_io::{Failed, Source};
use bd_script::Generator;
use std::alloc::{AllocError, Global};

/// A source of the lines that a seed makes, each with a newline. It tells its contents, and fails
/// where there is no memory for a line, and nowhere else.
#[derive(Drop)]
pub struct GeneratedSource {
    alloc: Global,
    lines: Generator,
    // The number of the line after `line`, of which `at` bytes were taken.
    next: u64,
    line: Vec<u8>,
    at: usize,
    faults: u64,
    ghost in_line: { at ≤ length line.items },
    ghost in_script: { next ≤ line_count lines },
}

impl GeneratedSource {
    /// A source of the script of a seed, with so many drawn lines.
    pub fn new(alloc: Global, seed: u32, count: u32) -> GeneratedSource
        ensures left { unread result.line.items result.at result.next result.lines
            ≡ generated_script seed count }
        ensures faults { result.faults ≡ 0 }
    {
        GeneratedSource {
            alloc,
            lines: Generator::new(seed, count),
            next: 0,
            line: Vec::new(alloc),
            at: 0,
            faults: 0,
        }
    }

    // Goes on to the next line, where the last one is at its end and there is one.
    fn go_on(&mut self) -> Result<(), AllocError>
        ensures left { unread self.new.line.items self.new.at self.new.next self.new.lines
            ≡ unread self.old.line.items self.old.at self.old.next self.old.lines }
        ensures some { IfOk result (λ _. length self.new.line.items ≤ self.new.at
            → self.new.next ≡ line_count self.new.lines) }
        ensures faults { self.new.faults ≡ self.old.faults }
    {
        if self.at < self.line.len() || self.next >= self.lines.lines() {
            return Ok(());
        }
        self.line = whole_line(self.alloc, &mut self.lines, self.next)?;
        self.at = 0;
        self.next += 1;
        Ok(())
    }

    // Gives as much of the line as there is room for.
    fn give(&mut self, into: &mut [u8]) -> usize
        ensures room { result ≤ length into.new }
        ensures left { unread self.old.line.items self.old.at self.old.next self.old.lines
            ≡ take result into.new
            ++ unread self.new.line.items self.new.at self.new.next self.new.lines }
        ensures end { result ≡ 0 → 0 < length into.new
            → (length self.old.line.items ≤ self.old.at)
            × (length self.new.line.items ≤ self.new.at) }
        ensures next { self.new.next ≡ self.old.next }
        ensures script { self.new.lines ≡ self.old.lines }
        ensures faults { self.new.faults ≡ self.old.faults }
    {
        let count = copy_front(&self.line[self.at..], into);
        self.at += count;
        count
    }
}

// Copies as many of these bytes as there is room for, from the first on, and returns how many.
fn copy_front(from: &[u8], into: &mut [u8]) -> usize
    ensures count { result ≡ min (length from.now) (length into.new) }
    ensures bytes { take result into.new ≡ take result from.now }
{
    let count = from.len().min(into.len());
    into[..count].copy_from_slice(&from[..count]);
    count
}

// A line with its newline.
fn whole_line(alloc: Global, lines: &mut Generator, index: u64) -> Result<Vec<u8>, AllocError>
    requires { index < line_count lines.old }
    ensures line { IfOk result
        (λ line. line.items ≡ generated_line lines.old.seed index ++ 10 ∷ []) }
    ensures script { lines.new ≡ lines.old }
{
    let mut line = lines.line(alloc, index)?;
    line.push(b'\n')?;
    Ok(line)
}

impl Source for GeneratedSource {
    ghost left = { λ s. Some (unread s.line.items s.at s.next s.lines) };

    ghost fault_count = { λ s. s.faults };

    ghost takes = { λ _. None };

    fn take(&mut self, into: &mut [u8]) -> Result<usize, Failed> {
        match self.go_on() {
            Ok(()) => Ok(self.give(into)),
            Err(AllocError) => {
                self.faults = self.faults.saturating_add(1);
                Err(Failed)
            }
        }
    }

    fn faults(&self) -> u64 {
        self.faults
    }
}
