//! Want of memory. Where a volume refuses a line for it, each path reads as before, and the same
//! line is done at the second time; a question is asked twice. No allocation fails of itself:
//! `rt try --test --fail-alloc N` makes the Nth one fail, and no other. Where it is one of the
//! test's own or of the image's making, the script begins anew, and then each of its lines is done:
//! so no test ends well that sees want of memory twice.

use crate::calls::{formatted, keeps, piece_line, repeated, said};
use bd_device::MemDevice;
use bd_plain::PlainTree;
use bd_volume::Volume;
use rows_tools::{plain_answer, text_of};
use std::alloc::Global;
use std::io::{Eprint, Print};
use std::process::{Abort, Termination};
use std::test::Fail;

/// How many writes a device has room for.
const WRITES: usize = 12_000;

/// What a line is answered for which there is no memory.
const NO_MEMORY: &str = "there is no memory";

/// How the answer ends to a line for which there are too few slots.
const FULL: &str = " are needed";

/// A part of a script.
#[derive(Clone, Copy)]
enum Part {
    /// Lines that are done. `N` and `M` stand for two names of 255 bytes, `X` for one of 200.
    Lines(&'static [&'static str]),
    /// So many pieces of a file, which are written.
    Pieces(&'static str, u32),
    /// Pieces of a file, which are written until there are too few slots.
    Fill(&'static str),
    /// The questions.
    Ask,
}

/// A script on an image of so many slots, the paths that are asked, and how many bytes of each.
struct Script {
    slots: u32,
    parts: &'static [Part],
    paths: &'static [&'static str],
    length: u32,
}

/// A file and its clone are written apart; `/` is cloned, and a part of its clone.
const APART: Script = Script {
    slots: 24,
    parts: &[
        Part::Lines(&[
            "create /a",
            "write /a 0 01",
            "clone /a /b",
            "read /b 0 1",
            "write /a 0 02",
            "write /b 0 03",
            "read /a 0 1",
            "read /b 0 1",
            "mkdir /p",
            "create /p/f",
            "clone / /s",
            "clone /s/p /q",
            "stat /q/f",
            "list /s",
            "list /",
        ]),
        Part::Ask,
    ],
    paths: &[
        "/", "/a", "/b", "/p", "/p/f", "/q", "/q/f", "/s", "/s/a", "/s/b", "/s/p", "/s/p/f",
    ],
    length: 4_096,
};

/// Clones make a path of 605 bytes, and what stands there is cloned.
const DEEP: Script = Script {
    slots: 24,
    parts: &[
        Part::Lines(&[
            "mkdir /X",
            "mkdir /X/X",
            "create /X/X/f",
            "clone /X /X/X/c",
            "clone /X/X /q",
            "list /q",
            "stat /q/c/X/f",
            "clone /q/c/X /v",
            "stat /v/f",
        ]),
        Part::Ask,
    ],
    paths: &[
        "/", "/X", "/X/X", "/X/X/f", "/q", "/q/f", "/q/c", "/q/c/X", "/q/c/X/f", "/v", "/v/f",
    ],
    length: 4_096,
};

/// A file is cloned with its directory, both are written, and the clone is cloned. More of it is
/// written than waits in the root.
const CLONES: Script = Script {
    slots: 80,
    parts: &[
        Part::Lines(&["mkdir /d", "create /d/f"]),
        Part::Pieces("/d/f", 12),
        Part::Lines(&[
            "clone /d /e",
            "write /e/f 5000 aabb",
            "write /d/f 1 ff",
            "checkpoint",
            "clone /e /d/c",
            "write /d/c/f 26000 99",
            "truncate /e/f 3",
            "rename /d/c /k",
            "chmod /k/f 0644",
            "create /e/g",
            "sync",
            "remove /d",
            "clone /k /e/d",
            "write /e/d/f 0 77",
            "remove /k/f",
            "reclaim",
            "mkdir /d",
            "clone /e/d/f /d/c",
            "sync",
        ]),
        Part::Ask,
    ],
    paths: &[
        "/", "/d", "/d/f", "/d/c", "/d/c/f", "/e", "/e/f", "/e/g", "/e/d", "/e/d/f", "/k", "/k/f",
    ],
    length: 28_672,
};

/// A file is written until no slot is free, and its slots are reclaimed.
const FILLED: Script = Script {
    slots: 24,
    parts: &[
        Part::Lines(&["create /g", "write /g 0 0102", "mkdir /d", "create /d/f"]),
        Part::Fill("/d/f"),
        Part::Ask,
        Part::Lines(&[
            "remove /d",
            "reclaim",
            "checkpoint",
            "create /h",
            "write /h 0 0304",
            "sync",
        ]),
        Part::Ask,
    ],
    paths: &["/", "/d", "/g", "/h", "/d/f"],
    length: 262_144,
};

/// A directory is renamed in which a path has the greatest length.
const LONG: Script = Script {
    slots: 24,
    parts: &[
        Part::Lines(&[
            "mkdir /N",
            "create /N/N",
            "write /N/N 3000 0102",
            "checkpoint",
            "rename /N /M",
            "write /M/N 0 aa",
            "rename /M/N /M/M",
            "sync",
            "clone /M /N",
            "truncate /N/M 1",
            "remove /M",
            "reclaim",
        ]),
        Part::Ask,
    ],
    paths: &["/", "/N", "/N/N", "/N/M", "/M", "/M/N", "/M/M"],
    length: 4_096,
};

/// A volume and the plain program after the same lines, what is asked of both, and how many lines
/// and questions were refused for want of memory.
struct Pair {
    volume: Volume<MemDevice>,
    tree: PlainTree,
    questions: Vec<String>,
    refused: u32,
}

// Written out, so that a drop is one call.
impl Drop for Pair {
    fn drop(self) {
        let Pair {
            volume: _,
            tree: _,
            questions: _,
            refused: _,
        } = self;
    }
}

/// A line in which `N` and `M` stand for names of 255 bytes, and `X` for one of 200.
fn with_names(alloc: Global, line: &str) -> Result<String, Fail> {
    let mut long = String::new(alloc);
    for letter in line.chars() {
        match letter {
            'N' => long.push_str(&repeated(alloc, "n", 255)?)?,
            'M' => long.push_str(&repeated(alloc, "m", 255)?)?,
            'X' => long.push_str(&repeated(alloc, "x", 200)?)?,
            _ => long.push(letter)?,
        }
    }
    Ok(long)
}

/// Adds the questions on a path: what stands there, its names, and the bytes before `length`.
fn ask_of(alloc: Global, into: &mut Vec<String>, path: &str, length: u32) -> Result<(), Fail> {
    let path = with_names(alloc, path)?;
    into.push(format!(in alloc; "stat {path}")?)?;
    into.push(format!(in alloc; "list {path}")?)?;
    for off in (0..length).step_by(4_096) {
        into.push(format!(in alloc; "read {path} {off} 4096")?)?;
    }
    Ok(())
}

/// The questions of a script.
fn questions(alloc: Global, script: &Script) -> Result<Vec<String>, Fail> {
    let mut all = Vec::new(alloc);
    for path in script.paths {
        ask_of(alloc, &mut all, path, script.length)?;
    }
    Ok(all)
}

/// What a volume answers to a question, which is asked again where at first there was no memory: it
/// is counted then.
fn asked(
    alloc: Global,
    volume: &mut Volume<MemDevice>,
    refused: &mut u32,
    question: &str,
) -> Result<String, Fail> {
    let found = said(alloc, volume, question)?;
    if found.as_str() != NO_MEMORY {
        return Ok(found);
    }
    *refused = refused.saturating_add(1);
    said(alloc, volume, question)
}

/// What the plain program answers to a line.
fn wanted(alloc: Global, tree: &mut PlainTree, line: &str) -> Result<String, Fail> {
    if keeps(line) {
        return Ok(String::from_str(alloc, "ok")?);
    }
    let want = plain_answer(alloc, tree, line)?;
    text_of(alloc, &want)
}

impl Pair {
    /// Before a script.
    fn new(rt: &impl Abort, alloc: Global, script: &Script) -> Result<Pair, Fail> {
        Ok(Pair {
            questions: questions(alloc, script)?,
            tree: PlainTree::new(alloc)?,
            volume: formatted(rt, alloc, script.slots, WRITES, &[])?,
            refused: 0,
        })
    }

    /// Whether both answer the questions alike.
    fn ask(&mut self, rt: &impl Abort, alloc: Global, line: &str) -> Result<(), Fail> {
        for question in &self.questions {
            let found = asked(alloc, &mut self.volume, &mut self.refused, question)?;
            let want = wanted(alloc, &mut self.tree, question)?;
            assert_eq!(rt; found.as_str(), want.as_str(), "{line}: {question}");
        }
        Ok(())
    }

    /// What the volume answers to a line, at the second time where at first there was no memory.
    fn answer(&mut self, rt: &impl Abort, alloc: Global, line: &str) -> Result<String, Fail> {
        let found = said(alloc, &mut self.volume, line)?;
        if found.as_str() != NO_MEMORY {
            return Ok(found);
        }
        self.refused = self.refused.saturating_add(1);
        self.ask(rt, alloc, line)?;
        said(alloc, &mut self.volume, line)
    }

    /// Whether a line is done, as the plain program does it, and not for want of slots.
    fn line(&mut self, rt: &impl Abort, alloc: Global, line: &str) -> Result<bool, Fail> {
        let found = self.answer(rt, alloc, line)?;
        if found.as_str().ends_with(FULL) {
            return Ok(false);
        }
        let want = wanted(alloc, &mut self.tree, line)?;
        assert_eq!(rt; found.as_str(), want.as_str(), "{line}");
        Ok(true)
    }

    /// Executes lines, each of which is done.
    fn lines(&mut self, rt: &impl Abort, alloc: Global, lines: &[&str]) -> Result<(), Fail> {
        for line in lines {
            let line = with_names(alloc, line)?;
            let is_done = self.line(rt, alloc, &line)?;
            assert!(rt; is_done, "{line}");
        }
        Ok(())
    }

    /// Whether so many pieces are written to a file.
    fn pieces(
        &mut self,
        rt: &impl Abort,
        alloc: Global,
        path: &str,
        count: u32,
    ) -> Result<bool, Fail> {
        for at in 0..count {
            let line = piece_line(alloc, path, at)?;
            if !self.line(rt, alloc, &line)? {
                return Ok(false);
            }
        }
        Ok(true)
    }

    /// Does a part of a script.
    fn part(&mut self, rt: &impl Abort, alloc: Global, part: Part) -> Result<bool, Fail> {
        match part {
            Part::Lines(lines) => {
                self.lines(rt, alloc, lines)?;
                Ok(true)
            }
            Part::Pieces(path, count) => self.pieces(rt, alloc, path, count),
            Part::Fill(path) => Ok(!self.pieces(rt, alloc, path, 1_000)?),
            Part::Ask => {
                self.ask(rt, alloc, "the end")?;
                Ok(true)
            }
        }
    }

    /// Does a script.
    fn parts(&mut self, rt: &impl Abort, alloc: Global, parts: &[Part]) -> Result<(), Fail> {
        for (index, part) in parts.iter().enumerate() {
            let is_done = self.part(rt, alloc, *part)?;
            assert!(rt; is_done, "part {index}");
        }
        Ok(())
    }
}

/// Does a script on a new image, and says how many lines were refused for want of memory.
fn refused(rt: &impl Abort, alloc: Global, script: &Script) -> Result<u32, Fail> {
    let mut pair = Pair::new(rt, alloc, script)?;
    pair.parts(rt, alloc, script.parts)?;
    Ok(pair.refused)
}

/// Does a script, once more where the test had no memory, which is told. Says what came.
fn told<R: Abort + Eprint>(rt: &R, alloc: Global, script: &Script) -> Result<&'static str, Fail> {
    match refused(rt, alloc, script) {
        Ok(0) => Ok("no line was refused"),
        Ok(_) => Ok("a refused line was done at the second time"),
        Err(fail) => {
            let _ = Err::<(), Fail>(fail).report(rt);
            let _ = refused(rt, alloc, script)?;
            Ok("the test had no memory, and at the second time all was done")
        }
    }
}

#[test]
fn files_apart_read_as_before(rt: HostRuntime) -> Result<(), Fail> {
    let _ = rt.println(told(&rt, rt.alloc(), &APART)?);
    Ok(())
}

#[test]
fn deep_clones_read_as_before(rt: HostRuntime) -> Result<(), Fail> {
    let _ = rt.println(told(&rt, rt.alloc(), &DEEP)?);
    Ok(())
}

#[test]
fn clones_read_as_before(rt: HostRuntime) -> Result<(), Fail> {
    let _ = rt.println(told(&rt, rt.alloc(), &CLONES)?);
    Ok(())
}

#[test]
fn a_full_image_reads_as_before(rt: HostRuntime) -> Result<(), Fail> {
    let _ = rt.println(told(&rt, rt.alloc(), &FILLED)?);
    Ok(())
}

#[test]
fn long_paths_read_as_before(rt: HostRuntime) -> Result<(), Fail> {
    let _ = rt.println(told(&rt, rt.alloc(), &LONG)?);
    Ok(())
}
