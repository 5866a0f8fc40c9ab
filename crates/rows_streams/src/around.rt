//! Streams between trees of the plain program: exported of its replies, planted by its commands.
//! Each command and each reply has one owner, which gives it to a function that borrows it.

use bd_command::{Command, Reply};
use bd_names::Path;
use bd_plain::PlainTree;
use bd_script::{Line, read_line};
use bd_stream::{ExportFault, Exporter, Importer};
use std::alloc::{AllocError, Global};
use std::test::Fail;

/// The most that an exporter may ask here.
const MAX_ASKED: usize = 1_000;

/// A name of 254 bytes, for which `X` stands in the lines and paths of tests.
const LONG: &str = "\
    1234567890123456789012345678901234567890123456789012345678901234567890123456789012345\
    1234567890123456789012345678901234567890123456789012345678901234567890123456789012345\
    123456789012345678901234567890123456789012345678901234567890123456789012345678901234";

/// A line or a path with the long name.
fn spelled(alloc: Global, text: &str) -> Result<String, AllocError> {
    text.replace(alloc, 'X', LONG)
}

/// The path of a text.
fn path_of(alloc: Global, text: &str) -> Result<Path, Fail> {
    let spelled = spelled(alloc, text)?;
    Ok(Path::read(alloc, spelled.as_bytes())?)
}

/// Has the plain program execute a line's command, which it accepts.
pub fn run_line(alloc: Global, tree: &mut PlainTree, line: &str) -> Result<(), Fail> {
    let spelled = spelled(alloc, line)?;
    match read_line(alloc, spelled.as_bytes()) {
        Ok(Line::Run(command)) => run(alloc, tree, &command),
        _ => Err(Fail::new("no command")),
    }
}

/// Has the plain program execute a command, which it accepts.
pub fn run(alloc: Global, tree: &mut PlainTree, command: &Command) -> Result<(), Fail> {
    let reply = stepped(alloc, tree, command)?;
    if !reply.is_done() {
        return Err(Fail::new("refused"));
    }
    Ok(())
}

/// What the plain program answers to a command.
fn stepped(alloc: Global, tree: &mut PlainTree, command: &Command) -> Result<Reply, Fail> {
    Ok(tree.step(alloc, command)?)
}

/// What the plain program answers to what an exporter asks.
fn replied(
    alloc: Global,
    tree: &mut PlainTree,
    exporter: &Exporter,
) -> Result<Option<Reply>, Fail> {
    match exporter.ask(alloc)? {
        Some(command) => stepped(alloc, tree, &command).map(Some),
        None => Ok(None),
    }
}

/// Exports until nothing more is asked, and returns why, where that is no end.
fn answered(
    alloc: Global,
    tree: &mut PlainTree,
    exporter: &mut Exporter,
    out: &mut Vec<u8>,
) -> Result<Option<ExportFault>, Fail> {
    for _ in 0..MAX_ASKED {
        let Some(reply) = replied(alloc, tree, exporter)? else {
            return Ok(None);
        };
        if let Err(fault) = exporter.answer(alloc, &reply, out) {
            return Ok(Some(fault));
        }
    }
    Err(Fail::new("asks too much"))
}

/// Exports a path, and returns why no more was written, where that is no end.
pub fn exported(
    alloc: Global,
    tree: &mut PlainTree,
    text: &str,
    out: &mut Vec<u8>,
) -> Result<Option<ExportFault>, Fail> {
    let path = path_of(alloc, text)?;
    let mut exporter = Exporter::new(alloc, &path)?;
    answered(alloc, tree, &mut exporter, out)
}

/// An importer to a path.
pub fn importer(alloc: Global, text: &str) -> Result<Importer, Fail> {
    let path = path_of(alloc, text)?;
    Ok(Importer::new(alloc, &path)?)
}

/// Has the plain program execute what a piece of a stream makes.
fn take(
    alloc: Global,
    tree: &mut PlainTree,
    importer: &mut Importer,
    piece: &[u8],
) -> Result<(), Fail> {
    let mut made = Vec::new(alloc);
    importer.feed(alloc, piece, &mut made)?;
    run_all(alloc, tree, &made)
}

/// Has the plain program execute commands, which it accepts.
fn run_all(alloc: Global, tree: &mut PlainTree, commands: &[Command]) -> Result<(), Fail> {
    for command in commands {
        run(alloc, tree, command)?;
    }
    Ok(())
}

/// The tree of `/` alone, in which a stream was planted at `/e` in pieces of so many bytes.
fn planted(alloc: Global, stream: &[u8], size: usize) -> Result<PlainTree, Fail> {
    let mut tree = PlainTree::new(alloc)?;
    let mut importer = importer(alloc, "/e")?;
    for piece in stream.chunks(size.max(1)) {
        take(alloc, &mut tree, &mut importer, piece)?;
    }
    if !importer.whole() {
        return Err(Fail::new("not whole"));
    }
    Ok(tree)
}

/// What is exported where a stream was planted in pieces of so many bytes.
pub fn exported_again(alloc: Global, stream: &[u8], size: usize) -> Result<Vec<u8>, Fail> {
    let mut tree = planted(alloc, stream, size)?;
    let mut out = Vec::new(alloc);
    match exported(alloc, &mut tree, "/e", &mut out)? {
        None => Ok(out),
        Some(_) => Err(Fail::new("not exported")),
    }
}
