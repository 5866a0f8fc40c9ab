//! Commands of lines by the plain program. Each command and each reply has one owner, which gives it
//! to a function that borrows it: what has many fields is dropped at each way out of a function that
//! owns it.

use bd_command::{Command, Reply};
use bd_plain::PlainTree;
use bd_script::{Line, read_line};
use std::alloc::Global;
use std::test::Fail;

/// What the plain program answers to a line's command.
pub fn plain_answer(alloc: Global, tree: &mut PlainTree, line: &str) -> Result<Reply, Fail> {
    match read_line(alloc, line.as_bytes()) {
        Ok(Line::Run(command)) => stepped(alloc, tree, &command),
        _ => Err(Fail::new("no command")),
    }
}

/// What the plain program answers to a command.
fn stepped(alloc: Global, tree: &mut PlainTree, command: &Command) -> Result<Reply, Fail> {
    Ok(tree.step(alloc, command)?)
}
