//! What an importer has of a stream, byte by byte.

ghost use Rattle.std.specs.Prelude.{◌≡◌, ◌≤◌, ◌+◌, [], ◌∷◌, ◌++◌, ◌↔◌, length, slice_index, true, IfOk, OnOk};
ghost use Rattle.bd_limits.specs.Limits.{file_limit};
ghost use Rattle.bd_stream.specs.Heads.{is_kind, head_size};
ghost use Rattle.bd_stream.specs.Importing.{IsSound, State, state_of, start, go, taken, fed, turn, tag_turn, found_turn, entered, head_commands, data_turn, need, head_need, chunk_size, follows, is_in_order, short_path, phase_with, first_phase, end_phase, making, moding, looked, with_byte};

use crate::head::{self, Head, read_path};
use bd_command::Command;
use bd_keys::{Bytes, translate};
use bd_limits::{MAX_PATH, MAX_WRITE};
use bd_names::Path;
use std::alloc::{AllocError, Global};

/// The first bytes of a stream.
pub(crate) const MAGIC: &[u8] = b"BDX1";

/// The last byte of a stream.
pub(crate) const END: u8 = b'E';

/// The most bytes of a path in a head, which has no slash in front.
const MAX_RELATIVE: usize = MAX_PATH - 1;

/// What comes next in a stream.
#[derive(Clone, Copy, Debug, PartialEq, Eq)]
pub(crate) enum Phase {
    /// Its first four bytes.
    Start,
    /// The head of the exported path's own entry.
    First,
    /// The head of an entry, or the end.
    Next,
    /// Bytes of a file.
    Data,
    /// Nothing: the stream is complete.
    Ended,
    /// The bytes were no stream.
    Bad,
    /// A path was too long.
    Long,
}

/// What is known of a stream whose first bytes came.
#[derive(Debug, Drop)]
pub(crate) struct Machine {
    /// Where the exported path's entry goes.
    pub(crate) target: Path,
    pub(crate) phase: Phase,
    /// Where the last entry stands below the exported path.
    pub(crate) last: Path,
    /// Where the last entry goes.
    pub(crate) path: Path,
    /// Whether the last entry is a directory.
    pub(crate) is_dir: bool,
    /// How many bytes of its file were given.
    pub(crate) off: u32,
    /// How many bytes of its file are to be given.
    pub(crate) left: u32,
    /// The bytes that aren't understood yet, at most 2,048.
    pub(crate) waiting: Vec<u8>,
}

impl Machine {
    /// Before the first byte.
    pub(crate) fn new(alloc: Global, target: &Path) -> Result<Machine, AllocError>
        ensures { IfOk result (λ m. state_of m ≡ start target.now) }
    {
        Ok(Machine {
            target: target.clone()?,
            phase: Phase::Start,
            last: Path::root(alloc)?,
            path: target.clone()?,
            is_dir: true,
            off: 0,
            left: 0,
            waiting: Vec::new(alloc),
        })
    }

    /// A copy.
    pub(crate) fn copy(&self) -> Result<Machine, AllocError>
        ensures { IfOk result (λ m. state_of m ≡ state_of self.now) }
    {
        Ok(Machine {
            target: self.target.clone()?,
            phase: self.phase,
            last: self.last.clone()?,
            path: self.path.clone()?,
            is_dir: self.is_dir,
            off: self.off,
            left: self.left,
            waiting: self.waiting.clone()?,
        })
    }

    /// Takes one byte, and adds the commands that it completes. What an error leaves is of no use.
    #[tactic(auto, using(crate::proofs::NeedLemmas::need_exact), unfolding(crate::specs::Importing::taken))]
    pub(crate) fn take(
        &mut self,
        alloc: Global,
        byte: u8,
        made: &mut Vec<Command>,
    ) -> Result<(), AllocError>
        requires { IsSound (state_of self.old) }
        ensures state { OnOk result
            (state_of self.new ≡ (taken (state_of self.old) byte).0) }
        ensures made { OnOk result
            (made.new.items ≡ made.old.items ++ (taken (state_of self.old) byte).1) }
    {
        self.waiting.push(byte)?;
        if self.waiting.len() < need(self.phase, self.left, &self.waiting) {
            return Ok(());
        }
        self.turn(alloc, made)
    }

    /// Takes bytes, and adds the commands that they complete.
    pub(crate) fn take_all(
        &mut self,
        alloc: Global,
        bytes: &[u8],
        made: &mut Vec<Command>,
    ) -> Result<(), AllocError>
        requires { IsSound (state_of self.old) }
        ensures sound { OnOk result (IsSound (state_of self.new)) }
        ensures state { OnOk result
            (state_of self.new ≡ (fed (state_of self.old) bytes.now).0) }
        ensures made { OnOk result
            (made.new.items ≡ made.old.items ++ (fed (state_of self.old) bytes.now).1) }
    {
        for byte in bytes {
            self.take(alloc, *byte, made)?;
        }
        Ok(())
    }

    // Looks at the bytes that wait, which are as many as are needed.
    fn turn(&mut self, alloc: Global, made: &mut Vec<Command>) -> Result<(), AllocError>
        requires waits { length self.old.waiting.items
            ≡ need self.old.phase self.old.left self.old.waiting.items }
        requires fits { self.old.off + self.old.left ≤ file_limit }
        ensures state { OnOk result (state_of self.new ≡ (turn (state_of self.old)).0) }
        ensures made { OnOk result
            (made.new.items ≡ made.old.items ++ (turn (state_of self.old)).1) }
    {
        match self.phase {
            Phase::Start => {
                let phase = first_phase(&self.waiting);
                self.go(phase);
            }
            Phase::First | Phase::Next => self.tag(alloc, made)?,
            Phase::Data => self.data(made)?,
            Phase::Ended | Phase::Bad => self.go(Phase::Bad),
            Phase::Long => self.go(Phase::Long),
        }
        Ok(())
    }

    // Goes on, as nothing waits any more.
    fn go(&mut self, phase: Phase)
        ensures { state_of self.new ≡ go phase (state_of self.old) }
    {
        self.phase = phase;
        self.waiting.clear();
    }

    // Looks at a head or at the end.
    #[tactic(auto, using(crate::proofs::NeedLemmas::one_known, crate::proofs::NeedLemmas::three_known, crate::proofs::NeedLemmas::size_known))]
    fn tag(&mut self, alloc: Global, made: &mut Vec<Command>) -> Result<(), AllocError>
        requires { length self.old.waiting.items ≡ head_need self.old.waiting.items }
        ensures state { OnOk result (state_of self.new
            ≡ (tag_turn (slice_index self.old.waiting.items 0) (state_of self.old)).0) }
        ensures made { OnOk result (made.new.items ≡ made.old.items
            ++ (tag_turn (slice_index self.old.waiting.items 0) (state_of self.old)).1) }
    {
        let tag = self.waiting[0];
        if tag == END {
            let phase = end_phase(self.phase);
            self.go(phase);
        } else if !head::is_kind(tag) {
            self.go(Phase::Bad);
        } else if head::path_count(&self.waiting) > MAX_RELATIVE {
            self.go(Phase::Long);
        } else {
            let found = Head::read(alloc, &self.waiting)?;
            self.found(alloc, found, made)?;
        }
        Ok(())
    }

    // Enters the head that was found.
    fn found(
        &mut self,
        alloc: Global,
        found: Option<Head>,
        made: &mut Vec<Command>,
    ) -> Result<(), AllocError>
        ensures state { OnOk result
            (state_of self.new ≡ (found_turn (state_of self.old) found).0) }
        ensures made { OnOk result
            (made.new.items ≡ made.old.items ++ (found_turn (state_of self.old) found).1) }
    {
        let Some(head) = found else {
            self.go(Phase::Bad);
            return Ok(());
        };
        if !is_in_order(alloc, self.phase, &self.last, self.is_dir, &head.path)? {
            self.go(Phase::Bad);
            return Ok(());
        }
        match joined(alloc, &self.target, &head.path)? {
            Some(path) => self.enter(head, path, made),
            None => {
                self.go(Phase::Long);
                Ok(())
            }
        }
    }

    // Enters a head, whose entry goes to a path.
    fn enter(&mut self, head: Head, path: Path, made: &mut Vec<Command>) -> Result<(), AllocError>
        ensures state { OnOk result (state_of self.new ≡ entered (state_of self.old) head path) }
        ensures made { OnOk result (made.new.items ≡ made.old.items ++ head_commands head path) }
    {
        push_making(&head, &path, made)?;
        let Head {
            path: last,
            len,
            ..
        } = head;
        self.last = last;
        self.path = path;
        self.is_dir = len.is_none();
        self.off = 0;
        self.left = len.unwrap_or(0);
        let phase = phase_with(self.left);
        self.go(phase);
        Ok(())
    }

    // Gives the bytes of a file that wait.
    fn data(&mut self, made: &mut Vec<Command>) -> Result<(), AllocError>
        requires waits { length self.old.waiting.items ≡ chunk_size self.old.left }
        requires fits { self.old.off + self.old.left ≤ file_limit }
        ensures state { OnOk result (state_of self.new ≡ (data_turn (state_of self.old)).0) }
        ensures made { OnOk result
            (made.new.items ≡ made.old.items ++ (data_turn (state_of self.old)).1) }
    {
        let count = self.waiting.len() as u32;
        made.push(Command::Write {
            path: self.path.clone()?,
            off: self.off,
            bytes: Bytes::from_vec(self.waiting.clone()?),
        })?;
        self.off += count;
        self.left -= count;
        let phase = phase_with(self.left);
        self.go(phase);
        Ok(())
    }
}

// Adds the commands that make an entry without its bytes.
fn push_making(head: &Head, path: &Path, made: &mut Vec<Command>) -> Result<(), AllocError>
    ensures { OnOk result (made.new.items ≡ made.old.items ++ head_commands head.now path.now) }
{
    made.push(making(head.len, path.clone()?))?;
    if head.mode != 0 {
        made.push(Command::Chmod {
            path: path.clone()?,
            mode: head.mode,
        })?;
    }
    Ok(())
}

// What makes an entry.
fn making(len: Option<u32>, path: Path) -> Command
    ensures { result ≡ making len path }
{
    match len {
        Some(_) => Command::Create { path },
        None => Command::Mkdir { path },
    }
}

// What comes where so many bytes of a file are to be given.
fn phase_with(left: u32) -> Phase
    ensures { result ≡ phase_with left }
{
    if left == 0 { Phase::Next } else { Phase::Data }
}

// What comes after the first four bytes.
fn first_phase(bytes: &[u8]) -> Phase
    ensures { result ≡ first_phase bytes.now }
{
    if bytes == MAGIC {
        Phase::First
    } else {
        Phase::Bad
    }
}

// What comes after the end.
fn end_phase(phase: Phase) -> Phase
    ensures { result ≡ end_phase phase }
{
    match phase {
        Phase::First => Phase::Bad,
        _ => Phase::Ended,
    }
}

// How many bytes are to be there before they are looked at.
fn need(phase: Phase, left: u32, bytes: &[u8]) -> usize
    requires { 1 ≤ length bytes.now }
    ensures { result ≡ need phase left bytes.now }
{
    match phase {
        Phase::Start => MAGIC.len(),
        Phase::First | Phase::Next => head_need(bytes),
        Phase::Data => chunk_size(left),
        Phase::Ended | Phase::Bad | Phase::Long => 1,
    }
}

// How many bytes of a head are to be there.
fn head_need(bytes: &[u8]) -> usize
    requires { 1 ≤ length bytes.now }
    ensures { result ≡ head_need bytes.now }
{
    if bytes.len() < 3 {
        return if head::is_kind(bytes[0]) { 3 } else { 1 };
    }
    if head::path_count(bytes) > MAX_RELATIVE {
        return 3;
    }
    head::head_size(bytes)
}

// How many bytes of a file are written together.
fn chunk_size(left: u32) -> usize
    ensures { result ≡ chunk_size left }
{
    let left = left as usize;
    if left < MAX_WRITE { left } else { MAX_WRITE }
}

// Whether an entry may stand here.
fn is_in_order(
    alloc: Global,
    phase: Phase,
    last: &Path,
    is_dir: bool,
    path: &Path,
) -> Result<bool, AllocError>
    ensures { IfOk result (λ yes. yes ≡ is_in_order phase last.now is_dir path.now) }
{
    match phase {
        Phase::First => Ok(path.is_root()),
        _ => follows(alloc, last, is_dir, path),
    }
}

// Whether an entry may follow the last one.
fn follows(alloc: Global, last: &Path, is_dir: bool, path: &Path) -> Result<bool, AllocError>
    ensures { IfOk result (λ yes. yes ≡ follows last.now is_dir path.now) }
{
    let Some(parent) = path.parent(alloc)? else {
        return Ok(false);
    };
    if !last.is_under(&parent) || !is_dir && parent.is_under(last) {
        return Ok(false);
    }
    let below = last.key(alloc)?;
    let above = path.key(alloc)?;
    Ok(below.as_slice().cmp(&above.as_slice()).is_lt())
}

/// A path below another one, where it is short enough for a command.
pub(crate) fn joined(alloc: Global, target: &Path, path: &Path) -> Result<Option<Path>, AllocError>
    ensures { IfOk result (λ found. found ≡ short_path (target.now ++ path.now)) }
{
    let above = target.as_bytes();
    let below = path.as_bytes();
    if path.is_root() {
        return Ok(Some(target.clone()?));
    }
    if target.is_root() {
        return Ok(Some(path.clone()?));
    }
    let text = translate(alloc, below, 0, above)?;
    read_path(alloc, &text)
}
