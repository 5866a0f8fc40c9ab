//! The exporter: asked and answered, it writes the stream of what stands at a path and below it.

ghost use Rattle.std.specs.Prelude.{◌≡◌, ◌≢◌, ◌≤◌, ◌+◌, [], ◌++◌, length, take, unwrap_or, IfOk, OnOk, IfErr, IfSome};
ghost use Rattle.std.specs.Option.{option_map};
ghost use Rattle.bd_limits.specs.Limits.{file_limit};
ghost use Rattle.bd_command.specs.Command.{IsAfter, IsCommand, IsShortPath};
ghost use Rattle.bd_names.specs.Names.{parent_of};
ghost use Rattle.bd_stream.specs.Heads.{IsHead, head_bytes};
ghost use Rattle.bd_stream.specs.Exporting.{begin, asked, ask_beside, answered, looked_at, after_head, left_at, pieced, filed, closed, named, names_after, listed, head_in, magic_before, piece_in, piece_size, last_name, closed_stage, closed_bytes};
ghost use Rattle.bd_stream.specs.Answering.{seen, gone, CanGo, Goes, IsPlaced, IsAround, IsNextPlace, Answers, Refuses, why_not};

use crate::exporter::Exporter;
use crate::fault::ExportFault;
use crate::head::{Head, MAX_HEAD, relative};
use crate::listing;
use crate::machine::{END, MAGIC, joined};
use crate::stage::{Place, Stage};
use bd_command::{Command, Refusal, Reply};
use bd_limits::{MAX_FILE, MAX_MODE, MAX_PATH, MAX_READ};
use bd_names::{Name, Path};
use bd_wire::Out;
use std::alloc::{AllocError, Global};
use std::collections::VecDeque;

/// Where an export goes on.
#[derive(Drop)]
pub(crate) enum Next {
    /// At the same path, by another stage.
    At(Stage),
    /// At the same path, by another stage, and without the names that are known.
    Clear(Stage),
    /// At the first of the names that are known.
    Held(Place),
    /// Elsewhere, with other names.
    To(Place, Stage, VecDeque<Name>),
}

impl Exporter {
    /// Before anything is asked.
    pub fn new(alloc: Global, path: &Path) -> Result<Exporter, AllocError>
        ensures { IfOk result (λ exporter. seen exporter ≡ begin path.now) }
    {
        Ok(Exporter {
            top: path.clone()?,
            place: Place {
                below: Path::root(alloc)?,
                path: path.clone()?,
            },
            stage: Stage::Look,
            names: VecDeque::new(alloc),
        })
    }

    /// What is asked: a `stat`, a `read` or a `list`. It is `None` where the stream is complete, and
    /// after a fault.
    pub fn ask(&self, alloc: Global) -> Result<Option<Command>, AllocError>
        ensures asked { IfOk result (λ command. command ≡ asked (seen self.now)) }
        ensures limits { IfOk result (λ command. IfSome command IsCommand) }
    {
        match self.stage {
            Stage::Look => Ok(Some(Command::Stat {
                path: for_command(&self.place.path)?,
            })),
            Stage::Piece { off, left } => Ok(Some(Command::Read {
                path: for_command(&self.place.path)?,
                off,
                len: piece_size(left),
            })),
            Stage::Inside => Ok(Some(Command::List {
                path: for_command(&self.place.path)?,
                after: None,
            })),
            Stage::Beside => self.ask_beside(alloc),
            Stage::Whole | Stage::Absent | Stage::Overlong => Ok(None),
        }
    }

    /// Takes the reply to what was asked, and adds the bytes of the stream that it gives to `out`.
    ///
    /// It returns `Refused` where the exported path isn't there, or where this can be no reply to
    /// what was asked, and `LongPath` where the path of the next entry has more than 512 bytes; the
    /// bytes of all that came before are in `out` then, and each later call returns the same. Want
    /// of memory leaves all as it was.
    pub fn answer(
        &mut self,
        alloc: Global,
        reply: &Reply,
        out: &mut Vec<u8>,
    ) -> Result<(), ExportFault>
        ensures answered { OnOk result
            (Answers (seen self.old) (seen self.new) out.old.items out.new.items reply.now None) }
        ensures fault { IfErr result (λ fault. Refuses fault
            (seen self.old) (seen self.new) out.old.items out.new.items reply.now) }
    {
        let mut written = Vec::new(alloc);
        let next = self.next(alloc, reply, &mut written)?;
        out.append(&mut written)?;
        self.go(next);
        verdict(self.stage)
    }

    // The names in the directory around the entry are asked.
    fn ask_beside(&self, alloc: Global) -> Result<Option<Command>, AllocError>
        ensures asked { IfOk result (λ command. command ≡ ask_beside self.now.top
            (parent_of self.now.place.below) (last_name self.now.place.below)) }
        ensures limits { IfOk result (λ command. IfSome command IsCommand) }
    {
        let after = last_name(alloc, &self.place.below)?;
        match self.around(alloc)? {
            Some(around) => Ok(Some(Command::List {
                path: for_command(&around.path)?,
                after,
            })),
            None => Ok(None),
        }
    }

    // The directory around the entry.
    fn around(&self, alloc: Global) -> Result<Option<Place>, AllocError>
        ensures { IfOk result (λ found. IsAround self.now.top self.now.place.below found) }
    {
        let Some(below) = self.place.below.parent(alloc)? else {
            return Ok(None);
        };
        let Some(path) = self.place.path.parent(alloc)? else {
            return Ok(None);
        };
        Ok(Some(Place { below, path }))
    }

    // Where the reply leads, and what is written on the way.
    fn next(&self, alloc: Global, reply: &Reply, written: &mut Vec<u8>) -> Result<Next, AllocError>
        ensures { IfOk result (λ next. Goes (seen self.now) next
            written.old.items written.new.items (answered (seen self.now) reply.now)) }
    {
        match self.stage {
            Stage::Look => self.looked_at(alloc, reply, written),
            Stage::Piece { off, left } => self.pieced(alloc, off, left, reply, written),
            Stage::Inside => self.named(alloc, self.place.copy()?, b"", reply, written),
            Stage::Beside => self.beside(alloc, reply, written),
            Stage::Whole | Stage::Absent => Ok(Next::At(Stage::Absent)),
            Stage::Overlong => Ok(Next::At(Stage::Overlong)),
        }
    }

    // The reply to a `stat`.
    fn looked_at(
        &self,
        alloc: Global,
        reply: &Reply,
        written: &mut Vec<u8>,
    ) -> Result<Next, AllocError>
        ensures { IfOk result (λ next. Goes (seen self.now) next
            written.old.items written.new.items
            (looked_at (seen self.now) (head_in self.now.place.below reply.now))) }
    {
        let Some(head) = head_in(&self.place.below, reply)? else {
            return Ok(Next::At(Stage::Absent));
        };
        put_head(&head, written)?;
        self.after_head(alloc, head.len, written)
    }

    // What comes after a head: the names in a directory, or the bytes of a file.
    fn after_head(
        &self,
        alloc: Global,
        len: Option<u32>,
        written: &mut Vec<u8>,
    ) -> Result<Next, AllocError>
        requires { IfSome len (λ n. n ≤ file_limit) }
        ensures { IfOk result (λ next. Goes (seen self.now) next
            written.old.items written.new.items (after_head (seen self.now) len)) }
    {
        match len {
            Some(len) => self.left_at(alloc, 0, len, written),
            None => Ok(Next::Clear(Stage::Inside)),
        }
    }

    // So many bytes of a file are left.
    fn left_at(
        &self,
        alloc: Global,
        off: u32,
        left: u32,
        written: &mut Vec<u8>,
    ) -> Result<Next, AllocError>
        requires { off + left ≤ file_limit }
        ensures { IfOk result (λ next. Goes (seen self.now) next
            written.old.items written.new.items (left_at (seen self.now) off left)) }
    {
        if left == 0 {
            self.filed(alloc, written)
        } else {
            Ok(Next::At(Stage::Piece { off, left }))
        }
    }

    // What comes after a file.
    fn filed(&self, alloc: Global, written: &mut Vec<u8>) -> Result<Next, AllocError>
        ensures { IfOk result (λ next. Goes (seen self.now) next
            written.old.items written.new.items (filed (seen self.now))) }
    {
        let Some(name) = self.names.front() else {
            return self.closed(written);
        };
        let Some(around) = self.place.below.parent(alloc)? else {
            return self.closed(written);
        };
        match next_place(alloc, &self.top, &around, name)? {
            Some(place) => Ok(Next::Held(place)),
            None => Ok(Next::At(Stage::Overlong)),
        }
    }

    // All that is at the path and below it is written.
    fn closed(&self, written: &mut Vec<u8>) -> Result<Next, AllocError>
        ensures { IfOk result (λ next. Goes (seen self.now) next
            written.old.items written.new.items (closed (seen self.now) self.now.place.below)) }
    {
        Ok(Next::Clear(put_end(&self.place.below, written)?))
    }

    // The reply to a `read`.
    fn pieced(
        &self,
        alloc: Global,
        off: u32,
        left: u32,
        reply: &Reply,
        written: &mut Vec<u8>,
    ) -> Result<Next, AllocError>
        requires { off + left ≤ file_limit }
        ensures { IfOk result (λ next. Goes (seen self.now) next
            written.old.items written.new.items
            (pieced (seen self.now) off left (piece_in (piece_size left) reply.now))) }
    {
        let Some(bytes) = piece_in(piece_size(left), reply) else {
            return Ok(Next::At(Stage::Absent));
        };
        written.extend_from_slice(bytes)?;
        let count = bytes.len() as u32;
        self.left_at(alloc, off + count, left - count, written)
    }

    // The reply to a `list` of the names after an entry's.
    fn beside(
        &self,
        alloc: Global,
        reply: &Reply,
        written: &mut Vec<u8>,
    ) -> Result<Next, AllocError>
        ensures { IfOk result (λ next. Goes (seen self.now) next
            written.old.items written.new.items
            (named (seen self.now) (parent_of self.now.place.below)
            (names_after (unwrap_or (last_name self.now.place.below) []) reply.now))) }
    {
        let Some(around) = self.around(alloc)? else {
            return Ok(Next::At(Stage::Absent));
        };
        let Some(last) = last_name(alloc, &self.place.below)? else {
            return Ok(Next::At(Stage::Absent));
        };
        self.named(alloc, around, last.as_bytes(), reply, written)
    }

    // The reply to a `list` of the names after one in a directory.
    fn named(
        &self,
        alloc: Global,
        around: Place,
        after: &[u8],
        reply: &Reply,
        written: &mut Vec<u8>,
    ) -> Result<Next, AllocError>
        requires { IsPlaced self.now.top around }
        ensures { IfOk result (λ next. Goes (seen self.now) next
            written.old.items written.new.items
            (named (seen self.now) (Some around.below) (names_after after.now reply.now))) }
    {
        match listing::names_after(alloc, after, reply)? {
            Some(names) => self.listed(alloc, around, names, written),
            None => Ok(Next::At(Stage::Absent)),
        }
    }

    // A directory's next names.
    fn listed(
        &self,
        alloc: Global,
        around: Place,
        mut names: VecDeque<Name>,
        written: &mut Vec<u8>,
    ) -> Result<Next, AllocError>
        requires { IsPlaced self.now.top around }
        ensures { IfOk result (λ next. Goes (seen self.now) next
            written.old.items written.new.items
            (listed (seen self.now) around.below names.items)) }
    {
        let Some(name) = names.pop_front() else {
            let stage = put_end(&around.below, written)?;
            return Ok(Next::To(around, stage, names));
        };
        match next_place(alloc, &self.top, &around.below, &name)? {
            Some(place) => Ok(Next::To(place, Stage::Look, names)),
            None => Ok(Next::At(Stage::Overlong)),
        }
    }

    // Goes on.
    fn go(&mut self, next: Next)
        requires { CanGo self.old.top next }
        ensures { seen self.new ≡ gone (seen self.old) next }
    {
        match next {
            Next::At(stage) => self.stage = stage,
            Next::Clear(stage) => {
                self.stage = stage;
                self.names.clear();
            }
            Next::Held(place) => {
                self.place = place;
                self.stage = Stage::Look;
                let _first = self.names.pop_front();
            }
            Next::To(place, stage, names) => {
                self.place = place;
                self.stage = stage;
                self.names = names;
            }
        }
    }
}

impl Place {
    // A copy.
    fn copy(&self) -> Result<Place, AllocError>
        ensures { IfOk result (λ copy. copy ≡ self.now) }
    {
        Ok(Place {
            below: self.below.clone()?,
            path: self.path.clone()?,
        })
    }
}

// Where the entry of a name in a directory stands, where its path in the tree is short.
fn next_place(
    alloc: Global,
    top: &Path,
    around: &Path,
    name: &Name,
) -> Result<Option<Place>, AllocError>
    ensures { IfOk result (λ found. IsNextPlace top.now around.now name.now found) }
{
    let Some(one) = relative(alloc, name.as_bytes())? else {
        return Ok(None);
    };
    let Some(below) = joined(alloc, around, &one)? else {
        return Ok(None);
    };
    match joined(alloc, top, &below)? {
        Some(path) => Ok(Some(Place { below, path })),
        None => Ok(None),
    }
}

// A path that is copied, as one for a command.
fn for_command(path: &Path) -> Result<Path, AllocError>
    ensures copy { IfOk result (λ copy. copy ≡ path.now) }
    ensures short { IsShortPath path.now }
{
    let _text = path.as_bytes();
    path.clone()
}

// The last name of a path.
fn last_name(alloc: Global, path: &Path) -> Result<Option<Name>, AllocError>
    ensures found { IfOk result (λ found. found ≡ last_name path.now) }
    ensures name { IfOk result IsAfter }
{
    let _text = path.as_bytes();
    let mut names = path.names(alloc)?;
    Ok(names.pop())
}

// What comes after all that is at a path below the exported one, which a byte ends there.
fn put_end(path: &Path, written: &mut Vec<u8>) -> Result<Stage, AllocError>
    ensures stage { IfOk result (λ stage. stage ≡ closed_stage path.now) }
    ensures written { OnOk result
        (written.new.items ≡ written.old.items ++ closed_bytes path.now) }
{
    if path.is_root() {
        written.push(END)?;
        Ok(Stage::Whole)
    } else {
        Ok(Stage::Beside)
    }
}

// The head that the reply to a `stat` gives.
fn head_in(path: &Path, reply: &Reply) -> Result<Option<Head>, AllocError>
    ensures head { IfOk result (λ found. found ≡ head_in path.now reply.now) }
    ensures fits { IfOk result (λ found. IfSome found IsHead) }
{
    let (mode, len) = match reply {
        Reply::Dir(mode) => (*mode, None),
        Reply::File(len, mode) => (*mode, Some(*len)),
        Reply::Done | Reply::Bytes(_) | Reply::Names(_) | Reply::Refused(_) => return Ok(None),
    };
    if mode > MAX_MODE || len.unwrap_or(0) > MAX_FILE {
        return Ok(None);
    }
    // Each path is short.
    prove!(path.as_bytes().len() <= MAX_PATH);
    Ok(Some(Head {
        path: path.clone()?,
        mode,
        len,
    }))
}

// Writes a head, after the stream's first bytes where it is the first one.
fn put_head(head: &Head, written: &mut Vec<u8>) -> Result<(), AllocError>
    requires { IsHead head.now }
    ensures { OnOk result (written.new.items
        ≡ written.old.items ++ (magic_before head.now.path ++ head_bytes head.now)) }
{
    if head.path.is_root() {
        written.extend_from_slice(MAGIC)?;
    }
    let mut array = [0; MAX_HEAD];
    let left = left_by(head, &mut array);
    written.extend_from_slice(&array[..MAX_HEAD - left])
}

// Writes a head into an array, and says how many bytes it leaves.
fn left_by(head: &Head, array: &mut [u8; MAX_HEAD]) -> usize
    requires { IsHead head.now }
    ensures left { result + length (head_bytes head.now) ≡ 520 }
    ensures head { take (length (head_bytes head.now)) array.new ≡ head_bytes head.now }
{
    let mut out = Out::new(array);
    head.write(&mut out);
    out.left()
}

// The bytes that the reply to a `read` gives.
fn piece_in(size: u32, reply: &Reply) -> Option<&[u8]>
    ensures { option_map (λ bytes. bytes.now) result ≡ piece_in size reply.now }
{
    match reply {
        Reply::Bytes(bytes) if bytes.len() == size as usize => Some(bytes.as_slice()),
        _ => None,
    }
}

// How many bytes of a file are read together.
fn piece_size(left: u32) -> u32
    ensures { result ≡ piece_size left }
{
    if left < MAX_READ { left } else { MAX_READ }
}

// Why nothing more is asked, where that is no end.
fn verdict(stage: Stage) -> Result<(), ExportFault>
    ensures ok { OnOk result (why_not stage ≡ None) }
    ensures fault { IfErr result (λ fault. why_not stage ≡ Some fault) }
    ensures memory { IfErr result (λ fault. fault ≢ ExportFault.NoMemory) }
{
    match stage {
        Stage::Look | Stage::Piece { .. } | Stage::Inside | Stage::Beside | Stage::Whole => Ok(()),
        Stage::Absent => Err(ExportFault::Refused(Refusal::NotFound)),
        Stage::Overlong => Err(ExportFault::LongPath),
    }
}
