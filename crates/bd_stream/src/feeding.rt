//! The importer: fed with the bytes of a stream, it gives the commands that make its subtree.

ghost use Rattle.std.specs.Prelude.{◌≡◌, ◌≢◌, IfOk, OnOk, IfErr};
ghost use Rattle.bd_stream.specs.Importing.{start};
ghost use Rattle.bd_stream.specs.Feeding.{seen, Takes, Leaves, fault_in, has_ended};

use crate::fault::ImportFault;
use crate::importer::Importer;
use crate::machine::{Machine, Phase};
use bd_command::Command;
use bd_names::Path;
use std::alloc::{AllocError, Global};

impl Importer {
    /// Before the first byte of a stream, whose subtree goes to a path.
    pub fn new(alloc: Global, path: &Path) -> Result<Importer, AllocError>
        ensures { IfOk result (λ importer. seen importer ≡ start path.now) }
    {
        Ok(Importer {
            machine: Machine::new(alloc, path)?,
        })
    }

    /// Takes a piece, and adds the commands that it completes to `out`.
    ///
    /// It returns `BadStream` where the bytes so far begin no stream, and `LongPath` where the next
    /// entry's path would have more than 512 bytes; the commands of all that came before are in
    /// `out` then, and each later call returns the same. Want of memory leaves all as it was.
    pub fn feed(
        &mut self,
        alloc: Global,
        piece: &[u8],
        out: &mut Vec<Command>,
    ) -> Result<(), ImportFault>
        ensures taken { OnOk result
            (Takes (seen self.old) (seen self.new) out.old.items out.new.items piece.now None) }
        ensures fault { IfErr result (λ fault. Leaves fault
            (seen self.old) (seen self.new) out.old.items out.new.items piece.now) }
    {
        let mut next = self.machine.copy()?;
        let mut made = Vec::new(alloc);
        next.take_all(alloc, piece, &mut made)?;
        out.append(&mut made)?;
        self.machine = next;
        answer(self.machine.phase)
    }

    /// Whether the bytes that were fed are a whole stream.
    pub fn whole(&self) -> bool
        ensures { result ≡ has_ended (seen self.now).phase }
    {
        matches!(self.machine.phase, Phase::Ended)
    }
}

// Why nothing more is taken, where that is so.
fn answer(phase: Phase) -> Result<(), ImportFault>
    ensures ok { OnOk result (fault_in phase ≡ None) }
    ensures fault { IfErr result (λ fault. fault_in phase ≡ Some fault) }
    ensures memory { IfErr result (λ fault. fault ≢ ImportFault.NoMemory) }
{
    match phase {
        Phase::Start | Phase::First | Phase::Next | Phase::Data | Phase::Ended => Ok(()),
        Phase::Bad => Err(ImportFault::BadStream),
        Phase::Long => Err(ImportFault::LongPath),
    }
}
