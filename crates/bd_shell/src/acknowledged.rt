//! A volume whose syncs are acknowledged.

ghost use Rattle.std.specs.Prelude.{◌≡◌, ◌⊎◌, ℕ, [], None, IfErr, OnOk, OnErr};
ghost use Rattle.bd_device.specs.Device.{Stays};
ghost use Rattle.bd_shell.specs.Fault.{IsCaused};
ghost use Rattle.bd_shell.specs.Transcript.{State, synced_state, with_view};
ghost use Rattle.bd_shell.specs.Session.{Later};
ghost use Rattle.bd_shell.specs.Shell.{KeptAt, Acknowledges, FailsNoWrite, acks_below, counts_of, device_below, stop_below};

use crate::fault::Fault;
use crate::outcome::Ack;
use bd_device::Device;
use bd_keys::Items;
use bd_volume::Volume;
use std::alloc::Global;
use std::mem;

/// A volume, with what was acknowledged of it.
#[derive(Drop)]
pub struct Acknowledged<D: Device> {
    /// The volume.
    pub volume: Volume<D>,
    acks: Vec<Ack>,
}

impl<D: Device + Drop> Acknowledged<D> {
    /// A volume of which nothing is acknowledged yet.
    pub fn new(alloc: Global, volume: Volume<D>) -> Acknowledged<D>
        ensures volume { result.volume ≡ volume }
        ensures acks { result.acks.items ≡ [] }
    {
        Acknowledged {
            volume,
            acks: Vec::new(alloc),
        }
    }

    /// Makes all that was accepted durable, and acknowledges it, with the number of the device's
    /// calls right after the sync. `Memory` comes before a sync is made, `Device` where it failed;
    /// neither leaves an acknowledgement.
    pub fn acknowledge(&mut self) -> Result<(), Fault>
        requires { stop_below self.old ≡ None }
        ensures ok { OnOk result ((first : D) (since : ℕ) (s : State)
            → KeptAt D.Device first since self.old s
            → Later (synced_state s) (KeptAt D.Device first since self.new) s) }
        ensures err { OnErr result ((first : D) (since : ℕ) (s : State)
            → KeptAt D.Device first since self.old s
            → Later (with_view s s.view) (KeptAt D.Device first since self.new) s) }

        // Whatever the volume stands for.
        ensures acked { OnOk result (Acknowledges D.Device self.old self.new) }
        ensures unacked { OnErr result (acks_below self.new ≡ acks_below self.old) }
        ensures kind { IfErr result (λ e. (e ≡ Fault.Device) ⊎ (e ≡ Fault.Memory)) }
        ensures going { OnOk result (stop_below self.new ≡ None) }
        ensures device { Stays D.Device (device_below self.old) (device_below self.new) }
        ensures writes { FailsNoWrite D.Device (device_below self.old) (device_below self.new)
            result }
        ensures cause { (sink : ℕ) → IsCaused (counts_of D.Device (device_below self.old) sink)
            (counts_of D.Device (device_below self.new) sink)
            (D.last_failed (device_below self.new)) result }
    {
        self.acks.reserve(1)?;
        if self.volume.sync().is_err() {
            return Err(Fault::Device);
        }
        let ack = Ack {
            calls: self.volume.calls(),
            count: self.volume.count(),
        };
        match self.acks.push(ack) {
            Ok(()) => Ok(()),
            Err(_full) => unreachable!(),
        }
    }

    /// What was acknowledged, which is given up: then nothing is.
    pub fn take_acks(&mut self, alloc: Global) -> Items<Ack>
        ensures acks { result ≡ self.old.acks.items }
        ensures volume { self.new.volume ≡ self.old.volume }
    {
        Items::from_vec(mem::replace(&mut self.acks, Vec::new(alloc)))
    }

    /// The device, which is given up.
    pub fn into_device(self) -> D
        ensures { result ≡ device_below self }
    {
        let Acknowledged { volume, .. } = self;
        volume.into_device()
    }
}
