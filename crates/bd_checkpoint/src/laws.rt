//! What follows from the definitions of what is known between two calls.

ghost use Rattle.std.specs.Prelude.{ℕ, List, Bool};
ghost use Rattle.bd_device.specs.Device.{left_now, Goes, OnlyReads};
ghost use Rattle.bd_table.specs.Tables.{AreFreeSlots};
ghost use Rattle.bd_log.specs.Logs.{LogState};
ghost use Rattle.bd_super.specs.declared.superblock.Super.{Super};
ghost use Rattle.bd_image.specs.Standing.{IsAsBefore};
ghost use Rattle.bd_checkpoint.specs.Kept.{Saved, slots_held, IsOpenOn, AllAsBefore};
ghost use Rattle.bd_checkpoint.specs.Spare.{WritesSpare};

use bd_device::Device;
use bd_log::laws::batches_are_one;
use bd_table::laws::tables_are_read_again;

/// A record that is appended to the log changes nothing of what is known: it only waits.
pub fn appends_stay_open<D: Device>(dev: &D)
    ensures { (live : Super) (saved : Saved) (log : LogState) (waiting : List (List ℕ))
        → IsOpenOn D.Device dev.now live saved log
        → IsOpenOn D.Device dev.now live saved (record log { waiting = waiting }) }
{}

/// Writes to slots that the last checkpoint doesn't hold change nothing of what is known, and an
/// image that a crash inside them or after them leaves stands for what one of before stood for. So
/// it is with the nodes and the table of the next checkpoint, before its superblock is published.
pub fn spare_writes_stay_open<D: Device>(first: &D, last: &D)
    ensures open { (live : Super) (saved : Saved) (log : LogState) (spare : List Bool)
        → IsOpenOn D.Device first.now live saved log
        → AreFreeSlots live.slots (slots_held saved) spare
        → WritesSpare D.Device first.now last.now spare
        → IsOpenOn D.Device last.now live saved log }
    ensures time { (live : Super) (saved : Saved) (log : LogState) (spare : List Bool)
        → IsOpenOn D.Device first.now live saved log
        → AreFreeSlots live.slots (slots_held saved) spare
        → WritesSpare D.Device first.now last.now spare
        → Goes D.Device first.now last.now (IsAsBefore (left_now D.Device first.now)) }
    ensures kept { (live : Super) (saved : Saved) (log : LogState) (spare : List Bool)
        → IsOpenOn D.Device first.now live saved log
        → AreFreeSlots live.slots (slots_held saved) spare
        → WritesSpare D.Device first.now last.now spare
        → AllAsBefore (left_now D.Device first.now) (left_now D.Device last.now) }
{
    tables_are_read_again();
    batches_are_one();
}

/// Reads change nothing of what is known.
pub fn reads_stay_open<D: Device>(first: &D, last: &D)
    ensures open { (live : Super) (saved : Saved) (log : LogState)
        → IsOpenOn D.Device first.now live saved log
        → OnlyReads D.Device first.now last.now
        → IsOpenOn D.Device last.now live saved log }
    ensures kept { OnlyReads D.Device first.now last.now
        → AllAsBefore (left_now D.Device first.now) (left_now D.Device last.now) }
{}
