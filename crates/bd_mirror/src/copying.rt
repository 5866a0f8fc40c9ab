ghost use Rattle.std.specs.Prelude.{◌≡◌, ◌<◌, ◌≤◌, ◌+◌, ◌-◌, ◌⊎◌, ◌&&◌, true, false, if◌then◌else◌, not, Some, IfOk, IfSome, OnOk, OnErr, is_ok, slice_index};
ghost use Rattle.bd_io.specs.Cause.{Rose};
ghost use Rattle.bd_device.specs.Blocks.{Image, HasBlocks};
ghost use Rattle.bd_device.specs.Changes.{StaysBut, IsBeforeBut, IsInRange};
ghost use Rattle.bd_device.specs.Device.{left_now, Goes, OnlyReads, FailsLast, Stays};
ghost use Rattle.bd_device.specs.Moments.{TornAt, IsOnly};
ghost use Rattle.bd_mirror.specs.Contents.{is_open_at, IsCopy, KeepsPick};
ghost use Rattle.bd_mirror.specs.Crashes.{IsPickOf, Stretch, GoesOn};
ghost use Rattle.bd_mirror.specs.Halves.{has_marks, with_halves};
ghost use Rattle.bd_mirror.specs.declared.halves.Halves.TheVariants.{Neither};

use crate::halves::{Attached, Halves};
use bd_device::{BLOCK_SIZE, Device, committed_block, is_committed, read_block, settle};
use bd_io::Failed;

/// Whether the mark of a half is open.
pub fn is_open<D: Device>(half: &mut D, mark: u64) -> Result<bool, Failed>
    requires { mark < D.block_count half.old }
    ensures opens { IfOk result (λ opens. IfSome (D.contents half.old)
        (λ image. is_open_at mark image ≡ opens)) }
    ensures reads { OnlyReads D.Device half.old half.new }
    ensures cause { FailsLast D.Device half.old half.new result }
{
    let block = read_block(half, mark)?;
    Ok(is_committed(&block))
}

/// Whether the mark of a half is open, and that of the other one isn't.
pub fn is_alone(is_open: bool, is_other_open: bool) -> bool
    ensures { result ≡ (is_open && not is_other_open) }
{
    is_open && !is_other_open
}

/// Opens a half's mark, and waits until it is kept.
pub fn open_mark<D: Device>(half: &mut D, mark: u64) -> Result<(), Failed>
    requires room { mark < D.block_count half.old }
    requires shape { IfSome (D.contents half.old) (HasBlocks (D.block_count half.old)) }
    ensures opened { OnOk result
        (IfSome (D.contents half.new) (λ image. is_open_at mark image ≡ true)) }
    ensures others { StaysBut (λ i. i ≡ mark) (D.contents half.old) (D.contents half.new) }
    ensures durable { OnOk result (IsOnly (D.contents half.new) (left_now D.Device half.new)) }
    ensures time { Goes D.Device half.old half.new (TornAt mark (left_now D.Device half.old)) }
    ensures stays { Stays D.Device half.old half.new }
    ensures cause { FailsLast D.Device half.old half.new result }
{
    settle(half, mark, &committed_block())
}

/// Closes a half's mark, and waits until it is kept.
pub fn close_mark<D: Device>(half: &mut D, mark: u64) -> Result<(), Failed>
    requires room { mark < D.block_count half.old }
    requires shape { IfSome (D.contents half.old) (HasBlocks (D.block_count half.old)) }
    ensures closed { OnOk result
        (IfSome (D.contents half.new) (λ image. is_open_at mark image ≡ false)) }
    ensures others { StaysBut (λ i. i ≡ mark) (D.contents half.old) (D.contents half.new) }
    ensures durable { OnOk result (IsOnly (D.contents half.new) (left_now D.Device half.new)) }
    ensures time { Goes D.Device half.old half.new (TornAt mark (left_now D.Device half.old)) }
    ensures stays { Stays D.Device half.old half.new }
    ensures cause { FailsLast D.Device half.old half.new result }
{
    settle(half, mark, &closed_block())
}

// A mark that is closed.
fn closed_block() -> [u8; BLOCK_SIZE]
    ensures { slice_index result 0 ≡ 0 }
{
    [0; BLOCK_SIZE]
}

/// Opens the mark of a half of what is attached, where there is one.
fn open_last<D: Device>(half: &mut D, attached: Attached) -> Result<(), Failed>
    ensures opened { OnOk result (has_marks attached ≡ true → 0 < D.block_count half.old
        → IfSome (D.contents half.new)
        (λ image. is_open_at (D.block_count half.old - 1) image ≡ true)) }
    ensures others { StaysBut (λ i. i ≡ D.block_count half.old - 1)
        (D.contents half.old) (D.contents half.new) }
    ensures durable { OnOk result (has_marks attached ≡ true → 0 < D.block_count half.old
        → IsOnly (D.contents half.new) (left_now D.Device half.new)) }
    ensures time { Goes D.Device half.old half.new
        (TornAt (D.block_count half.old - 1) (left_now D.Device half.old)) }
    ensures stays { Stays D.Device half.old half.new }
    ensures cause { FailsLast D.Device half.old half.new result }
{
    match (attached, half.blocks().checked_sub(1)) {
        (Attached::Pair(_), Some(mark)) => open_mark(half, mark),
        _ => Ok(()),
    }
}

/// Goes on with one of two halves: opens its mark, where there is one. Where that fails, no half is
/// in use.
pub fn go_on_alone<D: Device>(
    half: &mut D,
    attached: &mut Attached,
    alone: Halves,
) -> Result<(), Failed>
    ensures opened { OnOk result (has_marks attached.old ≡ true → 0 < D.block_count half.old
        → IfSome (D.contents half.new)
        (λ image. is_open_at (D.block_count half.old - 1) image ≡ true)) }
    ensures others { StaysBut (λ i. i ≡ D.block_count half.old - 1)
        (D.contents half.old) (D.contents half.new) }
    ensures durable { OnOk result (has_marks attached.old ≡ true → 0 < D.block_count half.old
        → IsOnly (D.contents half.new) (left_now D.Device half.new)) }
    ensures time { Goes D.Device half.old half.new
        (TornAt (D.block_count half.old - 1) (left_now D.Device half.old)) }
    ensures stays { Stays D.Device half.old half.new }
    ensures cause { FailsLast D.Device half.old half.new result }
    ensures alone { attached.new
        ≡ with_halves (if is_ok result then alone else Neither) attached.old }
{
    let result = open_last(half, *attached);
    *attached = attached.kept(alone, result.is_ok());
    result
}

/// Opens a half's mark where it reads closed, and waits until it is kept.
fn open_closed<D: Device>(half: &mut D, mark: u64, is_open: bool) -> Result<(), Failed>
    requires room { mark < D.block_count half.old }
    requires shape { IfSome (D.contents half.old) (HasBlocks (D.block_count half.old)) }
    requires mark { IfSome (D.contents half.old) (λ image. is_open_at mark image ≡ is_open) }
    requires settled { IsOnly (D.contents half.old) (left_now D.Device half.old) }
    ensures opened { OnOk result
        (IfSome (D.contents half.new) (λ image. is_open_at mark image ≡ true)) }
    ensures others { StaysBut (λ i. i ≡ mark) (D.contents half.old) (D.contents half.new) }
    ensures durable { OnOk result (IsOnly (D.contents half.new) (left_now D.Device half.new)) }
    ensures unwritten { is_open ≡ true → half.new ≡ half.old }
    ensures time { Goes D.Device half.old half.new (TornAt mark (left_now D.Device half.old)) }
    ensures stays { Stays D.Device half.old half.new }
    ensures cause { FailsLast D.Device half.old half.new result }
{
    if is_open {
        return Ok(());
    }
    open_mark(half, mark)
}

/// Closes a half's mark where it reads open, and waits until it is kept.
fn close_opened<D: Device>(half: &mut D, mark: u64, is_open: bool) -> Result<(), Failed>
    requires room { mark < D.block_count half.old }
    requires shape { IfSome (D.contents half.old) (HasBlocks (D.block_count half.old)) }
    requires mark { IfSome (D.contents half.old) (λ image. is_open_at mark image ≡ is_open) }
    requires settled { IsOnly (D.contents half.old) (left_now D.Device half.old) }
    ensures closed { OnOk result
        (IfSome (D.contents half.new) (λ image. is_open_at mark image ≡ false)) }
    ensures others { StaysBut (λ i. i ≡ mark) (D.contents half.old) (D.contents half.new) }
    ensures durable { OnOk result (IsOnly (D.contents half.new) (left_now D.Device half.new)) }
    ensures unwritten { is_open ≡ false → half.new ≡ half.old }
    ensures time { Goes D.Device half.old half.new (TornAt mark (left_now D.Device half.old)) }
    ensures stays { Stays D.Device half.old half.new }
    ensures cause { FailsLast D.Device half.old half.new result }
{
    if !is_open {
        return Ok(());
    }
    close_mark(half, mark)
}

/// Opens the mark of a half, its last block, where it reads closed, and waits until it is kept.
pub fn open_member<D: Device>(half: &mut D) -> Result<(), Failed>
    ensures opened { OnOk result (0 < D.block_count half.old → IfSome (D.contents half.new)
        (λ image. is_open_at (D.block_count half.old - 1) image ≡ true)) }
    ensures others { StaysBut (λ i. i ≡ D.block_count half.old - 1)
        (D.contents half.old) (D.contents half.new) }
    ensures time { Goes D.Device half.old half.new
        (TornAt (D.block_count half.old - 1) (left_now D.Device half.old)) }
    ensures stays { Stays D.Device half.old half.new }
    ensures cause { FailsLast D.Device half.old half.new result }
{
    let Some(mark) = half.blocks().checked_sub(1) else {
        return Ok(());
    };
    if is_open(half, mark)? {
        return Ok(());
    }
    open_mark(half, mark)
}

/// Copies this many blocks, and waits until they are kept: whether the copy took them. It fails
/// where the source does.
pub fn copy_blocks<S: Device, C: Device>(
    source: &mut S,
    copy: &mut C,
    count: u64,
) -> Result<bool, Failed>
    requires source_room { count ≤ S.block_count source.old }
    requires copy_room { count < C.block_count copy.old }
    ensures copied { IfOk result (λ took. took ≡ true
        → IsCopy count (S.contents source.old) (C.contents copy.new)) }
    ensures others { StaysBut (IsInRange 0 count) (C.contents copy.old) (C.contents copy.new) }
    ensures durable { IfOk result (λ took. took ≡ true
        → IsOnly (C.contents copy.new) (left_now C.Device copy.new)) }
    ensures time { Goes C.Device copy.old copy.new
        (IsBeforeBut (IsInRange 0 count) (left_now C.Device copy.old)) }
    ensures reads { OnlyReads S.Device source.old source.new }
    ensures cause { FailsLast S.Device source.old source.new result }
    ensures stays { Stays C.Device copy.old copy.new }
    ensures later { C.fault_count copy.old ≤ C.fault_count copy.new }
    ensures lost { IfOk result (λ took. took ≡ false
        → Rose (C.fault_count copy.old) (C.fault_count copy.new)) }
{
    for b in 0..count {
        let block = read_block(source, b)?;
        if copy.write(b, &block).is_err() {
            return Ok(false);
        }
    }
    Ok(copy.barrier().is_ok())
}

/// Makes one half a copy of another one: whether the copy took it. Meanwhile the mark of the source
/// is open and that of the copy closed, and no mark is written that reads so. The mark of the
/// source stays open where the copy didn't take it. It fails where the source does, or a mark.
pub fn mirror_onto<S: Device, C: Device>(
    source: &mut S,
    copy: &mut C,
    mark: u64,
    is_source_open: bool,
    is_copy_open: bool,
) -> Result<bool, Failed>
    requires source_room { mark < S.block_count source.old }
    requires copy_room { mark < C.block_count copy.old }
    requires source_shape { IfSome (S.contents source.old) (HasBlocks (S.block_count source.old)) }
    requires copy_shape { IfSome (C.contents copy.old) (HasBlocks (C.block_count copy.old)) }
    requires source_mark { IfSome (S.contents source.old)
        (λ image. is_open_at mark image ≡ is_source_open) }
    requires copy_mark { IfSome (C.contents copy.old)
        (λ image. is_open_at mark image ≡ is_copy_open) }
    requires source_first { (is_copy_open && not is_source_open) ≡ false }
    requires source_settled { IsOnly (S.contents source.old) (left_now S.Device source.old) }
    requires copy_settled { IsOnly (C.contents copy.old) (left_now C.Device copy.old) }

    // The source keeps all but its mark, and has that open as long as the copy isn't complete.
    ensures source_others { StaysBut (λ i. i ≡ mark)
        (S.contents source.old) (S.contents source.new) }
    ensures source_mark { IfOk result (λ took. IfSome (S.contents source.new)
        (λ image. is_open_at mark image ≡ not took)) }
    ensures source_durable { OnOk result
        (IsOnly (S.contents source.new) (left_now S.Device source.new)) }

    // The copy has its mark closed, also after a crash, and the blocks before it where it took all.
    ensures copied { IfOk result (λ took. took ≡ true
        → IsCopy mark (S.contents source.old) (C.contents copy.new)) }
    ensures copy_others { StaysBut (IsInRange 0 (mark + 1))
        (C.contents copy.old) (C.contents copy.new) }
    ensures copy_mark { OnOk result
        (IfSome (C.contents copy.new) (λ image. is_open_at mark image ≡ false)) }
    ensures copy_durable { IfOk result (λ took. took ≡ true
        → IsOnly (C.contents copy.new) (left_now C.Device copy.new)) }
    ensures copy_left { OnOk result ((c : Image) → left_now C.Device copy.new c
        → is_open_at mark c ≡ false) }

    // Inside it and after it, also where it fails, a crash leaves only what it could before.
    ensures inside { (a b : Image) → S.contents source.old ≡ Some a
        → C.contents copy.old ≡ Some b
        → GoesOn (Stretch S.Device C.Device (IsPickOf mark a b))
        source.old copy.old source.new copy.new }

    // Where it fails, the pick of both is as it was.
    ensures behind { OnErr result (KeepsPick mark (is_source_open && not is_copy_open)
        (S.contents source.old) (C.contents copy.old)
        (S.contents source.new) (C.contents copy.new)) }
    ensures source_stays { Stays S.Device source.old source.new }
    ensures source_later { S.fault_count source.old ≤ S.fault_count source.new }
    ensures copy_stays { Stays C.Device copy.old copy.new }
    ensures copy_later { C.fault_count copy.old ≤ C.fault_count copy.new }
    ensures why { OnErr result (Rose (S.fault_count source.old) (S.fault_count source.new)
        ⊎ Rose (C.fault_count copy.old) (C.fault_count copy.new)) }
    ensures lost { IfOk result (λ took. took ≡ false
        → Rose (C.fault_count copy.old) (C.fault_count copy.new)) }
{
    open_closed(source, mark, is_source_open)?;
    close_opened(copy, mark, is_copy_open)?;
    if !copy_blocks(source, copy, mark)? {
        return Ok(false);
    }
    close_source(source, mark)?;
    Ok(true)
}

// Closes the mark of a source that was copied.
fn close_source<D: Device>(source: &mut D, mark: u64) -> Result<(), Failed>
    requires { mark < D.block_count source.old }
    ensures closed { OnOk result
        (IfSome (D.contents source.new) (λ image. is_open_at mark image ≡ false)) }
    ensures others { StaysBut (λ i. i ≡ mark) (D.contents source.old) (D.contents source.new) }
    ensures durable { OnOk result
        (IsOnly (D.contents source.new) (left_now D.Device source.new)) }
    ensures time { Goes D.Device source.old source.new
        (TornAt mark (left_now D.Device source.old)) }
    ensures stays { Stays D.Device source.old source.new }
    ensures cause { FailsLast D.Device source.old source.new result }
{
    let _ = source.blocks();
    close_mark(source, mark)
}
