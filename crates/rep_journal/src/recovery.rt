//! The frames of contents.
ghost use Rattle.std.specs.Prelude.{◌≡◌, ◌≢◌, ◌⊎◌, ◌+◌, ◌<◌, ◌≤◌, [], length, IfErr, IfOk, IfSome, MatchResult};
ghost use Rattle.rep_io.specs.Causes.{Rose};
ghost use Rattle.rep_journal.specs.Head.{IsOpen};
ghost use Rattle.rep_journal.specs.State.{IsKeptBy, IsRead};
ghost use Rattle.rep_journal.specs.Recovery.{RestsFrom};
ghost use Rattle.rep_journal.specs.Outcome.{RestsUnlessFailed};
ghost use Rattle.rep_journal.specs.Finding.{Finds, HidesNoFault};
ghost use Rattle.rep_journal.specs.Listed.{most_frames};
ghost use Rattle.rep_journal.specs.Scan.{IsScanned, IsScannedTo};

use crate::error::WhyNot;
use crate::frame_list::FrameList;
use crate::head::{Head, read_head};
use crate::scan::take_frames;
use crate::stop::Stop;
use rep_disk::Disk;
use rep_io::OutOfMemory;
use std::alloc::{AllocError, Global};

/// How many bytes are read at a time.
const PIECE: usize = 65_536;

fn zeros(alloc: Global) -> Result<Vec<u8>, AllocError>
    ensures { IfOk result (λ v. length v.items ≡ 65536) }
{
    vec![in alloc; 0; PIECE]
}

// The frames before a closed gate, of which there are some.
fn kept(list: FrameList) -> Result<FrameList, WhyNot>
    ensures kept { IfOk result (λ found. found ≡ list) }
    ensures some { IfOk result (λ found. 1 ≤ length found.frames) }
    ensures none { IfErr result (λ why. (why ≡ WhyNot.Blank) × (list.frames ≡ [])) }
{
    if list.count() == 0 {
        return Err(WhyNot::Blank);
    }
    Ok(list)
}

/// Reads a piece of the contents from the gate behind the frames on, and takes its frames.
fn read_piece<D: Disk>(
    disk: &mut D,
    buffer: &mut [u8],
    list: &mut FrameList,
) -> Result<Stop, WhyNot>
    requires { length buffer.old ≡ 65536 }
    ensures scans { IfSome (D.shown disk.old).contents (λ bytes. IsScanned bytes list.old.frames
        → IfOk result (λ stop. IsScannedTo bytes list.new.frames stop)) }
    ensures limit { length list.old.frames ≤ most_frames }
    ensures more { result ≡ Ok Stop.Cut → length list.old.frames < length list.new.frames }
    ensures why { IfErr result (λ why. (why ≡ WhyNot.DeviceFault) ⊎ (why ≡ WhyNot.OutOfMemory)) }
    ensures kept { IsRead (D.shown disk.old) (D.shown disk.new) }
    ensures cause { IfErr result (λ why. why ≡ WhyNot.DeviceFault → Rose (D.shown disk.old).faults (D.shown disk.new).faults) }
    ensures no_fault { HidesNoFault (D.shown disk.old) (D.shown disk.new) result }
{
    let Ok(count) = disk.read_at(list.end(), buffer) else {
        return Err(WhyNot::DeviceFault);
    };
    if count == 0 {
        return Ok(Stop::Broken);
    }
    let is_last = count < PIECE;
    match take_frames(&buffer[..count], is_last, list) {
        Ok(stop) => Ok(stop),
        Err(OutOfMemory) => Err(WhyNot::OutOfMemory),
    }
}

/// Reads the frames of contents that have the magic and an open first gate, piece by piece.
fn read_pieces<D: Disk>(
    disk: &mut D,
    buffer: &mut [u8],
    list: FrameList,
) -> Result<FrameList, WhyNot>
    requires open_first { IfSome (D.shown disk.old).contents IsOpen }
    requires size { length buffer.old ≡ 65536 }
    requires none { list.frames ≡ [] }
    ensures finds { Finds (D.shown disk.old).contents result }
    ensures some { IfOk result (λ found. 1 ≤ length found.frames) }
    ensures not_present { IfErr result (λ why. why ≢ WhyNot.Present) }
    ensures kept { IsRead (D.shown disk.old) (D.shown disk.new) }
    ensures cause { IfErr result (λ why. why ≡ WhyNot.DeviceFault → Rose (D.shown disk.old).faults (D.shown disk.new).faults) }
    ensures no_fault { HidesNoFault (D.shown disk.old) (D.shown disk.new) result }
{
    let mut list = list;
    loop {
        match read_piece(disk, buffer, &mut list) {
            Err(why) => return Err(why),
            Ok(Stop::Closed) => return kept(list),
            Ok(Stop::Broken) => return Err(WhyNot::Damaged { at: list.end() }),
            Ok(Stop::Cut) => {}
        }
    }
}

/// The same, with a buffer for a piece.
fn read_frames<D: Disk>(alloc: Global, disk: &mut D) -> Result<FrameList, WhyNot>
    requires { IfSome (D.shown disk.old).contents IsOpen }
    ensures finds { Finds (D.shown disk.old).contents result }
    ensures some { IfOk result (λ found. 1 ≤ length found.frames) }
    ensures not_present { IfErr result (λ why. why ≢ WhyNot.Present) }
    ensures kept { IsRead (D.shown disk.old) (D.shown disk.new) }
    ensures cause { IfErr result (λ why. why ≡ WhyNot.DeviceFault → Rose (D.shown disk.old).faults (D.shown disk.new).faults) }
    ensures no_fault { HidesNoFault (D.shown disk.old) (D.shown disk.new) result }
{
    let Ok(mut buffer) = zeros(alloc) else {
        return Err(WhyNot::OutOfMemory);
    };
    read_pieces(disk, &mut buffer, FrameList::new(alloc))
}

/// Makes sure of the contents, and reads their frames.
pub(crate) fn find<D: Disk>(alloc: Global, disk: &mut D) -> Result<FrameList, WhyNot>
    ensures finds { Finds (D.shown disk.old).contents result }
    ensures not_present { IfErr result (λ why. why ≢ WhyNot.Present) }
    ensures kept { IsKeptBy (D.shown disk.old) (D.shown disk.new) }
    ensures some { IfOk result (λ list. 1 ≤ length list.frames) }
    ensures rest { MatchResult result
        (λ _. RestsFrom ((D.shown disk.old).moment + 2) (D.shown disk.new))
        (λ why. RestsUnlessFailed why (D.shown disk.old) (D.shown disk.new)) }
    ensures cause { IfErr result (λ why. why ≡ WhyNot.DeviceFault → Rose (D.shown disk.old).faults (D.shown disk.new).faults) }
    ensures no_fault { HidesNoFault (D.shown disk.old) (D.shown disk.new) result }
{
    if disk.sync().is_err() {
        return Err(WhyNot::DeviceFault);
    }
    let Ok(head) = read_head(disk) else {
        return Err(WhyNot::DeviceFault);
    };
    match head {
        Head::Short | Head::Closed => Err(WhyNot::Blank),
        Head::Foreign => Err(WhyNot::Foreign),
        Head::Open => read_frames(alloc, disk),
    }
}
