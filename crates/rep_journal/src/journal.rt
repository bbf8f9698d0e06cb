ghost use Rattle.std.specs.Prelude.{◌≡◌, ◌+◌, ◌<◌, ◌≤◌, ◌↔◌, ◌⊎◌, length, slice_get, Some, ℕ, ◌≢◌, is_err, IsSome, IfOk, IfErr, IfSome, OnErr, OnOk, MatchResult};
ghost use Rattle.rep_io.specs.Causes.{Rose};
ghost use Rattle.rep_disk.specs.Disk.{IsUntouched};

use crate::error::{DeviceFault, NotMade, Stopped, WhyNot};
use crate::format::{ROOM_OF_FRAME, SIZE_OF_MAGIC};
use crate::frame::Frame;
use crate::frame_list::FrameList;
use crate::head::{Head, read_head};
use crate::putting::{append, begin};
use crate::recovery::find;
use crate::vacant::Vacant;
use rep_disk::Disk;
use rep_io::OutOfMemory;
use std::alloc::Global;
use std::marker::Model;

/// A journal over a disk: the frames that it has. In this form it keeps them in a list.
#[derive(Drop)]
pub struct Journal<D: Disk> {
    disk: D,
    list: FrameList,
    // for how many frames more there is room, in the list and in the disk
    spare: u32,
    faults: u64,
}

impl<D: Disk> Model for Journal<D> {
    ghost use Rattle.rep_journal.specs.State.{State};
    ghost use Rattle.rep_journal.specs.Fields.{IsKept};

    ghost Value = { State D };

    ghost view = { λ j. record { disk = j.disk; frames = j.list.frames; spare = j.spare; faults = j.faults } };

    ghost invariant = { λ j. IsKept (D.shown j.disk) j.list j.spare };
}

impl<D: Disk> Journal<D> {
    ghost use Rattle.rep_journal.specs.Format.{BrokenAt, IsBlank, IsForeign, IsOfKind, IsPresent, Keeps, gate_at};
    ghost use Rattle.rep_journal.specs.State.{Appends, Begins, FailsToBegin, IsKeptBy, IsRead, IsSame, IsSettled, StopsAt};
    ghost use Rattle.rep_journal.specs.Recovery.{Creates, OpensGate, Puts, RestsFrom};
    ghost use Rattle.rep_journal.specs.Outcome.{Refuses, RestsUnlessFailed};
    ghost use Rattle.rep_journal.specs.Fields.{IsBlankBy};
    ghost use Rattle.rep_journal.specs.Listed.{most_frames};

    /// Looks at a disk on which a journal is to be made, and takes all memory that `create` needs. It writes nothing.
    ///
    /// # Errors
    ///
    /// `Foreign` exactly where the contents aren't blank and lack the magic, `Present` exactly where they aren't blank
    /// and have it, `DeviceFault` exactly where the disk failed in this call, and `OutOfMemory`.
    pub fn look(alloc: Global, disk: D) -> Result<Vacant<D>, NotMade<D>>
        ensures vacant { IfOk result (λ vacant. IfSome (D.shown disk).contents IsBlank) }
        ensures foreign { Refuses IsForeign WhyNot.Foreign (D.shown disk).contents result }
        ensures present { Refuses IsPresent WhyNot.Present (D.shown disk).contents result }
        ensures device_fault { IfErr result (λ e. e.why ≡ WhyNot.DeviceFault → Rose (D.shown disk).faults (D.shown e.disk).faults) }
        ensures no_fault { MatchResult result
            (λ vacant. (D.shown vacant).faults ≡ (D.shown disk).faults)
            (λ e. e.why ≢ WhyNot.DeviceFault → (D.shown e.disk).faults ≡ (D.shown disk).faults) }
        ensures no_other { IfErr result (λ e. (e.why ≡ WhyNot.Foreign) ⊎ (e.why ≡ WhyNot.Present) ⊎ (e.why ≡ WhyNot.DeviceFault) ⊎ (e.why ≡ WhyNot.OutOfMemory)) }
        ensures kept { MatchResult result (λ vacant. IsRead (D.shown disk) (D.shown vacant)) (λ e. IsRead (D.shown disk) (D.shown e.disk)) }
    {
        let mut disk = disk;
        let Ok(head) = read_head(&mut disk) else {
            return Err(NotMade {
                disk,
                why: WhyNot::DeviceFault,
            });
        };
        match head {
            Head::Foreign => Err(NotMade {
                disk,
                why: WhyNot::Foreign,
            }),
            Head::Open => Err(NotMade {
                disk,
                why: WhyNot::Present,
            }),
            Head::Short => Journal::vacant(alloc, disk, true),
            Head::Closed => Journal::vacant(alloc, disk, false),
        }
    }

    // Takes the memory for a journal.
    fn vacant(alloc: Global, disk: D, is_short: bool) -> Result<Vacant<D>, NotMade<D>>
        requires { IsBlankBy is_short (D.shown disk) }
        ensures memory { IfErr result (λ e. e.why ≡ WhyNot.OutOfMemory) }
        ensures untouched { MatchResult result (λ vacant. IsUntouched (D.shown disk) (D.shown vacant)) (λ e. IsUntouched (D.shown disk) (D.shown e.disk)) }
    {
        let mut disk = disk;
        let mut list = FrameList::new(alloc);
        if list.reserve().is_err() || disk.reserve(SIZE_OF_MAGIC + ROOM_OF_FRAME).is_err() {
            return Err(NotMade {
                disk,
                why: WhyNot::OutOfMemory,
            });
        }
        Ok(Vacant {
            disk,
            is_short,
            list,
        })
    }

    /// Makes a journal on a vacant disk, with its first frame. Where the contents have at most 17 bytes, it writes the
    /// magic and a closed gate before. It takes no memory.
    ///
    /// # Errors
    ///
    /// `DeviceFault` alone, and exactly where the disk failed in this call. The contents are then blank, or have the
    /// first frame.
    pub fn create(vacant: Vacant<D>, first: &Frame) -> Result<Journal<D>, NotMade<D>>
        ensures created { IfOk result (Begins D.shown first.now vacant) }
        ensures device_fault { IfErr result (λ e. (e.why ≡ WhyNot.DeviceFault) × FailsToBegin first.now (D.shown vacant) (D.shown e.disk)) }
        ensures crash { MatchResult result (λ journal. Creates first.now (D.shown vacant) (D.shown journal.disk)) (λ e. Creates first.now (D.shown vacant) (D.shown e.disk)) }
    {
        let Vacant {
            mut disk,
            is_short,
            mut list,
        } = vacant;
        if begin(&mut disk, is_short, first).is_err() {
            return Err(NotMade {
                disk,
                why: WhyNot::DeviceFault,
            });
        }
        list.push(first.copy());
        Ok(Journal {
            disk,
            list,
            spare: 0,
            faults: 0,
        })
    }

    /// Finds the journal that stands on a disk. It makes sure of the contents first, and then reads them.
    ///
    /// # Errors
    ///
    /// `Blank` exactly where the contents are blank, `Foreign` exactly where they aren't blank and lack the magic, and
    /// `Damaged` exactly where they aren't blank and an open gate isn't followed by a whole frame and a gate byte.
    /// `DeviceFault` exactly where the disk failed in this call, and `OutOfMemory`, also where there are more frames than
    /// a journal can have.
    pub fn reopen(alloc: Global, disk: D) -> Result<Journal<D>, NotMade<D>>
        ensures reopened { IfOk result (λ journal. IfSome (D.shown disk).contents (λ bytes. IsOfKind bytes (Keeps journal.frames))) }
        ensures some { IfOk result (λ journal. 1 ≤ length journal.frames) }
        ensures no_faults { IfOk result (λ journal. journal.faults ≡ 0) }
        ensures blank { Refuses IsBlank WhyNot.Blank (D.shown disk).contents result }
        ensures foreign { Refuses IsForeign WhyNot.Foreign (D.shown disk).contents result }
        ensures damaged { (at : ℕ) → Refuses (λ bytes. BrokenAt bytes at) (WhyNot.Damaged at) (D.shown disk).contents result }
        ensures device_fault { IfErr result (λ e. e.why ≡ WhyNot.DeviceFault → Rose (D.shown disk).faults (D.shown e.disk).faults) }
        ensures no_fault { MatchResult result
            (λ journal. (D.shown journal.disk).faults ≡ (D.shown disk).faults)
            (λ e. e.why ≢ WhyNot.DeviceFault → (D.shown e.disk).faults ≡ (D.shown disk).faults) }
        ensures not_present { IfErr result (λ e. e.why ≢ WhyNot.Present) }
        ensures kept { MatchResult result (λ journal. IsKeptBy (D.shown disk) (D.shown journal.disk)) (λ e. IsKeptBy (D.shown disk) (D.shown e.disk)) }
        ensures rest { MatchResult result
            (λ journal. RestsFrom ((D.shown disk).moment + 2) (D.shown journal.disk))
            (λ e. RestsUnlessFailed e.why (D.shown disk) (D.shown e.disk)) }
    {
        let mut disk = disk;
        match find(alloc, &mut disk) {
            Ok(list) => Ok(Journal {
                disk,
                list,
                spare: 0,
                faults: 0,
            }),
            Err(why) => Err(NotMade { disk, why }),
        }
    }

    /// How many frames there are.
    pub fn count(&self) -> u32
        ensures count { result ≡ length self.now.frames }
        ensures within { result ≤ most_frames }
        ensures room { length self.now.frames + self.now.spare ≤ most_frames }
        ensures settled { IsSettled self.now.frames (D.shown self.now.disk) }
    {
        self.list.count()
    }

    /// The place of the gate in front of a frame, in bytes from the start of the contents.
    pub fn gate_of(&self, i: u32) -> u64
        requires { i < length self.now.frames }
        ensures { result ≡ gate_at self.now.frames i }
    {
        self.list.gate_of(i)
    }

    /// A frame.
    ///
    /// # Errors
    ///
    /// `DeviceFault` exactly where the disk failed in this call.
    pub fn frame(&mut self, i: u32) -> Result<Frame, DeviceFault>
        requires { i < length self.old.frames }
        ensures frame { IfOk result (λ frame. IsSome (D.shown self.old.disk).contents → slice_get self.old.frames i ≡ Some frame) }
        ensures device_fault { OnErr result (Rose (D.shown self.old.disk).faults (D.shown self.new.disk).faults) }
        ensures kept { IsSame D.shown (is_err result) self.old self.new }
    {
        Ok(self.list.frame(i))
    }

    /// Makes room for one frame more, in the journal and in its disk.
    ///
    /// # Errors
    ///
    /// `OutOfMemory`, also where the journal has the most frames that it can have.
    pub fn reserve(&mut self) -> Result<(), OutOfMemory>
        ensures made { OnOk result (1 ≤ self.new.spare) }
        ensures spare { self.old.spare ≤ self.new.spare }
        ensures frames { self.new.frames ≡ self.old.frames }
        ensures faults { self.new.faults ≡ self.old.faults }
        ensures untouched { IsUntouched (D.shown self.old.disk) (D.shown self.new.disk) }
    {
        if self.spare > 0 {
            return Ok(());
        }
        self.list.reserve()?;
        self.disk.reserve(ROOM_OF_FRAME)?;
        self.spare = 1;
        Ok(())
    }

    /// Appends a frame: writes it behind the closed gate and makes sure of it, and then opens the gate and makes sure
    /// of that. It takes no memory.
    ///
    /// # Errors
    ///
    /// `Stopped` exactly where the disk failed in this call. The contents then have the frames from before, with the new
    /// one or without it. Once the frame is sure, only the gate's byte is open to a crash, until the call has succeeded.
    pub fn put(self, frame: &Frame) -> Result<Journal<D>, Stopped<D>>
        requires { 1 ≤ self.spare }
        ensures put { IfOk result (Appends D.shown frame.now self) }
        ensures stopped { IfErr result (λ stopped. StopsAt D.shown frame.now self stopped.disk stopped.faults stopped.count) }
        ensures crash { MatchResult result
            (λ journal. Puts self.frames frame.now (D.shown self.disk) (D.shown journal.disk))
            (λ stopped. Puts self.frames frame.now (D.shown self.disk) (D.shown stopped.disk)) }
        ensures at_gate { MatchResult result
            (λ journal. OpensGate self.frames frame.now (D.shown self.disk) (D.shown journal.disk) ((D.shown self.disk).moment + 7))
            (λ stopped. OpensGate self.frames frame.now (D.shown self.disk) (D.shown stopped.disk) (D.shown stopped.disk).moment) }
    {
        let Journal {
            mut disk,
            mut list,
            spare,
            faults,
        } = self;
        if append(&mut disk, list.end(), frame).is_err() {
            return Err(Stopped {
                disk,
                faults: faults.saturating_add(1),
                count: list.count(),
            });
        }
        list.push(frame.copy());
        Ok(Journal {
            disk,
            list,
            spare: spare - 1,
            faults,
        })
    }

    /// The disk as it stands.
    pub fn disk(&self) -> &D
        ensures { result.now ≡ self.now.disk }
    {
        &self.disk
    }

    /// The disk.
    pub fn into_disk(self) -> D
        ensures disk { result ≡ self.disk }
        ensures settled { IsSettled self.frames (D.shown result) }
    {
        self.disk
    }
}
