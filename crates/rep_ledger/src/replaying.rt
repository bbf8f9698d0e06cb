//! The history that a journal keeps.
ghost use Rattle.std.specs.Prelude.{◌≡◌, ◌≢◌, ℕ, ◌≤◌, List, length, IfOk, IsSome};
ghost use Rattle.rep_io.specs.Causes.{Rose};
ghost use Rattle.afd_records.specs.Record.{last_nsr};
ghost use Rattle.rep_wire.specs.declared.request.Entry.{Entry as TheEntry};
ghost use Rattle.rep_core.specs.Core.{Stands};
ghost use Rattle.rep_core.specs.Valid.{IsFounded};
ghost use Rattle.rep_journal.specs.State.{IsRead};
ghost use Rattle.rep_ledger.specs.Ledger.{MisfitAmong, frames_of};

use crate::taking::{NotTaken, take_in};
use rep_core::Core;
use rep_disk::Disk;
use rep_journal::Journal;
use std::alloc::Global;

/// The greatest number of a record.
const GREATEST_NSR: u32 = 999_999_999;

/// Why a journal keeps no history.
#[derive(Clone, Copy, Debug, PartialEq, Eq)]
pub enum NotReplayed {
    /// The frame behind the gate at `at` is of no entry that can stand there.
    Misfit {
        /// The place of the gate, in bytes from the start of the contents.
        at: u64,
    },
    /// The disk failed.
    DeviceFault,
    /// There wasn't enough memory.
    OutOfMemory,
}

/// A core that stands for the history which a journal keeps. Its numbers end with 999,999,999.
///
/// # Errors
///
/// `Misfit` exactly where a frame is of no entry that can stand there, over a disk that tells its contents; it names the
/// place of the first such frame's gate. `DeviceFault` exactly where the disk failed in this call. `OutOfMemory`.
pub fn replay<D: Disk>(alloc: Global, journal: &mut Journal<D>) -> Result<Core, NotReplayed>
    requires { 1 ≤ length journal.old.frames }
    ensures founded { IfOk result (λ core. (h : List TheEntry) → Stands core h → IsFounded h) }
    ensures replayed { IfOk result (λ core. (h : List TheEntry) → Stands core h
        → IsSome (D.shown journal.old.disk).contents → journal.old.frames ≡ frames_of h) }
    ensures count { IfOk result (λ core. (h : List TheEntry) → Stands core h → length h ≡ length journal.old.frames) }
    ensures limit { IfOk result (λ core. core.limit ≡ last_nsr) }
    ensures misfit { (at : ℕ) → result ≡ Err (NotReplayed.Misfit at)
        → IsSome (D.shown journal.old.disk).contents → MisfitAmong journal.old.frames at }
    ensures device_fault { result ≡ Err NotReplayed.DeviceFault
        → Rose (D.shown journal.old.disk).faults (D.shown journal.new.disk).faults }
    ensures no_fault { result ≢ Err NotReplayed.DeviceFault
        → (D.shown journal.new.disk).faults ≡ (D.shown journal.old.disk).faults }
    ensures frames { journal.new.frames ≡ journal.old.frames }
    ensures faults { IfOk result (λ core. journal.new.faults ≡ journal.old.faults) }
    ensures disk { IsRead (D.shown journal.old.disk) (D.shown journal.new.disk) }
{
    let mut core = Core::new(alloc, GREATEST_NSR);
    let count = journal.count();
    for i in 0..count {
        let Ok(frame) = journal.frame(i) else {
            return Err(NotReplayed::DeviceFault);
        };
        match take_in(&mut core, frame.origin(), frame.seq(), frame.line()) {
            Ok(()) => {}
            Err(NotTaken::Misfit) => {
                return Err(NotReplayed::Misfit {
                    at: journal.gate_of(i),
                });
            }
            Err(NotTaken::OutOfMemory) => return Err(NotReplayed::OutOfMemory),
        }
    }
    Ok(core)
}
