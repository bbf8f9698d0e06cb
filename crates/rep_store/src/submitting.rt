//! Requests, answered one after another.
ghost use Rattle.std.specs.Prelude.{◌≡◌, ◌↔◌, ◌≤◌, ◌++◌, List, [], ◌∷◌, length, OnOk, OnErr, None};
ghost use Rattle.rep_fields.specs.Moment.{IsMoment, day_of};
ghost use Rattle.afd_records.specs.Record.{last_nsr};
ghost use Rattle.rep_wire.specs.Request.{IsRequest};
ghost use Rattle.rep_wire.specs.declared.request.Entry.{Entry};
ghost use Rattle.rep_core.specs.Core.{Stands, IsReady};
ghost use Rattle.rep_core.specs.Verdict.{IsVerdict};
ghost use Rattle.rep_core.specs.Answered.{entry_of, recorded_after};
ghost use Rattle.rep_ledger.specs.Ledger.{next_frame};
ghost use Rattle.rep_store.specs.Device.{PutsFrame, Reserves, StopsAtFrame};

use crate::days::DayList;
use crate::device::Device;
use crate::error::Stop;
use crate::store::Store;
use rep_core::{Core, Verdict};
use rep_disk::Disk;
use rep_fields::Stamp;
use rep_io::{Clock, OutOfMemory};
use rep_journal::DeviceFault;
use rep_ledger::frame_of;
use rep_wire::{Reply, Request};

impl<D: Disk, C: Clock> Store<D, C> {
    ghost use Rattle.std.specs.Prelude.{◌≡◌, ◌↔◌, ℕ, IfOk, None, Some};
    ghost use Rattle.rep_wire.specs.Request.{IsRequest};
    ghost use Rattle.rep_core.specs.Verdict.{IsVerdict};
    ghost use Rattle.rep_core.specs.declared.verdict.Verdict.{Verdict};
    ghost use Rattle.rep_ledger.specs.Safety.{IsSafe};
    ghost use Rattle.rep_store.specs.Steps.{LeavesAll, MissesTime, Serves, Stops, Tries, receipts_of, recorded_at};

    /// Answers a request that some line of a lane asks: a receipt where its entry stands, recorded now or before, and
    /// else its refusal. A receipt is answered once its entry is sure on the disk. A request that was recorded before
    /// and one that is refused take no memory, and neither the clock nor the disk is asked for them.
    ///
    /// # Errors
    ///
    /// `Stopped` exactly where the store stopped before, with the count that it keeps. `OutOfMemory` only for a request
    /// that is to be recorded, and `ClockFault` exactly where the clock failed in this call; then nothing changes.
    /// `DeviceFault` exactly where the disk failed in this call; the store has stopped then.
    pub fn submit(&mut self, q: &Request) -> Result<Reply, Stop>
        requires { IsRequest q.now }
        ensures served { IfOk result (λ reply. Serves D.shown C.readings C.faults q.now reply self.old self.new) }
        ensures stopped { (count : ℕ) → (result ≡ Err (Stop.Stopped count)) ↔ (self.old.stopped ≡ Some count) }
        ensures device_fault { result ≡ Err Stop.DeviceFault
            → Stops D.shown C.readings C.faults q.now self.old self.new }
        ensures clock_fault { result ≡ Err Stop.ClockFault
            → IsVerdict self.old.limit self.old.history q.now Verdict.Fresh
            × MissesTime D.shown C.readings C.faults self.old self.new }
        ensures memory { result ≡ Err Stop.OutOfMemory
            → IsVerdict self.old.limit self.old.history q.now Verdict.Fresh × LeavesAll D.shown self.old self.new }
        ensures left { (count : ℕ) → result ≡ Err (Stop.Stopped count) → LeavesAll D.shown self.old self.new }
        ensures safe { self.old.stopped ≡ None → IsSafe (D.shown self.old.disk).moment self.old.history
            (recorded_at self.old.history q.now self.old.offset self.new.reading)
            (receipts_of (D.shown self.new.disk).moment result) (D.shown self.old.disk) (D.shown self.new.disk) }
    {
        if let Some(faults) = self.device.stopped() {
            self.reading = None;
            return Err(Stop::Stopped { faults });
        }
        match self.core.decide(q, self.core.kept(q)) {
            Verdict::Fresh => self.record(q),
            settled => {
                self.reading = None;
                Ok(self.core.reply(q, settled))
            }
        }
    }

    // Records a request that is to be recorded.
    fn record(&mut self, q: &Request) -> Result<Reply, Stop>
        requires asked { IsRequest q.now }
        requires running { self.old.stopped ≡ None }
        requires fresh { IsVerdict self.old.limit self.old.history q.now Verdict.Fresh }
        ensures step { Tries D.shown C.readings C.faults q.now self.old self.new result }
        ensures safe { IsSafe (D.shown self.old.disk).moment self.old.history
            (recorded_at self.old.history q.now self.old.offset self.new.reading)
            (receipts_of (D.shown self.new.disk).moment result) (D.shown self.old.disk) (D.shown self.new.disk) }
    {
        self.reading = None;
        if take_room(&mut self.core, &mut self.days, &mut self.device, q).is_err() {
            return Err(Stop::OutOfMemory);
        }
        let Ok(minute) = self.clock.now() else {
            return Err(Stop::ClockFault);
        };
        self.reading = Some(minute);
        let Some(now) = Stamp::at(minute, self.site.offset) else {
            unreachable!()
        };
        if put_entry(&mut self.core, &mut self.days, &mut self.device, q, now).is_err() {
            return Err(Stop::DeviceFault);
        }
        Ok(self.core.receipt(q))
    }
}

// Takes the memory that recording a request needs.
fn take_room<D: Disk>(
    core: &mut Core,
    days: &mut DayList,
    device: &mut Device<D>,
    q: &Request,
) -> Result<(), OutOfMemory>
    requires { device.old.stopped ≡ None }
    ensures core { (h : List Entry) → Stands core.old h ↔ Stands core.new h }
    ensures limit { core.new.limit ≡ core.old.limit }
    ensures days { days.new.days ≡ days.old.days }
    ensures device { Reserves D.shown device.old device.new }
    ensures ready { OnOk result (IsReady core.new q.now) }
    ensures day_room { OnOk result (1 ≤ days.new.room) }
    ensures room { OnOk result (1 ≤ device.new.spare) }
{
    core.reserve(q)?;
    days.reserve()?;
    device.reserve()?;
    Ok(())
}

// Puts the entry of a request that is to be recorded, and records it once it is sure.
fn put_entry<D: Disk>(
    core: &mut Core,
    days: &mut DayList,
    device: &mut Device<D>,
    q: &Request,
    now: Stamp,
) -> Result<(), DeviceFault>
    requires running { device.old.stopped ≡ None }
    requires room { 1 ≤ device.old.spare }
    requires day_room { 1 ≤ days.old.room }
    requires ready { IsReady core.old q.now }
    requires asked { IsRequest q.now }
    requires stamp { IsMoment now }
    requires fresh { (h : List Entry) → Stands core.old h → IsVerdict core.old.limit h q.now Verdict.Fresh }
    requires limit { core.old.limit ≤ last_nsr }
    ensures put { OnOk result ((h : List Entry) → Stands core.old h → Stands core.new (recorded_after h q.now now)
        × PutsFrame D.shown (next_frame h (entry_of q.now now)) device.old device.new) }
    ensures repeat { OnOk result ((h : List Entry) → Stands core.new h
        → IsVerdict core.new.limit h q.now (Verdict.Repeat (length h))) }
    ensures stopped { OnErr result ((h : List Entry) → Stands core.old h → Stands core.new h
        × StopsAtFrame D.shown (next_frame h (entry_of q.now now)) device.old device.new) }
    ensures day { OnOk result (days.new.days ≡ days.old.days ++ day_of now ∷ []) }
    ensures days { OnErr result (days.new.days ≡ days.old.days) }
    ensures limit { core.new.limit ≡ core.old.limit }
{
    let frame = frame_of(core, q, now);
    device.put(&frame)?;
    core.accept_line(q, now, frame.line());
    days.push(now.day());
    Ok(())
}
