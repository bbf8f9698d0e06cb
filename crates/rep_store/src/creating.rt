//! The journal of a site, made on a blank disk.
ghost use Rattle.std.specs.Prelude.{◌≡◌, ◌≤◌, [], MatchResult, IfOk, IfErr, IfSome};
ghost use Rattle.rep_disk.specs.Disk.{IsAtRest};
ghost use Rattle.rep_wire.specs.Request.{IsFounding};
ghost use Rattle.rep_core.specs.Core.{Stands, IsLimit, IsReady};
ghost use Rattle.rep_site.specs.Site.{IsSite};
ghost use Rattle.rep_journal.specs.Format.{IsBlank};
ghost use Rattle.rep_ledger.specs.Safety.{IsSafe};
ghost use Rattle.rep_store.specs.Making.{CrashesSafely, FoundsStore, FoundsNone};

use crate::days::DayList;
use crate::device::Device;
use crate::error::{NoStore, StoreWhy};
use crate::founding::founding_request;
use crate::store::Store;
use rep_core::Core;
use rep_disk::Disk;
use rep_fields::Stamp;
use rep_io::{Clock, OutOfMemory};
use rep_journal::{Journal, Vacant, WhyNot};
use rep_ledger::frame_of;
use rep_site::Site;
use rep_wire::Request;
use std::alloc::Global;

impl<D: Disk, C: Clock> Store<D, C> {
    ghost use Rattle.std.specs.Prelude.{◌≡◌, ◌≢◌, ℕ, [], IfOk, IfErr, IfSome, MatchResult};
    ghost use Rattle.rep_io.specs.Causes.{Rose};
    ghost use Rattle.rep_disk.specs.Disk.{IsAtRest};
    ghost use Rattle.rep_site.specs.Site.{IsSite};
    ghost use Rattle.rep_journal.specs.Format.{IsBlank, IsForeign, IsPresent};
    ghost use Rattle.rep_journal.specs.State.{IsRead};
    ghost use Rattle.rep_ledger.specs.Safety.{IsSafe};
    ghost use Rattle.rep_store.specs.Founding.{founding_request};
    ghost use Rattle.rep_store.specs.Making.{CrashesSafely, Creates, FailsToCreate};
    ghost use Rattle.rep_store.specs.Outcome.{Refuses};

    /// Makes the journal of a site on a blank disk. Its first entry is the site's employer record, with the number 1,
    /// recorded at a reading of the clock. The disk is looked at before the clock, and all memory is taken before that.
    ///
    /// # Errors
    ///
    /// `Foreign` exactly where the contents aren't blank and lack a journal's magic, `Present` exactly where they aren't
    /// blank and have it. `DeviceFault` exactly where the disk failed in this call: it is as it was, is still blank, or
    /// keeps the site's record. `ClockFault` exactly where the clock failed in this call. `OutOfMemory`. But for
    /// `DeviceFault` the disk is as it was.
    pub fn create(
        alloc: Global,
        site: &Site,
        disk: D,
        clock: C,
    ) -> Result<Store<D, C>, NoStore<D, C>>
        requires { IsSite site.now }
        ensures created { IfOk result (Creates D.shown C.readings C.faults site.now disk clock) }
        ensures foreign { Refuses IsForeign (StoreWhy.Journal WhyNot.Foreign) (D.shown disk).contents result }
        ensures present { Refuses IsPresent (StoreWhy.Journal WhyNot.Present) (D.shown disk).contents result }
        ensures device_fault { IfErr result (λ e. e.why ≡ StoreWhy.Journal WhyNot.DeviceFault
            → FailsToCreate D.shown C.readings C.faults site.now disk clock e.disk e.clock) }
        ensures clock_fault { IfErr result (λ e. e.why ≡ StoreWhy.ClockFault
            → Rose (C.faults clock) (C.faults e.clock) × IfSome (D.shown disk).contents IsBlank) }
        ensures no_device_fault { IfErr result (λ e. e.why ≢ StoreWhy.Journal WhyNot.DeviceFault
            → (D.shown e.disk).faults ≡ (D.shown disk).faults) }
        ensures no_clock_fault { IfErr result (λ e. e.why ≢ StoreWhy.ClockFault → C.faults e.clock ≡ C.faults clock) }
        ensures kept { IfErr result (λ e. e.why ≢ StoreWhy.Journal WhyNot.DeviceFault
            → IsRead (D.shown disk) (D.shown e.disk) × (C.readings e.clock ≡ C.readings clock)) }
        ensures looked_at_first { IfErr result (λ e. e.why ≢ StoreWhy.ClockFault
            → e.why ≢ StoreWhy.Journal WhyNot.DeviceFault → e.clock ≡ clock) }
        ensures no_other { IfErr result (λ e. (e.why ≢ StoreWhy.Journal WhyNot.Blank)
            × ((at : ℕ) → e.why ≢ StoreWhy.Journal (WhyNot.Damaged at))) }
        ensures safe { IsAtRest (D.shown disk) → IfSome (D.shown disk).contents IsBlank → MatchResult result
            (λ store. IsSafe (D.shown disk).moment [] store.history [] (D.shown disk) (D.shown store.disk))
            (λ e. CrashesSafely C.readings C.faults (founding_request site.now) site.now.offset clock e.clock
            (D.shown disk) (D.shown e.disk)) }
    {
        let vacant = match Journal::look(alloc, disk) {
            Ok(vacant) => vacant,
            Err(none) => return Err(NoStore::of(none, clock)),
        };
        let request = founding_request(site);
        let Ok((core, days)) = founding_room(alloc, &request, site.last_nsr) else {
            return Err(NoStore {
                disk: vacant.into_disk(),
                clock,
                why: StoreWhy::Journal(WhyNot::OutOfMemory),
            });
        };
        found(core, days, &request, site, vacant, clock)
    }
}

// A core with room for the founding request's entry, and room for its day.
fn founding_room(
    alloc: Global,
    request: &Request,
    last_nsr: u32,
) -> Result<(Core, DayList), OutOfMemory>
    requires { IsLimit last_nsr }
    ensures stands { IfOk result (λ r. Stands r.0 []) }
    ensures limit { IfOk result (λ r. r.0.limit ≡ last_nsr) }
    ensures ready { IfOk result (λ r. IsReady r.0 request.now) }
    ensures days { IfOk result (λ r. (r.1.days ≡ []) × (1 ≤ r.1.room)) }
{
    let mut core = Core::new(alloc, last_nsr);
    let mut days = DayList::new(alloc);
    match core.reserve(request) {
        Ok(()) => match days.reserve() {
            Ok(()) => Ok((core, days)),
            Err(full) => Err(full),
        },
        Err(full) => Err(full),
    }
}

// Makes the journal of a site, once there is memory for it.
fn found<D: Disk, C: Clock>(
    core: Core,
    days: DayList,
    request: &Request,
    site: &Site,
    vacant: Vacant<D>,
    clock: C,
) -> Result<Store<D, C>, NoStore<D, C>>
    requires site { IsSite site.now }
    requires founding { IsFounding request.now }
    requires stands { Stands core [] }
    requires ready { IsReady core request.now }
    requires limit { core.limit ≡ site.now.last_nsr }
    requires days { days.days ≡ [] }
    requires day_room { 1 ≤ days.room }
    requires blank { IfSome (D.shown vacant).contents IsBlank }
    ensures founded { IfOk result (FoundsStore D.shown C.readings C.faults site.now request.now vacant clock) }
    ensures refused { IfErr result (FoundsNone D.shown C.readings C.faults site.now request.now vacant clock) }
    ensures safe { IsAtRest (D.shown vacant) → MatchResult result
        (λ store. IsSafe (D.shown vacant).moment [] store.history [] (D.shown vacant) (D.shown store.disk))
        (λ e. CrashesSafely C.readings C.faults request.now site.now.offset clock e.clock
        (D.shown vacant) (D.shown e.disk)) }
{
    let mut core = core;
    let mut days = days;
    let mut clock = clock;
    let Ok(minute) = clock.now() else {
        return Err(NoStore {
            disk: vacant.into_disk(),
            clock,
            why: StoreWhy::ClockFault,
        });
    };
    let Some(now) = Stamp::at(minute, site.offset) else {
        unreachable!()
    };
    let frame = frame_of(&core, request, now);
    match Journal::create(vacant, &frame) {
        Ok(journal) => {
            core.accept(request, now);
            days.push(now.day());
            Ok(Store {
                core,
                days,
                device: Device::new(journal),
                clock,
                site: *site,
                reading: None,
            })
        }
        Err(none) => Err(NoStore::of(none, clock)),
    }
}
