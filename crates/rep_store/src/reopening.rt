//! The journal of a site, found on a disk.
ghost use Rattle.std.specs.Prelude.{◌≡◌};
ghost use Rattle.rep_store.specs.Outcome.{why_of};

use crate::days::days_of;
use crate::device::Device;
use crate::error::{NoStore, StoreWhy};
use crate::store::Store;
use rep_disk::Disk;
use rep_io::Clock;
use rep_journal::{Journal, WhyNot};
use rep_ledger::{NotReplayed, replay};
use rep_site::Site;
use std::alloc::Global;

impl<D: Disk, C: Clock> Store<D, C> {
    ghost use Rattle.std.specs.Prelude.{◌≡◌, ◌≢◌, ◌⊎◌, ◌+◌, ℕ, [], List, IfOk, IfErr, IfSome, IsOkAnd};
    ghost use Rattle.rep_io.specs.Causes.{Rose};
    ghost use Rattle.rep_disk.specs.Disk.{IsAtRest};
    ghost use Rattle.rep_wire.specs.declared.request.Entry.{Entry};
    ghost use Rattle.rep_site.specs.Site.{IsSite};
    ghost use Rattle.rep_journal.specs.Format.{IsBlank, IsForeign};
    ghost use Rattle.rep_journal.specs.State.{IsKeptBy};
    ghost use Rattle.rep_ledger.specs.Ledger.{IsLedgerOf, IsDamagedAt};
    ghost use Rattle.rep_ledger.specs.Safety.{IsSafe};
    ghost use Rattle.rep_store.specs.Making.{Reopens, RestsUnlessFailed};
    ghost use Rattle.rep_store.specs.Outcome.{IsCutShort, Refuses};

    /// Finds the journal that stands on a disk, and its history. It makes sure of the contents first, and then reads
    /// them; it writes nothing, and doesn't look at the clock.
    ///
    /// # Errors
    ///
    /// `Blank` exactly where the contents are blank, `Foreign` exactly where they aren't blank and lack a journal's
    /// magic. `Damaged` exactly where they aren't blank and an open gate isn't followed by a whole frame and a gate
    /// byte, or where all frames are whole and one isn't that of an entry that can stand there; it names the place of
    /// the first such gate. `DeviceFault` exactly where the disk failed in this call. `OutOfMemory`. The disk is as it
    /// was then, or a sync made sure of it.
    pub fn reopen(
        alloc: Global,
        site: &Site,
        disk: D,
        clock: C,
    ) -> Result<Store<D, C>, NoStore<D, C>>
        requires { IsSite site.now }
        ensures reopened { IfOk result (Reopens D.shown site.now disk clock) }
        ensures found { (h : List Entry) → IfSome (D.shown disk).contents (λ bytes. IsLedgerOf bytes h
            → IsOkAnd result (λ store. store.history ≡ h) ⊎ IsCutShort result) }
        ensures blank { Refuses IsBlank (StoreWhy.Journal WhyNot.Blank) (D.shown disk).contents result }
        ensures foreign { Refuses IsForeign (StoreWhy.Journal WhyNot.Foreign) (D.shown disk).contents result }
        ensures damaged { (at : ℕ) → Refuses (IsDamagedAt at) (StoreWhy.Journal (WhyNot.Damaged at))
            (D.shown disk).contents result }
        ensures device_fault { IfErr result (λ e. e.why ≡ StoreWhy.Journal WhyNot.DeviceFault
            → Rose (D.shown disk).faults (D.shown e.disk).faults) }
        ensures no_fault { IfErr result (λ e. e.why ≢ StoreWhy.Journal WhyNot.DeviceFault
            → (D.shown e.disk).faults ≡ (D.shown disk).faults) }
        ensures no_other { IfErr result (λ e. (e.why ≢ StoreWhy.Journal WhyNot.Present)
            × (e.why ≢ StoreWhy.ClockFault)) }
        ensures kept { IfErr result (λ e. IsKeptBy (D.shown disk) (D.shown e.disk) × (e.clock ≡ clock)) }
        ensures rest { IfErr result (λ e. RestsUnlessFailed e.why (D.shown disk) (D.shown e.disk)) }
        ensures safe { IfOk result (λ store. IsSafe ((D.shown disk).moment + 2) store.history store.history []
            (D.shown disk) (D.shown store.disk)) }
        ensures safe_from_rest { IsAtRest (D.shown disk) → IfOk result (λ store. IsSafe (D.shown disk).moment store.history
            store.history [] (D.shown disk) (D.shown store.disk)) }
    {
        let mut journal = match Journal::reopen(alloc, disk) {
            Ok(journal) => journal,
            Err(none) => return Err(NoStore::of(none, clock)),
        };
        match replay(alloc, &mut journal) {
            Ok(core) => {
                let mut core = core;
                core.set_limit(site.last_nsr);
                let Ok(days) = days_of(alloc, &core) else {
                    return Err(NoStore {
                        disk: journal.into_disk(),
                        clock,
                        why: StoreWhy::Journal(WhyNot::OutOfMemory),
                    });
                };
                Ok(Store {
                    core,
                    days,
                    device: Device::new(journal),
                    clock,
                    site: *site,
                    reading: None,
                })
            }
            Err(why) => Err(NoStore {
                disk: journal.into_disk(),
                clock,
                why: StoreWhy::Journal(why_not(why)),
            }),
        }
    }
}

// Why a journal that keeps no history is no store's.
fn why_not(why: NotReplayed) -> WhyNot
    ensures { result ≡ why_of why }
{
    match why {
        NotReplayed::Misfit { at } => WhyNot::Damaged { at },
        NotReplayed::DeviceFault => WhyNot::DeviceFault,
        NotReplayed::OutOfMemory => WhyNot::OutOfMemory,
    }
}
