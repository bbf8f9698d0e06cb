//! A site and its journal, opened to be read alone.
ghost use Rattle.std.specs.Prelude.{◌≡◌, ◌≢◌, ◌≤◌, ◌⊎◌, ℕ, List, IfOk, IfErr, IfSome, MatchResult, Some, None};
ghost use Rattle.rep_wire.specs.declared.request.Entry.{Entry};
ghost use Rattle.rep_ledger.specs.Ledger.{IsLedgerOf};
ghost use Rattle.rep_report.specs.declared.ending.Ending.{Ending};
ghost use Rattle.rep_run.specs.Settings.{SaysSite};
ghost use Rattle.rep_run.specs.declared.stopping.Stopping.{Stopping};
ghost use Rattle.rep_site.specs.declared.site.Site.{Site as TheSite};
ghost use Rattle.rep_query.specs.Opening.{OpensStore, StopsOpening, IsForWant};

use rep_disk::Disk;
use rep_io::{Clock, Source};
use rep_run::{Stopping, no_store, read_site};
use rep_site::Site;
use rep_store::Store;
use std::alloc::Global;

/// A disk and a clock, and why a command stops before the journal is open.
#[derive(Drop)]
pub struct Closed<D, C> {
    pub disk: D,
    pub clock: C,
    pub stopping: Stopping,
}

/// A store, and the site whose recorder it is.
#[derive(Drop)]
pub struct Opened<D: Disk, C: Clock> {
    pub store: Store<D, C>,
    pub site: Site,
}

/// The store of the site whose text the source gives, over the journal that stands on the disk.
pub fn open<S: Source, D: Disk, C: Clock>(
    alloc: Global,
    site: &mut S,
    disk: D,
    clock: C,
) -> Result<Opened<D, C>, Closed<D, C>>
    ensures opens { IfOk result (λ opened. OpensStore (record { left = S.left; source_faults = S.faults; shown = D.shown })
        site.old site.new disk clock opened.store) }
    ensures of_site { IfOk result (λ opened. opened.site ≡ opened.store.site) }
    ensures stops { IfErr result (λ closed. StopsOpening (record { left = S.left; source_faults = S.faults; shown = D.shown })
        (record { site = site.old; disk = disk }) (record { site = site.new; disk = closed.disk }) closed.stopping
        × (closed.clock ≡ clock)) }
    ensures source_later { S.faults site.old ≤ S.faults site.new }
    ensures disk_later { IfErr result (λ closed. (D.shown disk).faults ≤ (D.shown closed.disk).faults) }
    // No fault is passed over.
    ensures no_source_fault { MatchResult result (λ opened. S.faults site.new ≡ S.faults site.old)
        (λ closed. closed.stopping ≢ Stopping.Ended Ending.SourceFault → S.faults site.new ≡ S.faults site.old) }
    ensures no_device_fault { IfErr result (λ closed. closed.stopping ≢ Stopping.Ended Ending.DeviceFault
        → (D.shown closed.disk).faults ≡ (D.shown disk).faults) }
    // A site's text and the contents of a journal that keeps a history aren't refused.
    ensures found { (text contents : List ℕ) (said : TheSite) (h : List Entry) → S.left site.old ≡ Some text → SaysSite text said
        → (D.shown disk).contents ≡ Some contents → IsLedgerOf contents h
        → IfErr result (λ closed. IsForWant (S.faults site.old) (S.faults site.new) (D.shown disk).faults (D.shown closed.disk).faults closed.stopping) }
{
    let settings = match read_site(alloc, site) {
        Ok(settings) => settings,
        Err(stopping) => {
            return Err(Closed {
                disk,
                clock,
                stopping,
            });
        }
    };
    match Store::reopen(alloc, &settings, disk, clock) {
        Ok(store) => Ok(Opened {
            store,
            site: settings,
        }),
        Err(none) => Err(Closed {
            disk: none.disk,
            clock: none.clock,
            stopping: no_store(none.why),
        }),
    }
}
