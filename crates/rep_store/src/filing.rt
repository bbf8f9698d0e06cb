//! Entries of the history, one by one.
use crate::error::SlipFail;
use crate::store::Store;
use rep_disk::Disk;
use rep_io::Clock;
use rep_wire::Entry;

/// An entry of the history. The hash is there exactly for a clocking.
#[derive(Clone, Copy, Debug)]
pub struct Filed {
    /// The entry.
    pub entry: Entry,
    /// The hash of a clocking, in 64 lower-case hexadecimal digits.
    pub hash: Option<[u8; 64]>,
}

impl<D: Disk, C: Clock> Store<D, C> {
    ghost use Rattle.std.specs.Prelude.{◌≡◌, ◌≢◌, ◌↔◌, ◌⊎◌, ◌<◌, ℕ, length, IfOk, None, Some, Err};
    ghost use Rattle.rep_io.specs.Causes.{Rose};
    ghost use Rattle.rep_store.specs.Filing.{IsFiled, IsReadBy, failed_by_disk};

    /// The entry with a number, and the hash of a clocking.
    ///
    /// # Errors
    ///
    /// `Stopped` exactly where the store stopped before, with the count that it keeps. `NoSuchNsr` exactly where it goes on
    /// and the number is 0 or above the count of entries. `DeviceFault` exactly where the disk failed in this call; the store
    /// goes on then.
    pub fn slip(&mut self, nsr: u32) -> Result<Filed, SlipFail>
        ensures found { IfOk result (IsFiled self.old.history nsr) }
        ensures none { (result ≡ Err SlipFail.NoSuchNsr)
            ↔ ((self.old.stopped ≡ None) × ((nsr ≡ 0) ⊎ (length self.old.history < nsr))) }
        ensures stopped { (count : ℕ) → (result ≡ Err (SlipFail.Stopped count)) ↔ (self.old.stopped ≡ Some count) }
        ensures device_fault { result ≡ Err SlipFail.DeviceFault
            → Rose (D.shown self.old.disk).faults (D.shown self.new.disk).faults }
        ensures no_fault { result ≢ Err SlipFail.DeviceFault
            → (D.shown self.new.disk).faults ≡ (D.shown self.old.disk).faults }
        ensures kept { IsReadBy D.shown (failed_by_disk result) self.old self.new }
        ensures clock { self.new.clock ≡ self.old.clock }
        ensures reading { self.new.reading ≡ self.old.reading }
    {
        if let Some(faults) = self.device.stopped() {
            return Err(SlipFail::Stopped { faults });
        }
        if nsr == 0 || nsr > self.core.count() {
            return Err(SlipFail::NoSuchNsr);
        }
        Ok(Filed {
            entry: *self.core.entry(nsr),
            hash: self.core.slip(nsr).hash,
        })
    }
}
