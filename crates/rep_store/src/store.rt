//! The store.
use crate::days::DayList;
use crate::device::Device;
use rep_core::Core;
use rep_disk::Disk;
use rep_io::Clock;
use rep_site::Site;
use std::marker::Model;
use std::mem;

/// The recorder's history, in a journal on a disk, and the clock by which requests are recorded.
#[derive(Drop)]
pub struct Store<D: Disk, C: Clock> {
    pub(crate) core: Core,
    // the recording days of its entries
    pub(crate) days: DayList,
    pub(crate) device: Device<D>,
    pub(crate) clock: C,
    pub(crate) site: Site,
    // the reading of the clock that the last request or extraction took
    pub(crate) reading: Option<u32>,
}

impl<D: Disk, C: Clock> Model for Store<D, C> {
    ghost use Rattle.rep_store.specs.State.{State};

    ghost Value = { State D C };

    ghost use Rattle.rep_store.specs.Days.{AreDaysOf};
    ghost use Rattle.rep_store.specs.Fields.{IsWhole, state_of};

    ghost view = { λ s. state_of s.core s.device s.clock s.site s.reading };

    ghost invariant = { λ s. IsWhole D.shown s.core s.device s.site × AreDaysOf s.core s.days };
}

impl<D: Disk, C: Clock> Store<D, C> {
    ghost use Rattle.std.specs.Prelude.{◌≡◌, length};
    ghost use Rattle.rep_store.specs.State.{IsSound};

    /// How many entries the history has.
    pub fn count(&self) -> u32
        ensures value { result ≡ length self.now.history }
        ensures sound { IsSound D.shown self.now }
    {
        self.core.count()
    }

    /// How often the disk had failed for the store when that stopped it, or `None` where it has not stopped.
    pub fn stopped(&self) -> Option<u64>
        ensures { result ≡ self.now.stopped }
    {
        self.device.stopped()
    }

    /// The reading of the clock, in minutes since 1970-01-01T00:00 UTC, that the last call of `submit` or `extract`
    /// took. `None` where it took none, or where there was no such call.
    pub fn reading(&self) -> Option<u32>
        ensures { result ≡ self.now.reading }
    {
        self.reading
    }

    /// The disk as it stands.
    pub fn disk(&self) -> &D
        ensures { result.now ≡ self.now.disk }
    {
        self.device.disk()
    }

    /// Takes another clock, and gives the one before back.
    pub fn set_clock(&mut self, clock: C) -> C
        ensures before { result ≡ self.old.clock }
        ensures set { self.new ≡ record self.old { clock = clock } }
    {
        mem::replace(&mut self.clock, clock)
    }

    /// The disk and the clock.
    pub fn into_parts(self) -> (D, C)
        ensures disk { result.0 ≡ self.disk }
        ensures clock { result.1 ≡ self.clock }
        ensures sound { IsSound D.shown self }
    {
        let Store {
            core: _,
            days: _,
            device,
            clock,
            site: _,
            reading: _,
        } = self;
        (device.into_disk(), clock)
    }
}
