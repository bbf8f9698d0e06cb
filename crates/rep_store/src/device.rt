//! The journal of a store, also once it has stopped.
ghost use Rattle.std.specs.Prelude.{◌≡◌, None, Some, is_some, IsTrue};
ghost use Rattle.rep_store.specs.Held.{device_of_held};

use afd_extract::{WriteFail, write_afd};
use afd_records::Head;
use rep_disk::Disk;
use rep_io::{OutOfMemory, Sink};
use rep_journal::{DeviceFault, Frame, Journal, Stopped};
use std::marker::Model;
use std::mem;

// A journal, or what is left of it once the disk failed while a frame was put.
#[derive(Drop)]
enum Held<D: Disk> {
    Running(Journal<D>),
    Ended(Stopped<D>),
}

/// The journal of a store. It stops for good where the disk fails while a frame is put.
#[derive(Drop)]
pub struct Device<D: Disk> {
    // there but within `put`
    held: Option<Held<D>>,
    ghost is_held: { IsTrue (is_some held) },
}

impl<D: Disk> Model for Device<D> {
    ghost use Rattle.rep_store.specs.Device.{Device as TheDevice};

    ghost Value = { TheDevice D };

    ghost use Rattle.rep_store.specs.Held.{device_of};

    ghost view = { λ d. device_of d.held d.is_held };
}

impl<D: Disk> Device<D> {
    ghost use Rattle.std.specs.Prelude.{◌≡◌, ◌≢◌, ◌≤◌, IsSome, OnOk, OnErr, Some, None, Err};
    ghost use Rattle.rep_io.specs.Causes.{Rose};
    ghost use Rattle.afd_records.specs.File.{HasHeadText};
    ghost use Rattle.afd_extract.specs.Extract.{IsRangeIn, WritesExtract, failed_by_device};
    ghost use Rattle.rep_journal.specs.State.{IsSame};
    ghost use Rattle.rep_disk.specs.Disk.{IsUntouched};
    ghost use Rattle.rep_store.specs.Device.{running, journal_of, Reserves, PutsFrame, StopsAtFrame};

    /// A journal.
    pub fn new(journal: Journal<D>) -> Device<D>
        ensures { result ≡ running journal }
    {
        Device {
            held: Some(Held::Running(journal)),
        }
    }

    /// How often the disk had failed when that stopped the journal, or `None` where it goes on.
    pub fn stopped(&self) -> Option<u64>
        ensures { result ≡ self.now.stopped }
    {
        match &self.held {
            Some(Held::Ended(stop)) => Some(stop.faults),
            Some(Held::Running(_)) | None => None,
        }
    }

    /// Makes room for one frame more.
    pub fn reserve(&mut self) -> Result<(), OutOfMemory>
        requires { self.old.stopped ≡ None }
        ensures made { OnOk result (1 ≤ self.new.spare) }
        ensures kept { Reserves D.shown self.old self.new }
    {
        match &mut self.held {
            Some(Held::Running(journal)) => journal.reserve(),
            Some(Held::Ended(_)) | None => unreachable!(),
        }
    }

    /// Appends a frame, or stops.
    pub fn put(&mut self, frame: &Frame) -> Result<(), DeviceFault>
        requires running { self.old.stopped ≡ None }
        requires room { 1 ≤ self.old.spare }
        ensures put { OnOk result (PutsFrame D.shown frame.now self.old self.new) }
        ensures stopped { OnErr result (StopsAtFrame D.shown frame.now self.old self.new) }
    {
        let Some(held) = self.held.take() else {
            unreachable!()
        };
        let Held::Running(journal) = held else {
            unreachable!()
        };
        match journal.put(frame) {
            Ok(journal) => {
                fill(&mut self.held, Held::Running(journal));
                Ok(())
            }
            Err(stop) => {
                fill(&mut self.held, Held::Ended(stop));
                Err(DeviceFault)
            }
        }
    }

    /// Writes the AFD of a range of the frames, with this head, and answers how many bytes it has.
    pub fn write_afd<K: Sink>(
        &mut self,
        range: Option<(u32, u32)>,
        head: &Head,
        sink: &mut K,
    ) -> Result<u64, WriteFail>
        requires running { self.old.stopped ≡ None }
        requires head { HasHeadText head.now }
        requires range { IsRangeIn self.old.frames range }
        ensures writes { WritesExtract head.now self.old.frames range (IsSome (D.shown self.old.disk).contents)
            (K.written sink.old) (K.written sink.new) result }
        ensures running { self.new.stopped ≡ None }
        ensures journal { IsSame D.shown (failed_by_device result) (journal_of self.old) (journal_of self.new) }
        ensures device_fault { result ≡ Err WriteFail.DeviceFault
            → Rose (D.shown self.old.disk).faults (D.shown self.new.disk).faults }
        ensures no_device_fault { result ≢ Err WriteFail.DeviceFault
            → (D.shown self.new.disk).faults ≡ (D.shown self.old.disk).faults }
        ensures sink_later { K.faults sink.old ≤ K.faults sink.new }
        ensures sink_fault { result ≡ Err WriteFail.SinkFault → Rose (K.faults sink.old) (K.faults sink.new) }
        ensures no_sink_fault { result ≢ Err WriteFail.SinkFault → K.faults sink.new ≡ K.faults sink.old }
    {
        match &mut self.held {
            Some(Held::Running(journal)) => write_afd(journal, range, head, sink),
            Some(Held::Ended(_)) | None => unreachable!(),
        }
    }

    /// The disk as it stands.
    pub fn disk(&self) -> &D
        ensures { result.now ≡ self.now.disk }
    {
        match &self.held {
            Some(Held::Running(journal)) => journal.disk(),
            Some(Held::Ended(stop)) => &stop.disk,
            None => unreachable!(),
        }
    }

    /// The disk.
    pub fn into_disk(self) -> D
        ensures { result ≡ self.disk }
    {
        let Device { held } = self;
        let Some(held) = held else { unreachable!() };
        disk_of(held)
    }
}

fn disk_of<D: Disk>(held: Held<D>) -> D
    ensures { result ≡ (device_of_held held).disk }
{
    match held {
        Held::Running(journal) => journal.into_disk(),
        Held::Ended(stop) => {
            let Stopped {
                disk,
                faults: _,
                count: _,
            } = stop;
            disk
        }
    }
}

// Fills an empty place.
fn fill<T>(place: &mut Option<T>, value: T)
    requires { place.old ≡ None }
    ensures { place.new ≡ Some value }
{
    match mem::replace(place, Some(value)) {
        None => {}
        Some(_) => unreachable!(),
    }
}
