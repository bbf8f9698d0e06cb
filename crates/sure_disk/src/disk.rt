//! The disk.
ghost use Rattle.std.specs.Prelude.{◌≡◌, []};

use rep_disk::{Disk, Fails, Image, MemDisk};
use rep_io::{Failed, OutOfMemory};
use std::alloc::Global;
use std::marker::Model;

/// A disk in memory of which no call fails: its count of faults is 0 for good, so that whoever answers a fault only where
/// that count rose answers none over it. It takes memory in `reserve` alone.
#[derive(Drop)]
pub struct SureDisk {
    disk: MemDisk,
}

impl Model for SureDisk {
    ghost use Rattle.std.specs.Prelude.{◌≡◌};
    ghost use Rattle.rep_disk.specs.Memory.{Memory, nothing_listed};

    ghost Value = { Memory };

    ghost view = { λ d. d.disk };

    ghost invariant = { λ d. d.disk.listed ≡ nothing_listed };
}

impl SureDisk {
    ghost use Rattle.std.specs.Prelude.{◌≡◌, ◌≤◌, IfOk};
    ghost use Rattle.rep_disk.specs.Memory.{fresh, memory_shown, nothing_listed, state_at};
    ghost use Rattle.rep_disk.specs.Record.{image_of};

    /// A disk at rest with these bytes.
    pub fn new(alloc: Global, bytes: Vec<u8>) -> SureDisk
        ensures { result ≡ fresh bytes.items nothing_listed }
    {
        SureDisk {
            disk: MemDisk::new(alloc, bytes, no_fails(alloc)),
        }
    }

    /// The contents.
    pub fn bytes(&self) -> &[u8]
        ensures { result.now ≡ self.now.bytes }
    {
        self.disk.bytes()
    }

    /// The moment: twice the number of device calls.
    pub fn moment(&self) -> u64
        ensures { result ≡ self.now.moment }
    {
        self.disk.moment()
    }

    /// One of the images that a crash at this moment may leave.
    ///
    /// # Errors
    ///
    /// `OutOfMemory` alone.
    pub fn image(&self, alloc: Global, moment: u64, image: Image) -> Result<Vec<u8>, OutOfMemory>
        requires { moment ≤ self.now.moment }
        ensures named { IfOk result (λ bytes. bytes.items ≡ image_of image (state_at self.now moment)) }
        ensures allowed { IfOk result (λ bytes. (memory_shown self.now).may_leave moment bytes.items) }
    {
        self.disk.image(alloc, moment, image)
    }
}

impl Disk for SureDisk {
    ghost use Rattle.sure_disk.specs.Sure.{sure_shown};

    ghost shown = { sure_shown };

    fn reserve(&mut self, bytes: u32) -> Result<(), OutOfMemory> {
        self.disk.reserve(bytes)
    }

    fn length(&mut self) -> Result<u64, Failed> {
        self.disk.length()
    }

    fn read_at(&mut self, at: u64, into: &mut [u8]) -> Result<usize, Failed> {
        self.disk.read_at(at, into)
    }

    fn write_at(&mut self, at: u64, piece: &[u8]) -> Result<(), Failed> {
        self.disk.write_at(at, piece)
    }

    fn cut(&mut self, length: u64) -> Result<(), Failed> {
        self.disk.cut(length)
    }

    fn sync(&mut self) -> Result<(), Failed> {
        self.disk.sync()
    }
}

/// The list of a disk in memory of which no call is to fail.
pub fn no_fails(alloc: Global) -> Fails
    ensures { (result.all.items ≡ []) × (result.reads.items ≡ []) × (result.writes.items ≡ []) × (result.syncs.items ≡ []) }
{
    Fails {
        all: Vec::new(alloc),
        reads: Vec::new(alloc),
        writes: Vec::new(alloc),
        syncs: Vec::new(alloc),
    }
}
