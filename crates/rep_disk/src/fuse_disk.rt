use crate::disk::Disk;
use crate::mem_disk::MemDisk;
use rep_io::{Failed, OutOfMemory};
use std::marker::Model;

/// A disk in memory of which all device calls from one on fail. Its calls are counted from its making, and one that
/// fails raises the moment and the count of faults, and stands in the disk's record, as a listed one does.
#[derive(Drop)]
pub struct FuseDisk {
    disk: MemDisk,
    from: u64,
    calls: u64,
}

impl Model for FuseDisk {
    ghost use Rattle.rep_disk.specs.Fuse.{Fuse};

    ghost Value = { Fuse };

    ghost view = { λ a. record { disk = a.disk; from = a.from; calls = a.calls } };
}

impl FuseDisk {
    ghost use Rattle.std.specs.Prelude.{◌≡◌};
    ghost use Rattle.rep_disk.specs.Fuse.{Burns, is_blown};

    /// A disk of which the device call of this number and all after it fail.
    pub fn new(disk: MemDisk, from: u64) -> FuseDisk
        ensures { result ≡ record { disk = disk; from = from; calls = 0 } }
    {
        FuseDisk {
            disk,
            from,
            calls: 0,
        }
    }

    /// The disk as it stands.
    pub fn into_disk(self) -> MemDisk
        ensures { result ≡ self.disk }
    {
        self.disk
    }

    /// How many calls have failed.
    pub fn faults(&self) -> u64
        ensures { result ≡ self.now.disk.faults }
    {
        self.disk.faults()
    }

    // Counts a device call, and says whether it fails.
    fn burn(&mut self) -> bool
        ensures blown { result ≡ is_blown self.old }
        ensures burns { Burns self.old self.new }
        ensures disk { self.new.disk ≡ self.old.disk }
    {
        let blown = self.from <= self.calls;
        self.calls = self.calls.saturating_add(1);
        blown
    }
}

impl Disk for FuseDisk {
    ghost use Rattle.std.specs.Prelude.{◌≡◌, ◌≤◌, ◌+◌, ◌||◌, OnOk, length, length as list_length, Some};
    ghost use Rattle.rep_disk.specs.Disk.{Measures, Reads, end_of_disk};
    ghost use Rattle.rep_disk.specs.Memory.{cut_fails, length_fails, read_fails, sync_fails, write_fails};
    ghost use Rattle.rep_disk.specs.Calls.{CutsAt, Goes, Looks, Syncs, WritesAt, length_counted, read_counted, sync_counted, write_counted};
    ghost use Rattle.rep_disk.specs.Fuse.{Burns, fuse_shown, is_blown};

    ghost shown = { fuse_shown };

    fn reserve(&mut self, bytes: u32) -> Result<(), OutOfMemory>
        ensures made { OnOk result (bytes ≤ self.new.disk.spare) }
        ensures spare { self.old.disk.spare ≤ self.new.disk.spare }
        ensures kept { self.new ≡ record self.old { disk = record self.old.disk { spare = self.new.disk.spare } } }
    {
        self.disk.reserve(bytes)
    }

    fn length(&mut self) -> Result<u64, Failed>
        ensures length { Measures (Some self.old.disk.bytes) result }
        ensures looks { Looks self.old.disk self.new.disk }
        ensures goes { Goes (is_blown self.old || length_fails self.old.disk) (length_counted self.old.disk.counts) self.old.disk self.new.disk result }
        ensures burns { Burns self.old self.new }
    {
        let blown = self.burn();
        self.disk.length_unless(blown)
    }

    fn read_at(&mut self, at: u64, into: &mut [u8]) -> Result<usize, Failed>
        ensures bytes { Reads at (Some self.old.disk.bytes) result into.new }
        ensures looks { Looks self.old.disk self.new.disk }
        ensures goes { Goes (is_blown self.old || read_fails self.old.disk) (read_counted self.old.disk.counts) self.old.disk self.new.disk result }
        ensures burns { Burns self.old self.new }
    {
        let blown = self.burn();
        self.disk.read_unless(blown, at, into)
    }

    fn write_at(&mut self, at: u64, piece: &[u8]) -> Result<(), Failed>
        requires within { at ≤ length self.old.disk.bytes }
        requires end { at + length piece.now ≤ end_of_disk }
        requires room { length piece.now ≤ self.old.disk.spare }
        ensures writes { WritesAt at piece.now self.old.disk self.new.disk result }
        ensures goes { Goes (is_blown self.old || write_fails self.old.disk) (write_counted self.old.disk.counts) self.old.disk self.new.disk result }
        ensures burns { Burns self.old self.new }
    {
        let blown = self.burn();
        self.disk.write_unless(blown, at, piece)
    }

    fn cut(&mut self, length: u64) -> Result<(), Failed>
        requires within { length ≤ list_length self.old.disk.bytes }
        requires room { 1 ≤ self.old.disk.spare }
        ensures cuts { CutsAt length self.old.disk self.new.disk result }
        ensures goes { Goes (is_blown self.old || cut_fails self.old.disk) (length_counted self.old.disk.counts) self.old.disk self.new.disk result }
        ensures burns { Burns self.old self.new }
    {
        let blown = self.burn();
        self.disk.cut_unless(blown, length)
    }

    fn sync(&mut self) -> Result<(), Failed>
        ensures syncs { Syncs self.old.disk self.new.disk result }
        ensures goes { Goes (is_blown self.old || sync_fails self.old.disk) (sync_counted self.old.disk.counts) self.old.disk self.new.disk result }
        ensures burns { Burns self.old self.new }
    {
        let blown = self.burn();
        self.disk.sync_unless(blown)
    }
}
