use crate::change::{Change, Kind};
use crate::disk::Disk;
use crate::image::Image;
use crate::room::{
    answer, counted, fails_by, fails_by_either, faults_after, fill, make_sure, note, overwrite,
};
use crate::standing::{replay, shorten_unless};
use rep_io::{Failed, OutOfMemory};
use std::alloc::{AllocError, Global};
use std::marker::Model;

/// The numbers of the calls that fail, each kind of call numbered from 0.
#[derive(Drop)]
pub struct Fails {
    /// Among all device calls.
    pub all: Vec<u64>,
    /// Among the calls of `read_at`.
    pub reads: Vec<u64>,
    /// Among the calls of `write_at`.
    pub writes: Vec<u64>,
    /// Among the calls of `sync`.
    pub syncs: Vec<u64>,
}

/// How many calls there were.
#[derive(Clone, Copy)]
pub(crate) struct Calls {
    pub all: u64,
    pub reads: u64,
    pub writes: u64,
    pub syncs: u64,
}

/// A disk in memory. The calls that are listed fail, and then nothing has changed. It keeps a record of its writes and
/// cuts, by which it can name what a crash at each moment since its making may leave, and takes memory in `reserve`
/// alone.
#[derive(Drop)]
pub struct MemDisk {
    bytes: Vec<u8>,
    // The bytes that it was made with, once there was room for a copy.
    first: Vec<u8>,
    is_copied: bool,
    // The pieces that were written, one behind the other.
    pieces: Vec<u8>,
    log: Vec<Change>,
    spare: u32,
    moment: u64,
    faults: u64,
    calls: Calls,
    fails: Fails,
}

impl Model for MemDisk {
    ghost use Rattle.rep_disk.specs.Memory.{Memory};

    ghost Value = { Memory };

    ghost use Rattle.rep_disk.specs.Fields.{memory_of, IsKept};

    ghost view = { memory_of };

    ghost invariant = { IsKept };
}

impl MemDisk {
    ghost use Rattle.std.specs.Prelude.{◌≡◌, ◌≤◌, ◌+◌, ◌||◌, IfOk, length, length as list_length, Some};
    ghost use Rattle.rep_disk.specs.Disk.{Measures, Reads, end_of_disk};
    ghost use Rattle.rep_disk.specs.Memory.{cut_fails, fresh, length_fails, memory_shown, read_fails, state_at, sync_fails, write_fails};
    ghost use Rattle.rep_disk.specs.Calls.{CutsAt, Goes, Looks, Syncs, WritesAt, length_counted, read_counted, sync_counted, write_counted};
    ghost use Rattle.rep_disk.specs.Record.{image_of};

    /// A disk at rest at moment 0, with these bytes as its contents. It takes no memory.
    pub fn new(alloc: Global, bytes: Vec<u8>, fails: Fails) -> MemDisk
        ensures made { result ≡ fresh bytes.items (record { all = fails.all.items; reads = fails.reads.items; writes = fails.writes.items; syncs = fails.syncs.items }) }
    {
        MemDisk {
            bytes,
            first: Vec::new(alloc),
            is_copied: false,
            pieces: Vec::new(alloc),
            log: Vec::new(alloc),
            spare: 0,
            moment: 0,
            faults: 0,
            calls: Calls {
                all: 0,
                reads: 0,
                writes: 0,
                syncs: 0,
            },
            fails,
        }
    }

    /// The contents.
    pub fn bytes(&self) -> &[u8]
        ensures { result.now ≡ self.now.bytes }
    {
        &self.bytes
    }

    /// The moment: twice the number of device calls.
    pub fn moment(&self) -> u64
        ensures { result ≡ self.now.moment }
    {
        self.moment
    }

    /// How many calls have failed.
    pub fn faults(&self) -> u64
        ensures { result ≡ self.now.faults }
    {
        self.faults
    }

    /// One of the images that a crash at this moment may leave.
    ///
    /// # Errors
    ///
    /// `OutOfMemory` alone.
    pub fn image(&self, alloc: Global, moment: u64, image: Image) -> Result<Vec<u8>, OutOfMemory>
        requires { moment ≤ self.now.moment }
        ensures named { IfOk result (λ bytes. bytes.items ≡ image_of image (state_at self.now moment)) }
        ensures allowed { IfOk result (λ bytes. (memory_shown self.now).may_leave moment bytes.items) }
    {
        let first = if self.is_copied {
            &self.first
        } else {
            &self.bytes
        };
        let standing = replay(alloc, first, &self.log, &self.pieces, moment)?;
        Ok(standing.image(alloc, image)?)
    }

    /// The length, unless the fuse has blown.
    pub(crate) fn length_unless(&mut self, blown: bool) -> Result<u64, Failed>
        ensures length { Measures (Some self.old.bytes) result }
        ensures looks { Looks self.old self.new }
        ensures goes { Goes (blown || length_fails self.old) (length_counted self.old.counts) self.old self.new result }
    {
        let fails = fails_by(blown, self.calls.all, &self.fails.all);
        self.calls.all = counted(self.calls.all);
        self.moment = self.moment.saturating_add(2);
        self.faults = faults_after(self.faults, fails);
        if fails {
            return Err(Failed);
        }
        Ok(self.bytes.len() as u64)
    }

    /// Reads, unless the fuse has blown.
    pub(crate) fn read_unless(
        &mut self,
        blown: bool,
        at: u64,
        into: &mut [u8],
    ) -> Result<usize, Failed>
        ensures bytes { Reads at (Some self.old.bytes) result into.new }
        ensures looks { Looks self.old self.new }
        ensures goes { Goes (blown || read_fails self.old) (read_counted self.old.counts) self.old self.new result }
    {
        let fails = fails_by_either(
            blown,
            self.calls.all,
            &self.fails.all,
            self.calls.reads,
            &self.fails.reads,
        );
        self.calls.all = counted(self.calls.all);
        self.calls.reads = counted(self.calls.reads);
        self.moment = self.moment.saturating_add(2);
        self.faults = faults_after(self.faults, fails);
        if fails {
            return Err(Failed);
        }
        Ok(fill(&self.bytes, at as usize, into))
    }

    /// Writes, unless the fuse has blown.
    pub(crate) fn write_unless(&mut self, blown: bool, at: u64, piece: &[u8]) -> Result<(), Failed>
        requires within { at ≤ length self.old.bytes }
        requires end { at + length piece.now ≤ end_of_disk }
        requires room { length piece.now ≤ self.old.spare }
        ensures writes { WritesAt at piece.now self.old self.new result }
        ensures goes { Goes (blown || write_fails self.old) (write_counted self.old.counts) self.old self.new result }
    {
        let fails = fails_by_either(
            blown,
            self.calls.all,
            &self.fails.all,
            self.calls.writes,
            &self.fails.writes,
        );
        let begun = self.moment.saturating_add(1);
        self.calls.all = counted(self.calls.all);
        self.calls.writes = counted(self.calls.writes);
        self.moment = self.moment.saturating_add(2);
        self.faults = faults_after(self.faults, fails);
        self.spare -= piece.len() as u32;
        let change = Change {
            begun,
            synced: None,
            kind: Kind::Write {
                at: at as usize,
                size: piece.len(),
            },
            failed: fails,
        };
        note(&mut self.log, &mut self.pieces, change, piece);
        overwrite(fails, &mut self.bytes, at as usize, piece);
        answer(fails)
    }

    /// Cuts, unless the fuse has blown.
    pub(crate) fn cut_unless(&mut self, blown: bool, length: u64) -> Result<(), Failed>
        requires within { length ≤ list_length self.old.bytes }
        requires room { 1 ≤ self.old.spare }
        ensures cuts { CutsAt length self.old self.new result }
        ensures goes { Goes (blown || cut_fails self.old) (length_counted self.old.counts) self.old self.new result }
    {
        let fails = fails_by(blown, self.calls.all, &self.fails.all);
        let begun = self.moment.saturating_add(1);
        self.calls.all = counted(self.calls.all);
        self.moment = self.moment.saturating_add(2);
        self.faults = faults_after(self.faults, fails);
        self.spare -= 1;
        self.log.push_reserved(Change {
            begun,
            synced: None,
            kind: Kind::Cut {
                size: length as usize,
            },
            failed: fails,
        });
        shorten_unless(fails, &mut self.bytes, length as usize);
        answer(fails)
    }

    /// Makes sure of what was written and cut, unless the fuse has blown.
    pub(crate) fn sync_unless(&mut self, blown: bool) -> Result<(), Failed>
        ensures syncs { Syncs self.old self.new result }
        ensures goes { Goes (blown || sync_fails self.old) (sync_counted self.old.counts) self.old self.new result }
    {
        let fails = fails_by_either(
            blown,
            self.calls.all,
            &self.fails.all,
            self.calls.syncs,
            &self.fails.syncs,
        );
        self.calls.all = counted(self.calls.all);
        self.calls.syncs = counted(self.calls.syncs);
        self.moment = self.moment.saturating_add(2);
        self.faults = faults_after(self.faults, fails);
        if fails {
            return Err(Failed);
        }
        make_sure(&mut self.log, self.moment);
        Ok(())
    }
}

impl Disk for MemDisk {
    ghost use Rattle.std.specs.Prelude.{◌≡◌, ◌≤◌, ◌+◌, OnOk, length, length as list_length, Some};
    ghost use Rattle.rep_disk.specs.Disk.{Measures, Reads, end_of_disk};
    ghost use Rattle.rep_disk.specs.Memory.{cut_fails, length_fails, memory_shown, read_fails, sync_fails, write_fails};
    ghost use Rattle.rep_disk.specs.Calls.{CutsAt, Goes, Looks, Syncs, WritesAt, length_counted, read_counted, sync_counted, write_counted};

    ghost shown = { memory_shown };

    fn reserve(&mut self, bytes: u32) -> Result<(), OutOfMemory>
        ensures made { OnOk result (bytes ≤ self.new.spare) }
        ensures spare { self.old.spare ≤ self.new.spare }
        ensures kept { self.new ≡ record self.old { spare = self.new.spare } }
    {
        if !self.is_copied {
            self.first.extend_from_slice(&self.bytes)?;
            self.is_copied = true;
        }
        let room = bytes as usize;
        self.bytes.reserve(room)?;
        self.pieces.reserve(room)?;
        self.log.reserve(room)?;
        self.spare = self.spare.max(bytes);
        Ok(())
    }

    fn length(&mut self) -> Result<u64, Failed>
        ensures length { Measures (Some self.old.bytes) result }
        ensures looks { Looks self.old self.new }
        ensures goes { Goes (length_fails self.old) (length_counted self.old.counts) self.old self.new result }
    {
        self.length_unless(false)
    }

    fn read_at(&mut self, at: u64, into: &mut [u8]) -> Result<usize, Failed>
        ensures bytes { Reads at (Some self.old.bytes) result into.new }
        ensures looks { Looks self.old self.new }
        ensures goes { Goes (read_fails self.old) (read_counted self.old.counts) self.old self.new result }
    {
        self.read_unless(false, at, into)
    }

    fn write_at(&mut self, at: u64, piece: &[u8]) -> Result<(), Failed>
        requires within { at ≤ length self.old.bytes }
        requires end { at + length piece.now ≤ end_of_disk }
        requires room { length piece.now ≤ self.old.spare }
        ensures writes { WritesAt at piece.now self.old self.new result }
        ensures goes { Goes (write_fails self.old) (write_counted self.old.counts) self.old self.new result }
    {
        self.write_unless(false, at, piece)
    }

    fn cut(&mut self, length: u64) -> Result<(), Failed>
        requires within { length ≤ list_length self.old.bytes }
        requires room { 1 ≤ self.old.spare }
        ensures cuts { CutsAt length self.old self.new result }
        ensures goes { Goes (cut_fails self.old) (length_counted self.old.counts) self.old self.new result }
    {
        self.cut_unless(false, length)
    }

    fn sync(&mut self) -> Result<(), Failed>
        ensures syncs { Syncs self.old self.new result }
        ensures goes { Goes (sync_fails self.old) (sync_counted self.old.counts) self.old self.new result }
    {
        self.sync_unless(false)
    }
}
