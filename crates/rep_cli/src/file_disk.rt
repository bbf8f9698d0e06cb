ghost use Rattle.std.specs.Prelude.{◌≡◌, ◌≢◌, ◌≤◌, OnErr, OnOk, IsErr};
ghost use Rattle.std.specs.Io.{ReadsAtMost};
ghost use Rattle.rep_io.specs.Causes.{Rose};
ghost use Rattle.rep_cli.specs.Untold.{untold};

use crate::access::Access;
use crate::opening::{OWNER_ALONE, beyond_standard};
use rep_disk::Disk;
use rep_io::{Failed, OutOfMemory};
use std::fs::{self, File, OpenOptions};
use std::io::{self, ErrorKind};
use std::os::unix::fs::{FileExt, OpenOptionsExt};
use std::path::Path;
use std::rt::Files;

/// The last place that a file of the system can have.
const LAST_PLACE: u64 = i64::MAX as u64;

/// A file that is read and written at places. It tells nothing of its content.
///
/// It is opened at the first call, and from then on locked as long as this disk lives: by one disk that writes, or by any
/// number of them that only read. Where another one or another process has the lock, the file can't be opened, and the call
/// fails; the next one tries again. Where nothing is at the path, the disk is empty until its first write.
#[derive(Drop)]
pub struct FileDisk<'a, R: Files<File = File>> {
    pub(crate) file: LockedFile<'a, R>,
    pub(crate) faults: u64,
}

impl<'a, R: Files<File = File>> FileDisk<'a, R> {
    /// The file at a path, which need not be there, and how it is used.
    pub fn new(rt: &'a R, path: &'a str, access: Access) -> Self
        ensures path { result.file.path.now ≡ path.now }
        ensures access { result.file.access ≡ access }
        ensures sound { result.faults ≡ 0 }
    {
        FileDisk {
            file: LockedFile::new(rt, path, access),
            faults: 0,
        }
    }

    /// What the system told of a call: a fault is counted, and nothing else is.
    fn told<T>(&mut self, done: io::Result<T>) -> Result<T, Failed>
        ensures done { (value : T) → done ≡ Ok value → result ≡ Ok value }
        ensures failed { OnErr done (IsErr result) }
        ensures later { self.old.faults ≤ self.new.faults }
        ensures rose { OnErr result (Rose self.old.faults self.new.faults) }
        ensures kept { OnOk result (self.new.faults ≡ self.old.faults) }
    {
        match done {
            Ok(value) => Ok(value),
            Err(_) => {
                self.faults = self.faults.saturating_add(1);
                Err(Failed)
            }
        }
    }
}

impl<'a, R: Files<File = File>> Disk for FileDisk<'a, R> {
    ghost shown = { λ s. untold s.faults };

    fn reserve(&mut self, _bytes: u32) -> Result<(), OutOfMemory> {
        Ok(())
    }

    fn length(&mut self) -> Result<u64, Failed> {
        let done = self.file.length();
        self.told(done)
    }

    fn read_at(&mut self, at: u64, into: &mut [u8]) -> Result<usize, Failed> {
        let done = self.file.read_at(at, into);
        self.told(done)
    }

    fn write_at(&mut self, at: u64, piece: &[u8]) -> Result<(), Failed> {
        let done = self.file.write_at(at, piece);
        self.told(done)
    }

    fn cut(&mut self, length: u64) -> Result<(), Failed> {
        let done = self.file.cut(length);
        self.told(done)
    }

    fn sync(&mut self) -> Result<(), Failed> {
        let done = self.file.sync();
        self.told(done)
    }
}

/// A path, and the file there once it is opened and locked.
#[derive(Drop)]
pub(crate) struct LockedFile<'a, R: Files<File = File>> {
    rt: &'a R,
    pub(crate) path: &'a str,
    pub(crate) access: Access,
    /// None where it isn't opened yet, or nothing was there.
    file: Option<File>,
    /// Whether it was looked for and nothing was there.
    is_missing: bool,
}

impl<'a, R: Files<File = File>> LockedFile<'a, R> {
    fn new(rt: &'a R, path: &'a str, access: Access) -> Self
        ensures path { result.path.now ≡ path.now }
        ensures access { result.access ≡ access }
    {
        LockedFile {
            rt,
            path,
            access,
            file: None,
            is_missing: false,
        }
    }

    /// Opens the file where it isn't open, unless nothing was there before.
    fn open(&mut self) -> io::Result<()> {
        if self.file.is_none() && !self.is_missing {
            self.file = open_locked(self.rt, self.path, self.access)?;
            self.is_missing = self.file.is_none();
        }
        Ok(())
    }

    fn length(&mut self) -> io::Result<u64> {
        self.open()?;
        match &self.file {
            Some(file) => Ok(file.metadata()?.len()),
            None => Ok(0),
        }
    }

    fn read_at(&mut self, at: u64, into: &mut [u8]) -> io::Result<usize>
        ensures { ReadsAtMost result into.new }
    {
        self.open()?;
        match &self.file {
            Some(file) => read_front(file, at, into),
            None => Ok(0),
        }
    }

    fn write_at(&mut self, at: u64, piece: &[u8]) -> io::Result<()>
        ensures { self.old.access ≡ Access.Read → IsErr result }
    {
        if self.access == Access::Read {
            return Err(ErrorKind::PermissionDenied.into());
        }
        self.open()?;
        if self.file.is_none() {
            self.file = Some(make_locked(self.rt, self.path, self.access)?);
        }
        match &self.file {
            Some(file) => file.write_all_at(piece, at),
            None => unreachable!(),
        }
    }

    fn cut(&mut self, length: u64) -> io::Result<()>
        ensures { self.old.access ≡ Access.Read → IsErr result }
    {
        if self.access == Access::Read {
            return Err(ErrorKind::PermissionDenied.into());
        }
        self.open()?;
        match &self.file {
            Some(file) => shorten(file, length),
            None => Ok(()),
        }
    }

    fn sync(&mut self) -> io::Result<()> {
        self.open()?;
        match &self.file {
            Some(file) => file.sync_data(),
            None => Ok(()),
        }
    }
}

/// Opens the file at the path, if one is there, for no more than the access wants, and locks it.
///
/// Where it may be written, the name of an empty file is made sure of, whoever made it: its maker may have been cut off
/// before that.
///
/// # Errors
///
/// One of the system's, or `WouldBlock` where another open of the file has the lock, or `Unsupported` where something
/// else than a file stands at the path. That is looked at first: opening a pipe would wait for its other end.
fn open_locked<R: Files<File = File>>(
    rt: &R,
    path: &str,
    access: Access,
) -> io::Result<Option<File>> {
    match fs::metadata(rt, path) {
        Ok(found) if found.is_file() => {}
        Ok(_) => return Err(ErrorKind::Unsupported.into()),
        Err(fault) if fault.kind() == ErrorKind::NotFound => return Ok(None),
        Err(fault) => return Err(fault),
    }
    let is_written = access != Access::Read;
    let file = OpenOptions::new()
        .read(true)
        .write(is_written)
        .open(rt, path)?;
    let file = beyond_standard(file)?;
    if !is_written {
        file.try_lock_shared()?;
        return Ok(Some(file));
    }
    file.try_lock()?;
    if file.metadata()?.len() == 0 {
        sync_folder(rt, path)?;
    }
    Ok(Some(file))
}

/// Makes the file, locks it, and makes sure of its name, all before anything is written to it.
///
/// # Errors
///
/// One of the system's, also where something is at the path, or `NotFound` where the access doesn't make files.
fn make_locked<R: Files<File = File>>(rt: &R, path: &str, access: Access) -> io::Result<File>
    ensures { access ≢ Access.Make → IsErr result }
{
    if access != Access::Make {
        return Err(ErrorKind::NotFound.into());
    }
    let made = OpenOptions::new()
        .read(true)
        .write(true)
        .create_new(true)
        .mode(OWNER_ALONE)
        .open(rt, path)?;
    let file = beyond_standard(made)?;
    file.try_lock()?;
    sync_folder(rt, path)?;
    Ok(file)
}

/// Makes sure of the names in the folder of the path.
fn sync_folder<R: Files<File = File>>(rt: &R, path: &str) -> io::Result<()> {
    let folder = match Path::new(path).parent() {
        Some(folder) => folder.as_str(),
        None => "",
    };
    File::open(rt, if folder.is_empty() { "." } else { folder })?.sync_all()
}

/// Fills the front of the buffer from a place on, as far as the file goes.
fn read_front(file: &File, at: u64, into: &mut [u8]) -> io::Result<usize>
    ensures { ReadsAtMost result into.new }
{
    let mut done = 0;
    for _ in 0..u64::MAX {
        let place = at.saturating_add(done as u64);
        if done == into.len() || place > LAST_PLACE {
            return Ok(done);
        }
        match file.read_at(&mut into[done..], place) {
            Ok(0) => return Ok(done),
            Ok(count) => done += count,
            Err(fault) if fault.kind() == ErrorKind::Interrupted => {}
            Err(fault) => return Err(fault),
        }
    }
    Err(ErrorKind::Interrupted.into())
}

/// Shortens the file to a length. A shorter one stays as it is.
fn shorten(file: &File, length: u64) -> io::Result<()> {
    if length < file.metadata()?.len() {
        file.set_len(length)?;
    }
    Ok(())
}
