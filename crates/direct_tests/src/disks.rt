//! Disks in memory: what a crash at each moment may leave, by hand from the rule, and which calls fail.

use rep_disk::{Disk, Fails, FuseDisk, Image, MemDisk};
use rep_io::{Failed, OutOfMemory};
use std::alloc::Global;
use std::process::Abort;
use std::test::Fail;

fn no_fails(alloc: Global) -> Fails {
    Fails {
        all: Vec::new(alloc),
        reads: Vec::new(alloc),
        writes: Vec::new(alloc),
        syncs: Vec::new(alloc),
    }
}

fn disk_of(alloc: Global, bytes: &[u8]) -> Result<MemDisk, OutOfMemory> {
    Ok(MemDisk::new(alloc, bytes.to_vec(alloc)?, no_fails(alloc)))
}

/// Writes where the contents reach so far. None: they don't, or there was no room.
fn write(disk: &mut MemDisk, at: usize, piece: &[u8]) -> Option<Result<(), Failed>> {
    if at > disk.bytes().len() || at > 1000 || piece.len() > 100 || disk.reserve(100).is_err() {
        return None;
    }
    Some(disk.write_at(at as u64, piece))
}

fn cut(disk: &mut MemDisk, size: usize) -> Option<Result<(), Failed>> {
    if size > disk.bytes().len() || disk.reserve(1).is_err() {
        return None;
    }
    Some(disk.cut(size as u64))
}

/// The three images of a moment.
fn check_images(
    rt: &impl Abort,
    alloc: Global,
    disk: &MemDisk,
    moment: u64,
    images: [&[u8]; 3],
    what: &str,
) -> Result<(), Fail> {
    assert!(rt; moment <= disk.moment(), "{what}");
    let old = disk.image(alloc, moment, Image::Old)?;
    let new = disk.image(alloc, moment, Image::New)?;
    let odd = disk.image(alloc, moment, Image::Odd)?;
    assert_eq!(rt; old.as_slice(), images[0], "old, {what}");
    assert_eq!(rt; new.as_slice(), images[1], "new, {what}");
    assert_eq!(rt; odd.as_slice(), images[2], "odd, {what}");
    Ok(())
}

/// Expected by hand from the rule: a place is pending from a write of it to the next sync that succeeds.
#[test]
fn a_write_is_pending_until_a_sync(rt: HostRuntime) -> Result<(), Fail> {
    let alloc = rt.alloc();
    let mut disk = disk_of(alloc, b"abc")?;
    assert_eq!(rt; write(&mut disk, 1, b"XYZ"), Some(Ok(())));
    assert_eq!(rt; disk.bytes(), b"aXYZ".as_slice());
    assert_eq!(rt; disk.sync(), Ok(()));
    assert_eq!(rt; disk.moment(), 4);
    check_images(
        &rt,
        alloc,
        &disk,
        0,
        [b"abc", b"abc", b"abc"],
        "before the write",
    )?;
    check_images(
        &rt,
        alloc,
        &disk,
        1,
        [b"abc", b"aXYZ", b"a777"],
        "within the write",
    )?;
    check_images(
        &rt,
        alloc,
        &disk,
        2,
        [b"abc", b"aXYZ", b"a777"],
        "after the write",
    )?;
    check_images(
        &rt,
        alloc,
        &disk,
        3,
        [b"abc", b"aXYZ", b"a777"],
        "within the sync",
    )?;
    check_images(
        &rt,
        alloc,
        &disk,
        4,
        [b"aXYZ", b"aXYZ", b"aXYZ"],
        "after the sync",
    )
}

#[test]
fn places_past_a_cut_are_pending(rt: HostRuntime) -> Result<(), Fail> {
    let alloc = rt.alloc();
    let mut disk = disk_of(alloc, b"abcdef")?;
    assert_eq!(rt; cut(&mut disk, 2), Some(Ok(())));
    assert_eq!(rt; disk.bytes(), b"ab".as_slice());
    assert_eq!(rt; write(&mut disk, 2, b"Z"), Some(Ok(())));
    assert_eq!(rt; disk.bytes(), b"abZ".as_slice());
    check_images(
        &rt,
        alloc,
        &disk,
        1,
        [b"ab", b"abcdef", b"ab7777"],
        "within the cut",
    )?;
    check_images(
        &rt,
        alloc,
        &disk,
        4,
        [b"ab", b"abZdef", b"ab7777"],
        "after the write",
    )
}

#[test]
fn a_failed_write_changes_nothing_and_is_pending(rt: HostRuntime) -> Result<(), Fail> {
    let alloc = rt.alloc();
    let mut fails = no_fails(alloc);
    fails.writes.push(0)?;
    fails.syncs.push(0)?;
    let mut disk = MemDisk::new(alloc, b"abc".to_vec(alloc)?, fails);
    assert_eq!(rt; write(&mut disk, 3, b"DE"), Some(Err(Failed)));
    assert_eq!(rt; disk.bytes(), b"abc".as_slice());
    assert_eq!(rt; disk.sync(), Err(Failed));
    check_images(
        &rt,
        alloc,
        &disk,
        4,
        [b"abc", b"abcDE", b"abc77"],
        "after a failed sync",
    )?;
    assert_eq!(rt; disk.sync(), Ok(()));
    check_images(
        &rt,
        alloc,
        &disk,
        6,
        [b"abc", b"abc", b"abc"],
        "after a sync",
    )
}

#[test]
fn listed_calls_fail_by_their_number(rt: HostRuntime) -> Result<(), Fail> {
    let alloc = rt.alloc();
    let mut fails = no_fails(alloc);
    fails.all.push(1)?;
    fails.all.push(6)?;
    fails.reads.push(1)?;
    let mut disk = MemDisk::new(alloc, b"abc".to_vec(alloc)?, fails);
    let mut into = [0u8; 2];
    assert_eq!(rt; disk.length(), Ok(3), "call 0");
    assert_eq!(rt; disk.length(), Err(Failed), "call 1");
    assert_eq!(rt; disk.read_at(2, &mut into), Ok(1), "call 2, read 0");
    assert_eq!(rt; into[0], b'c');
    assert_eq!(rt; disk.read_at(0, &mut into), Err(Failed), "call 3, read 1");
    assert_eq!(rt; disk.read_at(0, &mut into), Ok(2), "call 4, read 2");
    assert_eq!(rt; disk.read_at(4, &mut into), Ok(0), "call 5, read 3");
    assert_eq!(rt; cut(&mut disk, 1), Some(Err(Failed)), "call 6");
    assert_eq!(rt; disk.bytes(), b"abc".as_slice());
    Ok(())
}

/// Any disk, through its bound.
fn length_and_sync<D: Disk>(disk: &mut D) -> Result<u64, Failed> {
    let length = disk.length()?;
    disk.sync()?;
    Ok(length)
}

#[test]
fn a_fuse_blows_for_good(rt: HostRuntime) -> Result<(), Fail> {
    let alloc = rt.alloc();
    let mut disk = FuseDisk::new(disk_of(alloc, b"abc")?, 3);
    assert_eq!(rt; length_and_sync(&mut disk), Ok(3), "calls 0 and 1");
    assert_eq!(rt; disk.length(), Ok(3), "call 2");
    assert_eq!(rt; length_and_sync(&mut disk), Err(Failed), "call 3");
    assert_eq!(rt; disk.sync(), Err(Failed), "call 4");
    let mut disk = disk.into_disk();
    assert_eq!(rt; disk.moment(), 10);
    assert_eq!(rt; length_and_sync(&mut disk), Ok(3), "without the fuse");
    Ok(())
}
