//! What a crash within each call of a put leaves of a journal, by hand from the rule, and what calls that fail leave.

use rep_disk::{Disk, Fails, FuseDisk, Image, MemDisk};
use rep_io::OutOfMemory;
use rep_journal::{Frame, Journal, Stopped, WhyNot};
use std::alloc::Global;
use std::process::Abort;
use std::test::Fail;

fn no_fails(alloc: Global) -> Fails {
    Fails {
        all: Vec::new(alloc),
        reads: Vec::new(alloc),
        writes: Vec::new(alloc),
        syncs: Vec::new(alloc),
    }
}

fn disk_of(alloc: Global, bytes: &[u8]) -> Result<MemDisk, OutOfMemory> {
    Ok(MemDisk::new(alloc, bytes.to_vec(alloc)?, no_fails(alloc)))
}

/// A frame whose line has this many times one byte.
fn frame_of(alloc: Global, origin: u16, seq: u64, byte: u8, size: usize) -> Option<Frame> {
    let mut line = Vec::new(alloc);
    for _ in 0..size {
        if line.push(byte).is_err() {
            return None;
        }
    }
    Frame::make(origin, seq, &line)
}

/// The bytes of a frame behind an open gate, by hand from the layout.
fn push_frame(
    bytes: &mut Vec<u8>,
    origin: u8,
    seq: u8,
    byte: u8,
    size: u16,
) -> Result<(), OutOfMemory> {
    bytes.push(0xA5)?;
    bytes.push((size / 256) as u8)?;
    bytes.push((size % 256) as u8)?;
    bytes.extend_from_slice(&[0, origin])?;
    bytes.extend_from_slice(&[0, 0, 0, 0, 0, 0, 0, seq])?;
    for _ in 0..size {
        bytes.push(byte)?;
    }
    Ok(())
}

/// The bytes of a journal of so many frames with lines of 36 bytes: the first has the byte `1`, the second `2` ..
fn journal_bytes(alloc: Global, count: u8) -> Result<Vec<u8>, OutOfMemory> {
    let mut bytes = b"REP-P JOURNAL 1\n".to_vec(alloc)?;
    for i in 0..count {
        push_frame(&mut bytes, 9, i, b'1'.saturating_add(i), 36)?;
    }
    bytes.push(0)?;
    Ok(bytes)
}

/// The frame that stands at that place in such a journal.
fn numbered_frame(alloc: Global, i: u8) -> Option<Frame> {
    frame_of(alloc, 9, i as u64, b'1'.saturating_add(i), 36)
}

/// How many frames are found, or why none.
fn reopened(alloc: Global, bytes: &[u8]) -> Result<Result<u32, WhyNot>, OutOfMemory> {
    match Journal::reopen(alloc, disk_of(alloc, bytes)?) {
        Ok(journal) => Ok(Ok(journal.count())),
        Err(not_made) => Ok(Err(not_made.why)),
    }
}

/// Puts a frame, if there is room for it.
fn put<D: Disk + Drop>(
    journal: Journal<D>,
    frame: &Frame,
) -> Result<Result<Journal<D>, Stopped<D>>, OutOfMemory> {
    let mut journal = journal;
    journal.reserve()?;
    Ok(journal.put(frame))
}

/// What is found in each of the three images of a moment.
fn images(
    alloc: Global,
    disk: &MemDisk,
    moment: u64,
) -> Result<[Result<u32, WhyNot>; 3], OutOfMemory> {
    if moment > disk.moment() {
        return Err(OutOfMemory);
    }
    let old = disk.image(alloc, moment, Image::Old)?;
    let new = disk.image(alloc, moment, Image::New)?;
    let odd = disk.image(alloc, moment, Image::Odd)?;
    Ok([
        reopened(alloc, &old)?,
        reopened(alloc, &new)?,
        reopened(alloc, &odd)?,
    ])
}

/// By the rule: until the gate is written there are the two frames from before, in every image. Then it depends on what
/// becomes of that byte, where 0x37 is a closed gate, and once it is made sure of there are three.
#[test]
fn a_crash_in_each_call_of_a_put(rt: HostRuntime) -> Result<(), Fail> {
    let alloc = rt.alloc();
    let third = numbered_frame(alloc, 2).ok_or("no frame")?;
    let disk = disk_of(alloc, &journal_bytes(alloc, 2)?)?;
    let journal = Journal::reopen(alloc, disk).ok().ok_or("not found")?;
    let journal = put(journal, &third)?.ok().ok_or("stopped")?;
    let disk = journal.into_disk();
    assert_eq!(rt; disk.bytes(), journal_bytes(alloc, 3)?.as_slice());
    let start = disk.moment().saturating_sub(8);
    for step in 0..9u64 {
        let wanted = match step {
            0..=4 => [Ok(2), Ok(2), Ok(2)],
            5..=7 => [Ok(2), Ok(3), Ok(2)],
            _ => [Ok(3), Ok(3), Ok(3)],
        };
        let found = images(alloc, &disk, start.saturating_add(step))?;
        assert_eq!(rt; found, wanted, "{step}");
    }
    Ok(())
}

/// The call of a `put` that fails.
#[derive(Clone, Copy)]
enum Call {
    FirstWrite,
    FirstSync,
    SecondWrite,
    SecondSync,
}

/// A disk of which that call fails: reopening makes one sync before, and no write.
fn disk_failing_at(alloc: Global, bytes: &[u8], call: Call) -> Result<MemDisk, OutOfMemory> {
    let mut fails = no_fails(alloc);
    match call {
        Call::FirstWrite => fails.writes.push(0)?,
        Call::FirstSync => fails.syncs.push(1)?,
        Call::SecondWrite => fails.writes.push(1)?,
        Call::SecondSync => fails.syncs.push(2)?,
    }
    Ok(MemDisk::new(alloc, bytes.to_vec(alloc)?, fails))
}

/// What the contents and the three images have once that call has failed. A write that failed counts for the images as
/// one that was made.
fn check_failed_put(
    rt: &impl Abort,
    alloc: Global,
    call: Call,
    contents: u32,
    wanted: [u32; 3],
) -> Result<(), Fail> {
    let third = numbered_frame(alloc, 2).ok_or("no frame")?;
    let disk = disk_failing_at(alloc, &journal_bytes(alloc, 2)?, call)?;
    let journal = Journal::reopen(alloc, disk).ok().ok_or("not found")?;
    let stopped = put(journal, &third)?.err().ok_or("not stopped")?;
    assert_eq!(rt; stopped.faults, 1);
    assert_eq!(rt; stopped.count, 2);
    let disk = stopped.disk;
    assert_eq!(rt; reopened(alloc, disk.bytes())?, Ok(contents));
    let found = images(alloc, &disk, disk.moment())?;
    assert_eq!(rt; found, [Ok(wanted[0]), Ok(wanted[1]), Ok(wanted[2])]);
    Ok(())
}

#[test]
fn each_call_of_a_put_failing(rt: HostRuntime) -> Result<(), Fail> {
    let alloc = rt.alloc();
    check_failed_put(&rt, alloc, Call::FirstWrite, 2, [2, 2, 2])?;
    check_failed_put(&rt, alloc, Call::FirstSync, 2, [2, 2, 2])?;
    check_failed_put(&rt, alloc, Call::SecondWrite, 2, [2, 3, 2])?;
    check_failed_put(&rt, alloc, Call::SecondSync, 3, [2, 3, 2])?;
    Ok(())
}

/// Reopening makes three calls here: sync, and two reads.
#[test]
fn all_calls_failing_from_each_one_on(rt: HostRuntime) -> Result<(), Fail> {
    let alloc = rt.alloc();
    let third = numbered_frame(alloc, 2).ok_or("no frame")?;
    for from in 0..8u64 {
        let disk = FuseDisk::new(disk_of(alloc, &journal_bytes(alloc, 2)?)?, from);
        let (disk, stopped) = match Journal::reopen(alloc, disk) {
            Err(not_made) => {
                assert_eq!(rt; not_made.why, WhyNot::DeviceFault, "{from}");
                assert!(rt; from < 3, "{from}");
                (not_made.disk, true)
            }
            Ok(journal) => match put(journal, &third)? {
                Err(stopped) => (stopped.disk, true),
                Ok(journal) => (journal.into_disk(), false),
            },
        };
        assert_eq!(rt; stopped, from < 7, "{from}");
        let wanted = if from < 6 { 2 } else { 3 };
        assert_eq!(rt;
            reopened(alloc, disk.into_disk().bytes())?,
            Ok(wanted),
            "{from}"
        );
    }
    Ok(())
}
