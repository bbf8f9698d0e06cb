//! The writer of an AFD.
ghost use Rattle.std.specs.Prelude.{◌≡◌, ◌≢◌, ◌<◌, ◌≤◌, Err, List, IsSome, length};
ghost use Rattle.rep_io.specs.Causes.{Rose};
ghost use Rattle.afd_records.specs.File.{HasHeadText};
ghost use Rattle.afd_records.specs.Record.{last_nsr};
ghost use Rattle.rep_journal.specs.Format.{Framed};
ghost use Rattle.rep_journal.specs.State.{IsSame};
ghost use Rattle.afd_extract.specs.Extract.{IsRangeIn, WritesExtract, failed_by_device};
ghost use Rattle.afd_extract.specs.Steps.{ArePlacesOf, PutsFrames, PutsLines, failed_frames};

use crate::error::WriteFail;
use crate::output::{Buffer, END_BYTES, HEAD_BYTES, put_end, put_head, put_line};
use crate::tally::Tally;
use afd_records::{Head, Trailer};
use rep_disk::Disk;
use rep_fields::Row;
use rep_io::{Sink, put_all};
use rep_journal::Journal;

/// Writes the AFD of a range of the journal's frames, with this head, and answers how many bytes it has. Its lines are the
/// frames' own, and the trailer counts them by type. Without a range it has no record. It takes no memory.
///
/// # Errors
///
/// `DeviceFault` exactly where the disk failed in this call, and `SinkFault` exactly where the sink did. A front of the file stands
/// then.
pub fn write_afd<D: Disk, K: Sink>(
    journal: &mut Journal<D>,
    range: Option<(u32, u32)>,
    head: &Head,
    sink: &mut K,
) -> Result<u64, WriteFail>
    requires head { HasHeadText head.now }
    requires range { IsRangeIn journal.old.frames range }
    ensures writes { WritesExtract head.now journal.old.frames range (IsSome (D.shown journal.old.disk).contents)
        (K.written sink.old) (K.written sink.new) result }
    ensures journal { IsSame D.shown (failed_by_device result) journal.old journal.new }
    ensures device_fault { result ≡ Err WriteFail.DeviceFault → Rose (D.shown journal.old.disk).faults (D.shown journal.new.disk).faults }
    ensures no_device_fault { result ≢ Err WriteFail.DeviceFault → (D.shown journal.new.disk).faults ≡ (D.shown journal.old.disk).faults }
    ensures sink_later { K.faults sink.old ≤ K.faults sink.new }
    ensures sink_fault { result ≡ Err WriteFail.SinkFault → Rose (K.faults sink.old) (K.faults sink.new) }
    ensures no_sink_fault { result ≢ Err WriteFail.SinkFault → K.faults sink.new ≡ K.faults sink.old }
{
    let mut held = Row::new();
    let size = put_lines(journal, range, head, sink, &mut held)?;
    if put_all(sink, held.bytes()).is_err() {
        return Err(WriteFail::SinkFault);
    }
    Ok(size)
}

// Puts all lines of the AFD, holds the last of them, and answers how many bytes they have.
fn put_lines<D: Disk, K: Sink>(
    journal: &mut Journal<D>,
    range: Option<(u32, u32)>,
    head: &Head,
    sink: &mut K,
    held: &mut Buffer,
) -> Result<u64, WriteFail>
    requires head { HasHeadText head.now }
    requires range { IsRangeIn journal.old.frames range }
    ensures puts { PutsLines head.now journal.old.frames range (IsSome (D.shown journal.old.disk).contents)
        (K.written sink.old) (K.written sink.new) held.old held.new result }
    ensures journal { IsSame D.shown (failed_by_device result) journal.old journal.new }
    ensures device_fault { result ≡ Err WriteFail.DeviceFault → Rose (D.shown journal.old.disk).faults (D.shown journal.new.disk).faults }
    ensures no_device_fault { result ≢ Err WriteFail.DeviceFault → (D.shown journal.new.disk).faults ≡ (D.shown journal.old.disk).faults }
    ensures sink_later { K.faults sink.old ≤ K.faults sink.new }
    ensures sink_fault { result ≡ Err WriteFail.SinkFault → Rose (K.faults sink.old) (K.faults sink.new) }
    ensures no_sink_fault { result ≢ Err WriteFail.SinkFault → K.faults sink.new ≡ K.faults sink.old }
{
    if put_head(head, sink, held).is_err() {
        return Err(WriteFail::SinkFault);
    }
    let (begin, end) = places_of(range);
    // A journal's frames have numbers of at most nine digits, and so has each count of them.
    let count = journal.count();
    prove!(end <= count);
    let tally = put_frames(journal, begin, end, sink, held)?;
    let counts = tally.counts;
    let trailer = Trailer { counts };
    if put_end(&trailer, sink, held).is_err() {
        return Err(WriteFail::SinkFault);
    }
    Ok(HEAD_BYTES + tally.bytes + END_BYTES)
}

// The places that a range of numbers has: from one up to another.
fn places_of(range: Option<(u32, u32)>) -> (u32, u32)
    requires { (frames : List Framed) × IsRangeIn frames range }
    ensures { (frames : List Framed) → IsRangeIn frames range → ArePlacesOf frames range result.0 result.1 }
{
    match range {
        Some((first, last)) => (first - 1, last),
        None => (0, 0),
    }
}

// Puts the lines of the frames from one place up to another, and adds them up.
fn put_frames<D: Disk, K: Sink>(
    journal: &mut Journal<D>,
    begin: u32,
    end: u32,
    sink: &mut K,
    held: &mut Buffer,
) -> Result<Tally, WriteFail>
    requires ordered { begin ≤ end }
    requires within { end ≤ length journal.old.frames }
    requires few { end ≤ last_nsr }
    ensures puts { PutsFrames journal.old.frames begin end (IsSome (D.shown journal.old.disk).contents)
        (K.written sink.old) (K.written sink.new) held.old held.new result }
    ensures journal { IsSame D.shown (failed_frames result) journal.old journal.new }
    ensures device_fault { result ≡ Err WriteFail.DeviceFault → Rose (D.shown journal.old.disk).faults (D.shown journal.new.disk).faults }
    ensures no_device_fault { result ≢ Err WriteFail.DeviceFault → (D.shown journal.new.disk).faults ≡ (D.shown journal.old.disk).faults }
    ensures sink_later { K.faults sink.old ≤ K.faults sink.new }
    ensures sink_fault { result ≡ Err WriteFail.SinkFault → Rose (K.faults sink.old) (K.faults sink.new) }
    ensures no_sink_fault { result ≢ Err WriteFail.SinkFault → K.faults sink.new ≡ K.faults sink.old }
{
    let mut tally = Tally::new();
    let mut place = begin;
    while place < end {
        let Ok(frame) = journal.frame(place) else {
            return Err(WriteFail::DeviceFault);
        };
        let bytes = frame.line();
        if put_line(sink, held, bytes).is_err() {
            return Err(WriteFail::SinkFault);
        }
        tally.add(bytes);
        place += 1;
    }
    Ok(tally)
}
