ghost use Rattle.std.specs.Prelude.{◌<◌, All, IfOk, vec_len};
ghost use Rattle.rep_io.specs.Streams.{IsReading};

use crate::fault::Fault;
use crate::line::Line;
use crate::written::number_of;
use rep_disk::{Fails, MemDisk};
use rep_fields::Stamp;
use rep_io::{FIRST_READING, LAST_READING, MemClock, MemSink};
use std::alloc::Global;

/// The room of a file or an output that no step narrows, in bytes.
const ROOM: u64 = 1_048_576;

/// The calls of each object that fail, by their numbers from 0, and the room of what is written to.
#[derive(Drop)]
pub(crate) struct Outside {
    alloc: Global,
    pub(crate) site: Vec<u64>,
    pub(crate) lane: Vec<u64>,
    clock: Vec<u64>,
    file: Vec<u64>,
    out: Vec<u64>,
    disk: Vec<u64>,
    reads: Vec<u64>,
    writes: Vec<u64>,
    syncs: Vec<u64>,
    room_of_file: u64,
    room_of_out: u64,
    /// What the clock reads, in minutes since 1970-01-01T00:00 UTC.
    minutes: Vec<u32>,
}

impl Outside {
    /// Nothing fails.
    pub(crate) fn new(alloc: Global) -> Self {
        Outside {
            alloc,
            site: Vec::new(alloc),
            lane: Vec::new(alloc),
            clock: Vec::new(alloc),
            file: Vec::new(alloc),
            out: Vec::new(alloc),
            disk: Vec::new(alloc),
            reads: Vec::new(alloc),
            writes: Vec::new(alloc),
            syncs: Vec::new(alloc),
            room_of_file: ROOM,
            room_of_out: ROOM,
            minutes: Vec::new(alloc),
        }
    }

    /// `at STAMP STAMP ..`.
    pub(crate) fn add_readings(&mut self, line: &Line, stamps: &[u8]) -> Result<(), Fault> {
        for stamp in stamps.split(|b| *b == b' ') {
            let Some(stamp) = Stamp::read(stamp) else {
                return Err(line.fault("no stamp"));
            };
            match u32::try_from(stamp.instant_minute()) {
                Ok(minute) if FIRST_READING <= minute && minute <= LAST_READING => {
                    self.minutes.push(minute)?;
                }
                Ok(_) | Err(_) => return Err(line.fault("no reading of a clock")),
            }
        }
        Ok(())
    }

    /// `fails OBJECT CALL CALL ..`.
    pub(crate) fn add_failures(
        &mut self,
        line: &Line,
        object: &[u8],
        calls: &[u8],
    ) -> Result<(), Fault> {
        for call in calls.split(|b| *b == b' ') {
            match number_of(call) {
                Some(call) => self.add_failure(line, object, call)?,
                None => return Err(line.fault("no number of a call")),
            }
        }
        Ok(())
    }

    /// A call of an object that fails.
    pub(crate) fn add_failure(
        &mut self,
        line: &Line,
        object: &[u8],
        call: u64,
    ) -> Result<(), Fault> {
        match object {
            b"site" => self.site.push(call)?,
            b"lane" => self.lane.push(call)?,
            b"clock" => self.clock.push(call)?,
            b"file" => self.file.push(call)?,
            b"out" => self.out.push(call)?,
            b"disk" => self.disk.push(call)?,
            b"read" => self.reads.push(call)?,
            b"write" => self.writes.push(call)?,
            b"sync" => self.syncs.push(call)?,
            _ => return Err(line.fault("nothing that can fail")),
        }
        Ok(())
    }

    /// `room OBJECT BYTES`.
    pub(crate) fn narrow(&mut self, line: &Line, object: &[u8], room: &[u8]) -> Result<(), Fault> {
        let Some(room) = number_of(room).filter(|room| *room <= ROOM) else {
            return Err(line.fault("no number of bytes, or one above what there is"));
        };
        match object {
            b"file" => self.room_of_file = room,
            b"out" => self.room_of_out = room,
            _ => return Err(line.fault("nothing that has room")),
        }
        Ok(())
    }

    pub(crate) fn file(&self) -> Result<MemSink, Fault> {
        sink_of(self.alloc, self.room_of_file, &self.file)
    }

    pub(crate) fn out(&self) -> Result<MemSink, Fault> {
        sink_of(self.alloc, self.room_of_out, &self.out)
    }

    pub(crate) fn disk(&self, contents: &[u8]) -> Result<MemDisk, Fault> {
        let fails = Fails {
            all: self.disk.to_vec(self.alloc)?,
            reads: self.reads.to_vec(self.alloc)?,
            writes: self.writes.to_vec(self.alloc)?,
            syncs: self.syncs.to_vec(self.alloc)?,
        };
        Ok(MemDisk::new(self.alloc, contents.to_vec(self.alloc)?, fails))
    }

    pub(crate) fn clock(&self) -> Result<MemClock, Fault> {
        let readings = readings_of(self.alloc, &self.minutes)?;
        Ok(MemClock::new(readings, self.clock.to_vec(self.alloc)?))
    }
}

fn sink_of(alloc: Global, room: u64, fails: &[u64]) -> Result<MemSink, Fault> {
    match MemSink::new(alloc, room, fails.to_vec(alloc)?) {
        Ok(sink) => Ok(sink),
        Err(_) => Err(Fault::Memory),
    }
}

/// These minutes as readings of a clock, the first that there is where there is none.
fn readings_of(alloc: Global, minutes: &[u32]) -> Result<Vec<u32>, Fault>
    ensures some { IfOk result (λ readings. 0 < vec_len readings) }
    ensures in_range { IfOk result (λ readings. All IsReading readings.items) }
{
    let mut readings = Vec::new(alloc);
    for minute in minutes {
        readings.push((*minute).clamp(FIRST_READING, LAST_READING))?;
    }
    if readings.is_empty() {
        readings.push(FIRST_READING)?;
    }
    Ok(readings)
}
