//! The journal of a printed lane, on a disk in memory that never fails.
ghost use Rattle.std.specs.Prelude.{◌≡◌, ◌≤◌, ◌++◌, ◌∷◌, [], length};
ghost use Rattle.rep_io.specs.Causes.{HasCause};
ghost use Rattle.afd_records.specs.File.{HasHeadText};
ghost use Rattle.afd_extract.specs.Extract.{extract_text, lines_of};
ghost use Rattle.rep_print.specs.FileSteps.{PutsText};
ghost use Rattle.rep_print.specs.Journal.{kept_frames};

use afd_extract::{WriteFail, write_afd};
use afd_records::Head;
use rep_io::{Failed, OutOfMemory, Sink, SinkFault};
use rep_journal::{Frame, Journal, Vacant, WhyNot};
use std::alloc::Global;
use std::marker::Model;
use std::mem;
use sure_disk::SureDisk;

// A sink that takes all bytes, and keeps none of them.
#[derive(Drop)]
struct Nowhere;

impl Sink for Nowhere {
    ghost use Rattle.std.specs.Prelude.{None};

    ghost written = { λ _. None };

    ghost faults = { λ _. 0 };

    fn write(&mut self, piece: &[u8]) -> Result<usize, Failed> {
        Ok(piece.len())
    }
}

// How far the journal has come: it begins with its first frame.
#[derive(Drop)]
enum Stage {
    // no memory was taken
    Blank,
    // there is room for the first frame
    Vacant(Vacant<SureDisk>),
    Standing(Journal<SureDisk>),
}

/// A journal in memory. It has no frame at first.
#[derive(Drop)]
pub struct PrintJournal {
    alloc: Global,
    stage: Stage,
}

impl Model for PrintJournal {
    ghost use Rattle.rep_print.specs.Journal.{KeptFrames, kept_frames as stage_frames};

    ghost Value = { KeptFrames };

    ghost view = { λ j. stage_frames j.stage };
}

impl PrintJournal {
    ghost use Rattle.std.specs.Prelude.{◌≡◌, ◌≤◌, ◌++◌, ◌∷◌, [], OnOk, length};
    ghost use Rattle.rep_io.specs.Causes.{HasCause};
    ghost use Rattle.afd_records.specs.File.{HasHeadText};
    ghost use Rattle.afd_extract.specs.Extract.{extract_text, lines_of};
    ghost use Rattle.rep_print.specs.FileSteps.{PutsText};

    /// A journal without a frame. It takes no memory yet.
    pub fn new(alloc: Global) -> PrintJournal
        ensures { result.frames ≡ [] }
    {
        PrintJournal {
            alloc,
            stage: Stage::Blank,
        }
    }

    /// Takes the memory that one frame more needs.
    ///
    /// # Errors
    ///
    /// `OutOfMemory` where there isn't enough.
    pub fn reserve(&mut self) -> Result<(), OutOfMemory>
        ensures made { OnOk result (1 ≤ self.new.spare) }
        ensures frames { self.new.frames ≡ self.old.frames }
    {
        match &mut self.stage {
            Stage::Blank => {}
            Stage::Vacant(_) => return Ok(()),
            Stage::Standing(journal) => return journal.reserve(),
        }
        self.stage = Stage::Vacant(vacant(self.alloc)?);
        Ok(())
    }

    /// Appends a frame. It takes no memory.
    pub fn put(&mut self, frame: &Frame)
        requires { 1 ≤ self.old.spare }
        ensures { self.new.frames ≡ self.old.frames ++ frame.now ∷ [] }
    {
        let stage = mem::replace(&mut self.stage, Stage::Blank);
        self.stage = Stage::Standing(put_frame(stage, frame));
    }

    /// How many bytes the AFD of all frames has, of which there is one at least, with this head.
    pub fn size(&mut self, head: &Head) -> u64
        requires head { HasHeadText head.now }
        requires some { 1 ≤ length self.old.frames }
        ensures size { result ≡ length (extract_text head.now (lines_of self.old.frames)) }
        ensures same { self.new ≡ self.old }
    {
        match self.write(head, &mut Nowhere) {
            Ok(size) => size,
            Err(_) => unreachable!(),
        }
    }

    /// Writes the AFD of all frames, of which there is one at least, with this head, and answers how many bytes it has. It
    /// takes no memory.
    ///
    /// # Errors
    ///
    /// `SinkFault` only where the sink failed. It then has a front of the AFD.
    pub fn write<K: Sink>(&mut self, head: &Head, sink: &mut K) -> Result<u64, SinkFault>
        requires head { HasHeadText head.now }
        requires some { 1 ≤ length self.old.frames }
        ensures bytes { PutsText (K.written sink.old) (K.written sink.new)
            (extract_text head.now (lines_of self.old.frames)) result }
        ensures same { self.new ≡ self.old }
        ensures cause { HasCause (K.faults sink.old) (K.faults sink.new) result }
    {
        match &mut self.stage {
            Stage::Standing(journal) => write_frames(journal, head, sink),
            Stage::Blank | Stage::Vacant(_) => unreachable!(),
        }
    }
}

// The room for a journal's first frame.
fn vacant(alloc: Global) -> Result<Vacant<SureDisk>, OutOfMemory> {
    match Journal::look(alloc, SureDisk::new(alloc, Vec::new(alloc))) {
        Ok(vacant) => Ok(vacant),
        Err(not_made) => match not_made.why {
            WhyNot::OutOfMemory => Err(OutOfMemory),
            // The disk is empty, and doesn't fail.
            WhyNot::Foreign
            | WhyNot::Present
            | WhyNot::Blank
            | WhyNot::Damaged { .. }
            | WhyNot::DeviceFault => unreachable!(),
        },
    }
}

// The journal with one frame more.
fn put_frame(stage: Stage, frame: &Frame) -> Journal<SureDisk>
    requires { 1 ≤ (kept_frames stage).spare }
    ensures { result.frames ≡ (kept_frames stage).frames ++ frame.now ∷ [] }
{
    match stage {
        Stage::Blank => unreachable!(),
        Stage::Vacant(vacant) => begin(vacant, frame),
        Stage::Standing(journal) => append(journal, frame),
    }
}

// The journal with its first frame. The disk doesn't fail.
fn begin(vacant: Vacant<SureDisk>, frame: &Frame) -> Journal<SureDisk>
    ensures { result.frames ≡ frame.now ∷ [] }
{
    match Journal::create(vacant, frame) {
        Ok(journal) => journal,
        Err(_) => unreachable!(),
    }
}

// The journal with one frame more behind its others. The disk doesn't fail.
fn append(journal: Journal<SureDisk>, frame: &Frame) -> Journal<SureDisk>
    requires { 1 ≤ journal.spare }
    ensures { result.frames ≡ journal.frames ++ frame.now ∷ [] }
{
    match journal.put(frame) {
        Ok(journal) => journal,
        Err(_) => unreachable!(),
    }
}

// Writes the AFD of all frames. The disk doesn't fail.
fn write_frames<K: Sink>(
    journal: &mut Journal<SureDisk>,
    head: &Head,
    sink: &mut K,
) -> Result<u64, SinkFault>
    requires head { HasHeadText head.now }
    requires some { 1 ≤ length journal.old.frames }
    ensures bytes { PutsText (K.written sink.old) (K.written sink.new)
        (extract_text head.now (lines_of journal.old.frames)) result }
    ensures frames { journal.new.frames ≡ journal.old.frames }
    ensures spare { journal.new.spare ≡ journal.old.spare }
    ensures cause { HasCause (K.faults sink.old) (K.faults sink.new) result }
{
    let count = journal.count();
    match write_afd(journal, Some((1, count)), head, sink) {
        Ok(size) => Ok(size),
        Err(WriteFail::SinkFault) => Err(SinkFault),
        Err(WriteFail::DeviceFault) => unreachable!(),
    }
}
