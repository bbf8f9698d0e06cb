//! What the core and the journal do together.
ghost use Rattle.std.specs.Prelude.{◌≡◌, ◌≤◌, ◌↔◌, List, length, OnOk};
ghost use Rattle.rep_io.specs.Causes.{HasCause};
ghost use Rattle.rep_fields.specs.Moment.{IsMoment};
ghost use Rattle.afd_records.specs.File.{HasHeadText};
ghost use Rattle.afd_records.specs.Record.{last_nsr};
ghost use Rattle.rep_wire.specs.Request.{IsRequest};
ghost use Rattle.rep_wire.specs.declared.request.Entry.{Entry};
ghost use Rattle.rep_core.specs.Core.{Stands, IsReady};
ghost use Rattle.rep_core.specs.Answered.{recorded_after};
ghost use Rattle.rep_core.specs.Verdict.{IsVerdict};
ghost use Rattle.rep_core.specs.declared.verdict.Verdict.{Verdict};
ghost use Rattle.afd_extract.specs.Extract.{extract_text, lines_of};
ghost use Rattle.rep_ledger.specs.Ledger.{frames_of};
ghost use Rattle.rep_print.specs.FileSteps.{PutsAll, led_text};

use crate::journal::PrintJournal;
use afd_records::Head;
use rep_core::Core;
use rep_fields::Stamp;
use rep_io::{OutOfMemory, Sink, SinkFault, put_all};
use rep_ledger::frame_of;
use rep_wire::{Request, extract_line};

/// Takes the memory that recording a request needs.
pub(crate) fn take_room(
    core: &mut Core,
    journal: &mut PrintJournal,
    q: &Request,
) -> Result<(), OutOfMemory>
    ensures core { (h : List Entry) → Stands core.old h ↔ Stands core.new h }
    ensures limit { core.new.limit ≡ core.old.limit }
    ensures ready { OnOk result (IsReady core.new q.now) }
    ensures room { OnOk result (1 ≤ journal.new.spare) }
    ensures frames { journal.new.frames ≡ journal.old.frames }
{
    core.reserve(q)?;
    journal.reserve()
}

/// Records a request that is to be recorded, and puts the frame of its entry.
pub(crate) fn put_entry(core: &mut Core, journal: &mut PrintJournal, q: &Request, now: Stamp)
    requires asked { IsRequest q.now }
    requires stamp { IsMoment now }
    requires limit { core.old.limit ≡ last_nsr }
    requires fresh { (h : List Entry) → Stands core.old h → IsVerdict core.old.limit h q.now Verdict.Fresh }
    requires ready { IsReady core.old q.now }
    requires room { 1 ≤ journal.old.spare }
    ensures recorded { (h : List Entry) → Stands core.old h → Stands core.new (recorded_after h q.now now) }
    ensures limit { core.new.limit ≡ core.old.limit }
    ensures repeat { (h : List Entry) → Stands core.new h
        → IsVerdict core.new.limit h q.now (Verdict.Repeat (length h)) }
    ensures frames { journal.old.frames ≡ frames_of core.old.entries
        → journal.new.frames ≡ frames_of core.new.entries }
{
    let frame = frame_of(core, q, now);
    journal.put(&frame);
    core.accept_line(q, now, frame.line());
}

/// Writes an extraction over so many entries: its own line, and the AFD with this head.
pub(crate) fn put_extraction<K: Sink>(
    line: u64,
    seq: u64,
    front: u32,
    head: &Head,
    journal: &mut PrintJournal,
    sink: &mut K,
) -> Result<(), SinkFault>
    requires head { HasHeadText head.now }
    requires some { 1 ≤ length journal.old.frames }
    ensures puts { PutsAll (K.written sink.old) (K.written sink.new)
        (led_text line seq front (extract_text head.now (lines_of journal.old.frames))) result }
    ensures same { journal.new ≡ journal.old }
    ensures cause { HasCause (K.faults sink.old) (K.faults sink.new) result }
{
    let size = journal.size(head);
    put_all(sink, extract_line(line, seq, size, front).bytes())?;
    journal.write(head, sink)?;
    Ok(())
}
