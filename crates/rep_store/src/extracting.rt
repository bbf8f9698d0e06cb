//! The AFD of a period, out of the history.
ghost use Rattle.std.specs.Prelude.{◌≡◌, ◌≢◌, ◌*◌, ◌≤◌, ℕ, List, IsSome, Some, Err, length};
ghost use Rattle.std.specs.List.{flat_map};
ghost use Rattle.rep_fields.specs.Moment.{moment_at};
ghost use Rattle.rep_io.specs.Causes.{HasCause, Rose};
ghost use Rattle.afd_records.specs.File.{HasHeadText, ended};
ghost use Rattle.afd_records.specs.Record.{last_nsr};
ghost use Rattle.rep_wire.specs.declared.request.Entry.{Entry};
ghost use Rattle.rep_core.specs.Chained.{history_lines};
ghost use Rattle.rep_core.specs.Core.{Stands};
ghost use Rattle.rep_core.specs.Valid.{IsFounded};
ghost use Rattle.rep_journal.specs.State.{IsSame};
ghost use Rattle.rep_ledger.specs.Ledger.{frames_of};
ghost use Rattle.rep_site.specs.Site.{IsSite};
ghost use Rattle.rep_site.specs.declared.site.Site.{Site as TheSite};
ghost use Rattle.afd_extract.specs.Period.{in_range};
ghost use Rattle.rep_store.specs.Days.{AreDaysOf};
ghost use Rattle.rep_store.specs.Device.{journal_of};
ghost use Rattle.rep_store.specs.Extracting.{IsAfdOf, IsExtractHead, PutsExtract, PutsLead, failed_by_disk};

use crate::days::DayList;
use crate::device::Device;
use crate::error::ExtractFail;
use crate::store::Store;
use afd_extract::{WriteFail, an_extract_is_the_file_of_its_records, period};
use afd_records::{Body, Head};
use rep_core::Core;
use rep_disk::Disk;
use rep_fields::{Day, Stamp, Text};
use rep_io::{Clock, Sink, SinkFault, put_all};
use rep_site::Site;
use rep_wire::extract_line;

/// How many bytes an AFD without a record has: head, trailer and the line for the signature, each with its end.
const EMPTY_FILE: u64 = 472;

/// How many bytes end a line.
const LINE_END: u64 = 2;

/// The line of a lane that asks for an extraction: its number, and its sequence number.
#[derive(Clone, Copy, Debug, PartialEq, Eq)]
pub struct Lead {
    /// The number of the line, the head being 1.
    pub line: u64,
    /// The sequence number.
    pub seq: u64,
}

impl<D: Disk, C: Clock> Store<D, C> {
    ghost use Rattle.std.specs.Prelude.{◌≡◌, ◌≢◌, ◌↔◌, ◌≤◌, ℕ, List, [], length, IfOk, None, Some, Err};
    ghost use Rattle.rep_io.specs.Causes.{Rose};
    ghost use Rattle.rep_core.specs.History.{days_of};
    ghost use Rattle.rep_ledger.specs.Safety.{IsSafe};
    ghost use Rattle.afd_extract.specs.Period.{IsPeriod};
    ghost use Rattle.rep_store.specs.Extracting.{Extracts, IsAfdOf};
    ghost use Rattle.rep_store.specs.Steps.{LeavesAll, MissesTime};

    /// The numbers of a period, its first and last day included: from the least to the greatest that was recorded in it.
    /// `None` where none was.
    pub fn period(&self, from: Day, to: Day) -> Option<(u32, u32)>
        ensures { IsPeriod (days_of self.now.history) from to result }
    {
        period(self.days.list(), from, to)
    }

    /// How many bytes the AFD of a period has, its first and last day included.
    pub fn size(&self, from: Day, to: Day) -> u64
        ensures { (minute : ℕ) (text : List ℕ) → IsAfdOf self.now.site self.now.history from to minute text
            → result ≡ length text }
    {
        size_of(&self.core, &self.days, from, to)
    }

    /// Reads the clock, and writes the AFD of a period at that reading, its first and last day included; in front of it the
    /// reply to the line that asks for it, if there is one. It answers how many bytes the AFD has. It takes no memory, and
    /// changes no history.
    ///
    /// # Errors
    ///
    /// `Stopped` exactly where the store stopped before, with the count that it keeps. `ClockFault`, `SinkFault` and
    /// `DeviceFault` exactly where the clock, the sink or the disk failed in this call; a front of what was due stands then.
    pub fn extract<K: Sink>(
        &mut self,
        lead: Option<Lead>,
        from: Day,
        to: Day,
        sink: &mut K,
    ) -> Result<u64, ExtractFail>
        ensures extracted { IfOk result (λ size. Extracts D.shown C.readings C.faults lead from to self.old self.new
            (K.written sink.old) (K.written sink.new) result) }
        ensures stopped { (count : ℕ) → (result ≡ Err (ExtractFail.Stopped count)) ↔ (self.old.stopped ≡ Some count) }
        ensures left { (count : ℕ) → result ≡ Err (ExtractFail.Stopped count)
            → LeavesAll D.shown self.old self.new × (sink.new ≡ sink.old) }
        ensures clock_fault { result ≡ Err ExtractFail.ClockFault
            → MissesTime D.shown C.readings C.faults self.old self.new × (sink.new ≡ sink.old) }
        ensures sink_fault { result ≡ Err ExtractFail.SinkFault
            → Extracts D.shown C.readings C.faults lead from to self.old self.new (K.written sink.old) (K.written sink.new) result
            × Rose (K.faults sink.old) (K.faults sink.new) }
        ensures device_fault { result ≡ Err ExtractFail.DeviceFault
            → Extracts D.shown C.readings C.faults lead from to self.old self.new (K.written sink.old) (K.written sink.new) result
            × Rose (D.shown self.old.disk).faults (D.shown self.new.disk).faults }
        ensures sink_later { K.faults sink.old ≤ K.faults sink.new }
        ensures no_sink_fault { result ≢ Err ExtractFail.SinkFault → K.faults sink.new ≡ K.faults sink.old }
        ensures no_device_fault { result ≢ Err ExtractFail.DeviceFault
            → (D.shown self.new.disk).faults ≡ (D.shown self.old.disk).faults }
        ensures no_clock_fault { result ≢ Err ExtractFail.ClockFault
            → C.faults self.new.clock ≡ C.faults self.old.clock }
        ensures safe { self.old.stopped ≡ None → IsSafe (D.shown self.old.disk).moment self.old.history self.old.history []
            (D.shown self.old.disk) (D.shown self.new.disk) }
    {
        self.reading = None;
        if let Some(faults) = self.device.stopped() {
            return Err(ExtractFail::Stopped { faults });
        }
        let Ok(minute) = self.clock.now() else {
            return Err(ExtractFail::ClockFault);
        };
        self.reading = Some(minute);
        let Some(made) = Stamp::at(minute, self.site.offset) else {
            unreachable!()
        };
        let head = head_of(&self.core, &self.site, from, to, made);
        put_extract(&self.core, &self.days, &mut self.device, &head, lead, sink)
    }
}

// How many bytes the AFD of a period has.
fn size_of(core: &Core, days: &DayList, from: Day, to: Day) -> u64
    requires numbers { length core.now.entries ≤ last_nsr }
    requires days { AreDaysOf core.now days.now }
    ensures { (site : TheSite) (minute : ℕ) (text : List ℕ) → IsSite site → IsFounded core.now.entries
        → IsAfdOf site core.now.entries from to minute text → result ≡ length text }
{
    match period(days.list(), from, to) {
        Some((first, last)) => EMPTY_FILE + bytes_of(core, first, last),
        None => EMPTY_FILE,
    }
}

// How many bytes the lines of a range of numbers have, each with its end.
fn bytes_of(core: &Core, first: u32, last: u32) -> u64
    requires range { (h : List Entry) → Stands core.now h → (1 ≤ first) × (first ≤ last) × (last ≤ length h) }
    requires numbers { last ≤ last_nsr }
    ensures bytes { (h : List Entry) → Stands core.now h
        → result ≡ length (flat_map ended (in_range (Some (first, last)) (history_lines h))) }
    ensures few { result ≤ 333 * last_nsr }
{
    let mut size = 0;
    for place in first - 1..last {
        let line = core.line_at(place + 1);
        size += line.bytes().len() as u64 + LINE_END;
    }
    size
}

// Writes the AFD that has this head, of the period that it names, and in front of it the reply to the line that asks for it,
// if there is one.
fn put_extract<D: Disk, K: Sink>(
    core: &Core,
    days: &DayList,
    device: &mut Device<D>,
    head: &Head,
    lead: Option<Lead>,
    sink: &mut K,
) -> Result<u64, ExtractFail>
    requires running { device.old.stopped ≡ None }
    requires numbers { length core.now.entries ≤ last_nsr }
    requires days { AreDaysOf core.now days.now }
    requires as_many { length device.old.frames ≡ length core.now.entries }
    requires frames { IsSome (D.shown device.old.disk).contents → device.old.frames ≡ frames_of core.now.entries }
    requires head { HasHeadText head.now }
    ensures puts { (site : TheSite) (minute : ℕ) → IsSite site → IsFounded core.now.entries
        → IsExtractHead site core.now.entries head.now.first head.now.last minute head.now
        → PutsExtract site core.now.entries lead head.now.first head.now.last minute
        (IsSome (D.shown device.old.disk).contents) (K.written sink.old) (K.written sink.new) result }
    ensures running { device.new.stopped ≡ None }
    ensures journal { IsSame D.shown (failed_by_disk result) (journal_of device.old) (journal_of device.new) }
    ensures not_stopped { (count : ℕ) → ¬ (result ≡ Err (ExtractFail.Stopped count)) }
    ensures no_clock { ¬ (result ≡ Err ExtractFail.ClockFault) }
    ensures device_fault { result ≡ Err ExtractFail.DeviceFault
        → Rose (D.shown device.old.disk).faults (D.shown device.new.disk).faults }
    ensures no_device_fault { result ≢ Err ExtractFail.DeviceFault
        → (D.shown device.new.disk).faults ≡ (D.shown device.old.disk).faults }
    ensures sink_later { K.faults sink.old ≤ K.faults sink.new }
    ensures sink_fault { result ≡ Err ExtractFail.SinkFault → Rose (K.faults sink.old) (K.faults sink.new) }
    ensures no_sink_fault { result ≢ Err ExtractFail.SinkFault → K.faults sink.new ≡ K.faults sink.old }
{
    let range = period(days.list(), head.first, head.last);
    if put_lead(core, days, head, lead, sink).is_err() {
        return Err(ExtractFail::SinkFault);
    }
    // The file of these frames is that of the history's records.
    an_extract_is_the_file_of_its_records();
    match device.write_afd(range, head, sink) {
        Ok(size) => Ok(size),
        Err(WriteFail::SinkFault) => Err(ExtractFail::SinkFault),
        Err(WriteFail::DeviceFault) => Err(ExtractFail::DeviceFault),
    }
}

// Writes the reply in front of the AFD that has this head, if one is asked for.
fn put_lead<K: Sink>(
    core: &Core,
    days: &DayList,
    head: &Head,
    lead: Option<Lead>,
    sink: &mut K,
) -> Result<(), SinkFault>
    requires numbers { length core.now.entries ≤ last_nsr }
    requires days { AreDaysOf core.now days.now }
    ensures puts { (site : TheSite) → IsSite site → IsFounded core.now.entries
        → PutsLead site core.now.entries lead head.now.first head.now.last (K.written sink.old) (K.written sink.new) result }
    ensures cause { HasCause (K.faults sink.old) (K.faults sink.new) result }
{
    let Some(lead) = lead else {
        return Ok(());
    };
    let size = size_of(core, days, head.first, head.last);
    let line = extract_line(lead.line, lead.seq, size, core.count());
    put_all(sink, line.bytes())
}

// The head of an extraction.
fn head_of(core: &Core, site: &Site, from: Day, to: Day, made: Stamp) -> Head
    requires site { IsSite site.now }
    requires founded { (h : List Entry) → Stands core.now h → IsFounded h }
    ensures head { (h : List Entry) (minute : ℕ) → Stands core.now h → made ≡ moment_at minute site.now.offset
        → IsExtractHead site.now h from to minute result }
    ensures text { HasHeadText result }
{
    let Some(nsr) = core.employer() else {
        unreachable!();
    };
    let entry = core.entry(nsr);
    let Body::Employer { id, cno, name, .. } = &entry.body else {
        unreachable!();
    };
    Head {
        id: *id,
        cno: *cno,
        name: *name,
        rep: site.rep,
        first: from,
        last: to,
        made,
        dev_kind: site.developer.kind() - b'0',
        dev: site.developer.write(),
        model: Text::empty(),
    }
}
