//! The recorder in memory that serves a printed lane.
ghost use Rattle.std.specs.Prelude.{◌≡◌, ◌≢◌, ◌≤◌, [], length, Err};
ghost use Rattle.rep_io.specs.Causes.{Rose};
ghost use Rattle.rep_fields.specs.Moment.{IsOffset};
ghost use Rattle.afd_records.specs.Record.{last_nsr};
ghost use Rattle.rep_wire.specs.Request.{IsRequest};
ghost use Rattle.rep_core.specs.Verdict.{IsVerdict};
ghost use Rattle.rep_core.specs.declared.verdict.Verdict.{Verdict};
ghost use Rattle.rep_print.specs.Desk.{Asks, Extracts, Shows};
ghost use Rattle.rep_print.specs.Steps.{MakesFile};
ghost use Rattle.rep_print.specs.Writing.{HasEmployer};

use crate::afd::{head_of, span_of};
use crate::journal::PrintJournal;
use crate::keeping::{put_entry, put_extraction, take_room};
use crate::laws::the_frames_of_a_history_make_its_file;
use rep_core::{Core, Verdict};
use rep_fields::{Day, Stamp};
use rep_io::{Clock, Sink};
use rep_lane::{Desk, DeskFail};
use rep_report::Ending;
use rep_wire::{Reply, Request};
use std::alloc::Global;
use std::marker::Model;

/// How many numbers a recorder gives out at most.
const LAST_NSR: u32 = 999_999_999;

/// A recorder in memory, with a clock. Its journal keeps the lines of its history.
#[derive(Drop)]
pub struct PrintDesk<C: Clock> {
    core: Core,
    journal: PrintJournal,
    clock: C,
    // how far the recorder's clock is ahead of UTC, in minutes
    zone: i16,
}

impl<C: Clock> Model for PrintDesk<C> {
    ghost use Rattle.rep_print.specs.Desk.{State};
    ghost use Rattle.rep_print.specs.Fields.{IsWhole};

    ghost Value = { State C };

    ghost view = { λ d. record { history = d.core.entries; clock = d.clock; zone = d.zone } };

    ghost invariant = { λ d. IsWhole d.core d.journal d.zone };
}

impl<C: Clock> PrintDesk<C> {
    /// A recorder with no entry, whose clock is so many minutes ahead of UTC. It takes no memory yet.
    pub fn new(alloc: Global, zone: i16, clock: C) -> PrintDesk<C>
        requires { IsOffset zone }
        ensures empty { result.history ≡ [] }
        ensures clock { result.clock ≡ clock }
        ensures zone { result.zone ≡ zone }
    {
        PrintDesk {
            core: Core::new(alloc, LAST_NSR),
            journal: PrintJournal::new(alloc),
            clock,
            zone,
        }
    }

    /// How many entries the history has.
    pub fn count(&self) -> u32
        ensures { result ≡ length self.now.history }
    {
        self.core.count()
    }

    /// Makes the AFD of the history at the clock's next reading, and writes it.
    ///
    /// # Errors
    ///
    /// `ClockFault` only where the clock failed: nothing is written then. `SinkFault` only where the sink failed, which
    /// then has a front of the AFD.
    pub fn make_file<K: Sink>(&mut self, file: &mut K) -> Result<(), Ending>
        requires { HasEmployer self.old.history }
        ensures makes { MakesFile self.old.zone self.old.history (C.readings self.old.clock) (C.readings self.new.clock)
            (K.written file.old) (K.written file.new) result }
        ensures history { self.new.history ≡ self.old.history }
        ensures clock_later { C.faults self.old.clock ≤ C.faults self.new.clock }
        ensures clock_fault { result ≡ Err Ending.ClockFault
            → Rose (C.faults self.old.clock) (C.faults self.new.clock) }
        ensures file_later { K.faults file.old ≤ K.faults file.new }
        ensures file_fault { result ≡ Err Ending.SinkFault
            → Rose (K.faults file.old) (K.faults file.new) }
        ensures no_clock_fault { result ≢ Err Ending.ClockFault → C.faults self.new.clock ≡ C.faults self.old.clock }
        ensures no_file_fault { result ≢ Err Ending.SinkFault → K.faults file.new ≡ K.faults file.old }
        ensures unopened { result ≡ Err Ending.ClockFault → file.new ≡ file.old }
    {
        let Ok(minute) = self.clock.now() else {
            return Err(Ending::ClockFault);
        };
        let Some(made) = Stamp::at(minute, self.zone) else {
            unreachable!()
        };
        the_frames_of_a_history_make_its_file();
        let span = span_of(&self.core);
        let head = head_of(&self.core, span.first, span.last, made);
        match self.journal.write(&head, file) {
            Ok(_) => Ok(()),
            Err(_) => Err(Ending::SinkFault),
        }
    }

    /// The clock as it stands.
    pub fn into_clock(self) -> C
        ensures { result ≡ self.clock }
    {
        let PrintDesk {
            core: _,
            journal: _,
            clock,
            zone: _,
        } = self;
        clock
    }

    // Records a request at the next reading of the clock, and answers it.
    fn take(&mut self, q: &Request) -> Result<Reply, DeskFail>
        requires asked { IsRequest q.now }
        requires fresh { IsVerdict last_nsr self.old.history q.now Verdict.Fresh }
        ensures { Asks C.readings C.faults self.old q.now result self.new }
    {
        if take_room(&mut self.core, &mut self.journal, q).is_err() {
            return Err(DeskFail::OutOfMemory);
        }
        let Ok(minute) = self.clock.now() else {
            return Err(DeskFail::ClockFault);
        };
        let Some(now) = Stamp::at(minute, self.zone) else {
            unreachable!()
        };
        put_entry(&mut self.core, &mut self.journal, q, now);
        Ok(self.core.receipt(q))
    }
}

impl<C: Clock> Desk for PrintDesk<C> {
    ghost asks = { λ old q result new. Asks C.readings C.faults old q result new };

    ghost extracts = { λ old from to due result new. Extracts C.readings C.faults old from to due result new };

    ghost shows = { λ old front new. Shows old front new };

    fn call(&mut self, q: &Request) -> Result<Reply, DeskFail> {
        match self.core.decide(q, self.core.kept(q)) {
            Verdict::Fresh => self.take(q),
            settled => Ok(self.core.reply(q, settled)),
        }
    }

    // Without an employer's record there is nobody whom the AFD's head could name.
    fn extract<K: Sink>(
        &mut self,
        line: u64,
        seq: u64,
        from: Day,
        to: Day,
        sink: &mut K,
    ) -> Result<(), DeskFail> {
        if self.core.employer().is_none() {
            return Err(DeskFail::Stopped);
        }
        let Ok(minute) = self.clock.now() else {
            return Err(DeskFail::ClockFault);
        };
        let Some(made) = Stamp::at(minute, self.zone) else {
            unreachable!()
        };
        the_frames_of_a_history_make_its_file();
        let head = head_of(&self.core, from, to, made);
        match put_extraction(line, seq, self.core.count(), &head, &mut self.journal, sink) {
            Ok(()) => Ok(()),
            Err(_) => Err(DeskFail::SinkFault),
        }
    }

    fn front(&mut self) -> u32 {
        self.count()
    }
}
