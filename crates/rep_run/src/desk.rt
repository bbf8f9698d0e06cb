//! A store as the desk of a lane.
ghost use Rattle.std.specs.Prelude.{◌≡◌};
ghost use Rattle.rep_run.specs.Steps.{extract_fail, fail_of};

use rep_disk::Disk;
use rep_fields::Day;
use rep_io::{Clock, Sink};
use rep_lane::{Desk, DeskFail};
use rep_store::{ExtractFail, Lead, Stop, Store};
use rep_wire::{Reply, Request};
use std::marker::Model;

/// A store that serves the requests of a lane, and its extractions.
#[derive(Drop)]
pub struct StoreDesk<D: Disk, C: Clock> {
    pub store: Store<D, C>,
}

impl<D: Disk, C: Clock> Model for StoreDesk<D, C> {
    ghost use Rattle.rep_store.specs.State.{State};

    ghost Value = { State D C };

    ghost view = { λ d. d.store };
}

impl<D: Disk, C: Clock> Desk for StoreDesk<D, C> {
    ghost use Rattle.rep_run.specs.Desk.{Asks, Files, Shows};

    ghost asks = { Asks D.shown C.readings C.faults };

    ghost extracts = { Files D.shown C.readings C.faults };

    ghost shows = { Shows };

    fn call(&mut self, q: &Request) -> Result<Reply, DeskFail> {
        match self.store.submit(q) {
            Ok(reply) => Ok(reply),
            Err(stop) => Err(fail_of(stop)),
        }
    }

    fn extract<K: Sink>(
        &mut self,
        line: u64,
        seq: u64,
        from: Day,
        to: Day,
        sink: &mut K,
    ) -> Result<(), DeskFail> {
        match self.store.extract(Some(Lead { line, seq }), from, to, sink) {
            Ok(_) => Ok(()),
            Err(fail) => Err(extract_fail(fail)),
        }
    }

    fn front(&mut self) -> u32 {
        self.store.count()
    }
}

// Why a store didn't answer.
fn fail_of(stop: Stop) -> DeskFail
    ensures { result ≡ fail_of stop }
{
    match stop {
        Stop::Stopped { .. } => DeskFail::Stopped,
        Stop::DeviceFault => DeskFail::DeviceFault,
        Stop::ClockFault => DeskFail::ClockFault,
        Stop::OutOfMemory => DeskFail::OutOfMemory,
    }
}

// Why a store didn't write the whole of an extraction.
fn extract_fail(fail: ExtractFail) -> DeskFail
    ensures { result ≡ extract_fail fail }
{
    match fail {
        ExtractFail::Stopped { .. } => DeskFail::Stopped,
        ExtractFail::DeviceFault => DeskFail::DeviceFault,
        ExtractFail::ClockFault => DeskFail::ClockFault,
        ExtractFail::SinkFault => DeskFail::SinkFault,
    }
}
