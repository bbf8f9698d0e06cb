//! What the recorder of a world does: it is made, opened and asked, on the world's disk or on a copy of it.
ghost use Rattle.std.specs.Prelude.{◌≡◌, ◌≤◌, List, IfOk, OnErr, None, Some, MatchOption};
ghost use Rattle.rep_wire.specs.Request.{IsRequest};
ghost use Rattle.rep_wire.specs.declared.request.Entry.{Entry};
ghost use Rattle.rep_ledger.specs.Ledger.{IsLedgerOf};
ghost use Rattle.rep_site.specs.Site.{IsSite};
ghost use Rattle.rep_store.specs.Steps.{IsKeptAsWas};
ghost use Rattle.sure_disk.specs.Sure.{sure_shown};
ghost use Rattle.rep_world.specs.Fields.{Runs, RunsForSome, RunsWhileUp, disk_of};
ghost use Rattle.rep_world.specs.Trial.{AllowsNamed, AnswersBy, CountsEach, CrashesOn, ExtractsFrom, FailsOrSettles, IsLeftAlone, IsMade, IsOpened, ServedAt, SettledOn};

use crate::dial::Dial;
use crate::recorder::{Left, Recorder};
use rep_disk::{Fails, Image, MemDisk};
use rep_fields::Day;
use rep_io::OutOfMemory;
use rep_journal::Journal;
use rep_site::Site;
use rep_store::{Stop, Store};
use rep_wire::{Reply, Request};
use std::alloc::Global;
use sure_disk::{SureDisk, no_fails};

/// The minute at which a world's journal is made: 2024-03-04T07:00 at the offset -0300.
pub(crate) const FIRST_MINUTE: u32 = 28_492_440;

// Up to this moment there are enough left for an event.
const LAST_EARLY: u64 = 1 << 62;

/// The recorder of a site, whose journal was just made.
pub(crate) fn make(alloc: Global, site: &Site) -> Result<Store<SureDisk, Dial>, OutOfMemory>
    requires { IsSite site.now }
    ensures { IfOk result (IsMade site.now) }
{
    let disk = SureDisk::new(alloc, Vec::new(alloc));
    match Store::create(alloc, site, disk, Dial::at(FIRST_MINUTE)) {
        Ok(store) => Ok(store),
        Err(_) => Err(OutOfMemory),
    }
}

/// The recorder of a site, opened on a disk with these bytes.
pub(crate) fn open(
    alloc: Global,
    site: &Site,
    bytes: &[u8],
    minute: u32,
) -> Result<Store<SureDisk, Dial>, OutOfMemory>
    requires { IsSite site.now }
    ensures opened { IfOk result (IsOpened site.now bytes.now) }
    ensures clock { IfOk result (λ store. store.clock ≡ record { minute = minute; looks = 0; faults = 0 }) }
{
    let disk = SureDisk::new(alloc, bytes.to_vec(alloc)?);
    match Store::reopen(alloc, site, disk, Dial::at(minute)) {
        Ok(store) => Ok(store),
        Err(_) => Err(OutOfMemory),
    }
}

/// How many entries the history has that these bytes keep: one for each frame of their journal, so that no line has to be
/// read again.
pub(crate) fn count(alloc: Global, bytes: &[u8]) -> Result<u32, OutOfMemory>
    ensures { IfOk result (CountsEach bytes.now) }
{
    let disk = SureDisk::new(alloc, bytes.to_vec(alloc)?);
    match Journal::reopen(alloc, disk) {
        Ok(journal) => Ok(journal.count()),
        Err(_) => Err(OutOfMemory),
    }
}

/// How many entries the history has that a recorder keeps.
pub(crate) fn entries_of(alloc: Global, recorder: &Recorder) -> Result<u32, OutOfMemory>
    requires { RunsForSome recorder.now }
    ensures { IfOk result (CountsEach (disk_of recorder.now).bytes) }
{
    match recorder {
        Recorder::Up(store) => Ok(store.count()),
        Recorder::Down(disk) => count(alloc, disk.bytes()),
    }
}

/// How many bytes the AFD of a period has, where the recorder is up; none where it is down.
pub(crate) fn extracted(recorder: &Recorder, from: Day, to: Day) -> Option<u64>
    ensures { ExtractsFrom recorder.now from to result }
{
    match recorder {
        Recorder::Up(store) => {
            // That there is such a file: its records are those of a range of numbers.
            let _range = store.period(from, to);
            Some(store.size(from, to))
        }
        Recorder::Down(_) => None,
    }
}

/// Serves a request at a minute.
///
/// # Errors
///
/// `OutOfMemory`; then nothing has changed.
pub(crate) fn serve(
    store: &mut Store<SureDisk, Dial>,
    site: &Site,
    q: &Request,
    minute: u32,
) -> Result<Reply, OutOfMemory>
    requires asked { IsRequest q.now }
    requires runs { Runs site.now store.old }
    ensures served { IfOk result (ServedAt site.now minute q.now store.old store.new) }
    ensures left { OnErr result (IsKeptAsWas sure_shown store.old store.new) }
{
    let _ = store.set_clock(Dial::at(minute));
    match store.submit(q) {
        Ok(reply) => Ok(reply),
        Err(_) => Err(OutOfMemory),
    }
}

/// Serves a request at a minute where the recorder is up; none where it is down.
///
/// # Errors
///
/// `OutOfMemory`; then nothing has changed.
pub(crate) fn answer(
    recorder: &mut Recorder,
    site: &Site,
    q: &Request,
    minute: u32,
) -> Result<Option<Reply>, OutOfMemory>
    requires asked { IsRequest q.now }
    requires runs { RunsWhileUp site.now recorder.old }
    ensures answers { IfOk result (AnswersBy site.now minute q.now recorder.old recorder.new) }
    ensures left { OnErr result (IsLeftAlone recorder.old recorder.new) }
{
    match recorder {
        Recorder::Up(store) => match serve(store, site, q, minute) {
            Ok(reply) => Ok(Some(reply)),
            Err(full) => Err(full),
        },
        Recorder::Down(_) => Ok(None),
    }
}

// The numbers of the calls after a reopening of which the device call with this number of a put fails. A reopening makes
// one sync, and writes nothing.
fn fails_at(alloc: Global, call: u8) -> Result<Fails, OutOfMemory> {
    let mut fails = no_fails(alloc);
    match call {
        1 => fails.writes.push(0)?,
        2 => fails.syncs.push(1)?,
        3 => fails.writes.push(1)?,
        _ => fails.syncs.push(2)?,
    }
    Ok(fails)
}

// Makes each image of now that has a name, by which it is known that a crash may leave it.
fn name_images(alloc: Global, disk: &MemDisk) -> Result<(), OutOfMemory>
    ensures { IfOk result (λ _. AllowsNamed disk.now) }
{
    let moment = disk.moment();
    let _old = disk.image(alloc, moment, Image::Old)?;
    let _new = disk.image(alloc, moment, Image::New)?;
    let _odd = disk.image(alloc, moment, Image::Odd)?;
    Ok(())
}

/// What is left where the device call with this number of a request's put fails, on a disk with these bytes; none
/// where the request isn't to be recorded.
pub(crate) fn fail(
    alloc: Global,
    site: &Site,
    bytes: &[u8],
    q: &Request,
    minute: u32,
    call: u8,
) -> Result<Option<Left>, OutOfMemory>
    requires site { IsSite site.now }
    requires asked { IsRequest q.now }
    requires call { call ≤ 4 }
    ensures { IfOk result (FailsOrSettles site.now minute call q.now bytes.now) }
{
    let disk = MemDisk::new(alloc, bytes.to_vec(alloc)?, fails_at(alloc, call)?);
    let Ok(store) = Store::reopen(alloc, site, disk, Dial::at(minute)) else {
        return Err(OutOfMemory);
    };
    let mut store = store;
    let before = store.count();
    let begun = store.disk().moment();
    if begun > LAST_EARLY {
        return Err(OutOfMemory);
    }
    match store.submit(q) {
        Ok(_) if store.reading().is_none() => return Ok(None),
        Err(Stop::DeviceFault) if store.disk().moment() == begun + 2 * u64::from(call) => {}
        Ok(_) | Err(_) => return Err(OutOfMemory),
    }
    let (disk, _) = store.into_parts();
    name_images(alloc, &disk)?;
    let entries = count(alloc, disk.bytes())?;
    // A write that fails isn't made, which the store can't know of every disk.
    if call == 3 && entries != before {
        return Err(OutOfMemory);
    }
    Ok(Some(Left { disk, entries }))
}

/// An image that a crash within the device call with this number of a request's put leaves, on a disk with these bytes;
/// none where the request isn't to be recorded.
pub(crate) fn crash(
    alloc: Global,
    site: &Site,
    bytes: &[u8],
    q: &Request,
    minute: u32,
    call: u8,
    image: Image,
) -> Result<Option<Vec<u8>>, OutOfMemory>
    requires site { IsSite site.now }
    requires asked { IsRequest q.now }
    requires some_call { 1 ≤ call }
    requires call { call ≤ 4 }
    ensures { IfOk result (λ left. MatchOption left (SettledOn site.now q.now bytes.now)
        (λ left. CrashesOn site.now minute call image q.now bytes.now left.items)) }
{
    let mut store = open(alloc, site, bytes, minute)?;
    let begun = store.disk().moment();
    if begun > LAST_EARLY {
        return Err(OutOfMemory);
    }
    if store.submit(q).is_err() {
        return Err(OutOfMemory);
    }
    if store.reading().is_none() {
        return Ok(None);
    }
    let left = store
        .disk()
        .image(alloc, begun + (2 * u64::from(call) - 1), image)?;
    Ok(Some(left))
}
