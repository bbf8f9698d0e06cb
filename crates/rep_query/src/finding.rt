//! The receipt of a number, out of a store.
ghost use Rattle.std.specs.Prelude.{◌≡◌, ◌≢◌, ◌≤◌, ◌↔◌, [], length, IfOk, IfErr, IfSome, IsTrue, None, Err};
ghost use Rattle.rep_io.specs.Causes.{Rose};
ghost use Rattle.afd_records.specs.Record.{IsClocking, IsNsr};
ghost use Rattle.rep_wire.specs.declared.request.Entry.{Entry as TheEntry};
ghost use Rattle.rep_core.specs.History.{IsEmployer};
ghost use Rattle.rep_core.specs.Valid.{IsFounded};
ghost use Rattle.rep_ledger.specs.Safety.{IsSafe};
ghost use Rattle.rep_store.specs.Filing.{IsFiled};
ghost use Rattle.rep_query.specs.Receipt.{IsClockingOf, IsLastBefore, IsReceiptOf, IsWhyLacking, IsWhyNone, IsWorkerOf, LooksInto, name_in};

use afd_records::Body;
use rep_disk::Disk;
use rep_fields::{Cpf, Text};
use rep_io::Clock;
use rep_receipt::{ReceiptFault, receipt};
use rep_site::Site;
use rep_store::{Filed, SlipFail, Store};
use std::alloc::Global;

/// Why there is no receipt of a number.
#[derive(Clone, Copy, Debug, PartialEq, Eq)]
pub enum NoReceipt {
    /// The number is above those of the history.
    NoSuchNsr,
    /// It is the number of another record.
    NotAClocking,
    /// The disk failed.
    DeviceFault,
    OutOfMemory,
}

impl NoReceipt {
    ghost use Rattle.std.specs.Prelude.{◌≡◌};
    ghost use Rattle.rep_query.specs.Receipt.{none_status};

    /// The status that the program ends with.
    pub fn status(self) -> u8
        ensures { result ≡ none_status self }
    {
        match self {
            NoReceipt::NoSuchNsr | NoReceipt::NotAClocking => 3,
            NoReceipt::DeviceFault => 6,
            NoReceipt::OutOfMemory => 8,
        }
    }
}

/// The receipt of the clocking with a number in the store's history, for the site whose store it is.
pub fn find<D: Disk, C: Clock>(
    alloc: Global,
    store: &mut Store<D, C>,
    site: &Site,
    nsr: u32,
) -> Result<Vec<u8>, NoReceipt>
    requires running { store.old.stopped ≡ None }
    requires site { site.now ≡ store.old.site }
    requires nsr { IsNsr nsr }
    ensures found { IfOk result (λ text. IsReceiptOf store.old.site store.old.history nsr text.items) }
    ensures none { IfErr result (IsWhyNone store.old.history nsr (D.shown store.old.disk).faults (D.shown store.new.disk).faults) }
    ensures looks { LooksInto D.shown store.old store.new }
    ensures no_fault { result ≢ Err NoReceipt.DeviceFault
        → (D.shown store.new.disk).faults ≡ (D.shown store.old.disk).faults }
    ensures safe { IsSafe (D.shown store.old.disk).moment store.old.history store.old.history []
        (D.shown store.old.disk) (D.shown store.new.disk) }
{
    if nsr > store.count() {
        return Err(NoReceipt::NoSuchNsr);
    }
    found_at(alloc, store, site, nsr)
}

// The receipt of a number that the history has.
fn found_at<D: Disk, C: Clock>(
    alloc: Global,
    store: &mut Store<D, C>,
    site: &Site,
    nsr: u32,
) -> Result<Vec<u8>, NoReceipt>
    requires running { store.old.stopped ≡ None }
    requires founded { IsFounded store.old.history }
    requires site { site.now ≡ store.old.site }
    requires nsr { IsNsr nsr }
    requires within { nsr ≤ length store.old.history }
    ensures found { IfOk result (λ text. IsReceiptOf store.old.site store.old.history nsr text.items) }
    ensures none { IfErr result (IsWhyNone store.old.history nsr (D.shown store.old.disk).faults (D.shown store.new.disk).faults) }
    ensures looks { LooksInto D.shown store.old store.new }
    ensures no_fault { result ≢ Err NoReceipt.DeviceFault
        → (D.shown store.new.disk).faults ≡ (D.shown store.old.disk).faults }
{
    let Ok(filed) = filed_at(store, nsr) else {
        return Err(NoReceipt::DeviceFault);
    };
    let Some(hash) = filed.hash else {
        return Err(NoReceipt::NotAClocking);
    };
    let Some(cpf) = worker_of(&filed.entry.body) else {
        return Err(NoReceipt::NotAClocking);
    };
    let employer = match last_employer(store, nsr) {
        Ok(employer) => employer,
        Err(why) => return Err(why),
    };
    let name = match last_name(store, cpf, nsr) {
        Ok(name) => name,
        Err(why) => return Err(why),
    };
    match receipt(
        alloc,
        site,
        &filed.entry,
        nsr,
        &hash,
        &employer,
        name.bytes(),
    ) {
        Ok(text) => Ok(text),
        Err(ReceiptFault::NotAClocking) => Err(NoReceipt::NotAClocking),
        Err(ReceiptFault::OutOfMemory) => Err(NoReceipt::OutOfMemory),
    }
}

// The entry with a number, and the hash of a clocking.
fn filed_at<D: Disk, C: Clock>(store: &mut Store<D, C>, nsr: u32) -> Result<Filed, NoReceipt>
    requires running { store.old.stopped ≡ None }
    requires some { 1 ≤ nsr }
    requires within { nsr ≤ length store.old.history }
    ensures filed { IfOk result (IsFiled store.old.history nsr) }
    ensures fails { IfErr result (λ why. (why ≡ NoReceipt.DeviceFault)
        × Rose (D.shown store.old.disk).faults (D.shown store.new.disk).faults) }
    ensures looks { LooksInto D.shown store.old store.new }
    ensures no_fault { result ≢ Err NoReceipt.DeviceFault
        → (D.shown store.new.disk).faults ≡ (D.shown store.old.disk).faults }
{
    match store.slip(nsr) {
        Ok(filed) => Ok(filed),
        // the store keeps its entries
        Err(SlipFail::NoSuchNsr) => unreachable!(),
        Err(SlipFail::Stopped { .. }) => unreachable!(),
        Err(SlipFail::DeviceFault) => Err(NoReceipt::DeviceFault),
    }
}

// The employer's last record before a number.
fn last_employer<D: Disk, C: Clock>(store: &mut Store<D, C>, nsr: u32) -> Result<Body, NoReceipt>
    requires running { store.old.stopped ≡ None }
    requires some { 1 ≤ nsr }
    requires within { nsr ≤ length store.old.history }
    ensures found { IfOk result (λ body. (e : TheEntry) × IsLastBefore IsEmployer store.old.history nsr e × (body ≡ e.body)) }
    ensures lacks { IfErr result (IsWhyLacking IsEmployer store.old.history nsr
        (D.shown store.old.disk).faults (D.shown store.new.disk).faults) }
    ensures looks { LooksInto D.shown store.old store.new }
    ensures no_fault { result ≢ Err NoReceipt.DeviceFault
        → (D.shown store.new.disk).faults ≡ (D.shown store.old.disk).faults }
{
    for number in (1..nsr).rev() {
        let Ok(filed) = filed_at(store, number) else {
            return Err(NoReceipt::DeviceFault);
        };
        if is_employer(&filed.entry.body) {
            return Ok(filed.entry.body);
        }
    }
    Err(NoReceipt::NoSuchNsr)
}

// The name in the worker's last record before a number.
fn last_name<D: Disk, C: Clock>(
    store: &mut Store<D, C>,
    cpf: Cpf,
    nsr: u32,
) -> Result<Text<52>, NoReceipt>
    requires running { store.old.stopped ≡ None }
    requires some { 1 ≤ nsr }
    requires within { nsr ≤ length store.old.history }
    ensures found { IfOk result (λ name. (e : TheEntry) × IsLastBefore (IsWorkerOf cpf) store.old.history nsr e × (name ≡ name_in e.body)) }
    ensures lacks { IfErr result (IsWhyLacking (IsWorkerOf cpf) store.old.history nsr
        (D.shown store.old.disk).faults (D.shown store.new.disk).faults) }
    ensures looks { LooksInto D.shown store.old store.new }
    ensures no_fault { result ≢ Err NoReceipt.DeviceFault
        → (D.shown store.new.disk).faults ≡ (D.shown store.old.disk).faults }
{
    for number in (1..nsr).rev() {
        let Ok(filed) = filed_at(store, number) else {
            return Err(NoReceipt::DeviceFault);
        };
        if let Some(name) = name_of(&filed.entry.body, cpf) {
            return Ok(name);
        }
    }
    Err(NoReceipt::NoSuchNsr)
}

// Whether the record is an employer's.
fn is_employer(body: &Body) -> bool
    ensures { IsTrue result ↔ IsEmployer body.now }
{
    match body {
        Body::Employer { .. } => true,
        Body::Adjust { .. } | Body::Worker { .. } | Body::Event { .. } | Body::Clocking { .. } =>
            false,
    }
}

// Whose clocking the record is. `None` exactly where it is none.
fn worker_of(body: &Body) -> Option<Cpf>
    ensures found { IfSome result (λ cpf. IsClockingOf cpf body.now) }
    ensures other { result ≡ None → IsClocking body.now → ⊥ }
{
    match body {
        Body::Clocking { cpf, .. } => Some(*cpf),
        Body::Employer { .. } | Body::Adjust { .. } | Body::Worker { .. } | Body::Event { .. } =>
            None,
    }
}

// The name in a registration record of the worker. `None` exactly where the record is another.
fn name_of(body: &Body, worker: Cpf) -> Option<Text<52>>
    ensures found { IfSome result (λ name. IsWorkerOf worker body.now × (name ≡ name_in body.now)) }
    ensures other { result ≡ None → IsWorkerOf worker body.now → ⊥ }
{
    match body {
        Body::Worker { cpf, name, .. } => { if *cpf == worker { Some(*name) } else { None } }
        Body::Employer { .. } | Body::Adjust { .. } | Body::Event { .. } | Body::Clocking { .. } =>
            None,
    }
}
