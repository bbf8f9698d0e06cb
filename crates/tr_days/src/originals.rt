//! The originals of an AFD.
ghost use Rattle.std.specs.Prelude.{◌≡◌, List, filter, IfOk, IfSome, IfNone, IsPermutation};
ghost use Rattle.tr_days.specs.Index.{is_of, clocking_of, AddsRead, AreByWorker, ArePutByWorker};
ghost use Rattle.tr_days.specs.Originals.{AreOriginals, ReadsAs};
ghost use Rattle.tr_days.specs.declared.clocking.Clocking.{Clocking as TheClocking};

use crate::clocking::Clocking;
use afd_read::Afd;
use afd_records::{Body, read_loose, read_trailer};
use rep_fields::Cpf;
use rep_io::OutOfMemory;
use std::alloc::Global;
use std::marker::Model;

/// An AFD, seen as its text, of which the originals are found by worker.
#[derive(Drop)]
pub struct Originals<'a> {
    afd: &'a Afd,
    // by CPF, and those of one CPF in the order of their lines
    clockings: Vec<Clocking>,
}

impl<'a> Model for Originals<'a> {
    ghost use Rattle.std.specs.Prelude.{ℕ, List};
    ghost use Rattle.tr_days.specs.Index.{IsIndexOf};

    ghost Value = { List ℕ };

    ghost view = { λ originals. originals.afd.now };

    ghost invariant = { λ originals. IsIndexOf originals.afd.now originals.clockings.items };
}

impl<'a> Originals<'a> {
    /// The originals of the AFD.
    ///
    /// # Errors
    ///
    /// `OutOfMemory` alone.
    pub fn of(alloc: Global, afd: &'a Afd) -> Result<Originals<'a>, OutOfMemory>
        ensures { IfOk result (λ originals. originals ≡ afd.now) }
    {
        let mut clockings = clockings_of(alloc, afd)?;
        sort_by_worker(&mut clockings)?;
        Ok(Originals { afd, clockings })
    }

    /// Each original once, in no order that is promised.
    pub fn clockings(&self) -> &[Clocking]
        ensures { (clockings : List TheClocking) × AreOriginals self.now clockings
            × IsPermutation clockings result.now }
    {
        &self.clockings
    }

    /// The worker's originals, in the order of their lines.
    pub fn of_worker(&self, cpf: Cpf) -> &[Clocking]
        ensures { (clockings : List TheClocking) × AreOriginals self.now clockings
            × (result.now ≡ filter (is_of cpf) clockings) }
    {
        worker_part(&self.clockings, cpf)
    }
}

// The originals in the order of their lines.
fn clockings_of(alloc: Global, afd: &Afd) -> Result<Vec<Clocking>, OutOfMemory>
    ensures { IfOk result (λ clockings. AreOriginals afd.now clockings.items) }
{
    let mut clockings = Vec::new(alloc);
    for number in 1..afd.count() + 1 {
        let line = afd.line(number);
        if read_trailer(line).is_some() {
            return Ok(clockings);
        }
        push_read(&mut clockings, line)?;
    }
    Ok(clockings)
}

// Puts the clocking that the line reads as, if there is one, behind the others.
fn push_read(clockings: &mut Vec<Clocking>, line: &[u8]) -> Result<(), OutOfMemory>
    ensures { IfOk result (λ _. AddsRead line.now clockings.old.items clockings.new.items) }
{
    match clocking_in(line) {
        Some(clocking) => {
            clockings.push(clocking)?;
            Ok(())
        }
        None => Ok(()),
    }
}

// The clocking that the line reads as.
fn clocking_in(line: &[u8]) -> Option<Clocking>
    ensures found { IfSome result (ReadsAs line.now) }
    ensures none { IfNone result ((clocking : TheClocking) → ReadsAs line.now clocking → ⊥) }
{
    let Ok(found) = read_loose(line) else {
        return None;
    };
    clocking_of(found.nsr, &found.body)
}

// The clocking that a record is, of type 7 alone.
fn clocking_of(nsr: u32, body: &Body) -> Option<Clocking>
    ensures { result ≡ clocking_of nsr body.now }
{
    match body {
        Body::Clocking { marked, cpf, .. } => Some(Clocking {
            cpf: *cpf,
            nsr,
            at: *marked,
        }),
        Body::Employer { .. } | Body::Adjust { .. } | Body::Worker { .. } | Body::Event { .. } =>
            None,
    }
}

// Puts them by worker, and leaves those of one worker in their order.
fn sort_by_worker(clockings: &mut Vec<Clocking>) -> Result<(), OutOfMemory>
    ensures { IfOk result (λ _. ArePutByWorker clockings.old.items clockings.new.items) }
{
    clockings.sort_by_key(|clocking| clocking.cpf.number)?;
    Ok(())
}

// Those of one worker, out of clockings by worker.
fn worker_part(clockings: &[Clocking], cpf: Cpf) -> &[Clocking]
    requires { AreByWorker clockings.now }
    ensures { result.now ≡ filter (is_of cpf) clockings.now }
{
    let start = clockings.partition_point(|clocking| clocking.cpf.number < cpf.number);
    let rest = &clockings[start..];
    let end = rest.partition_point(|clocking| clocking.cpf.number <= cpf.number);
    &rest[..end]
}
