//! The text of a receipt.
ghost use Rattle.std.specs.Prelude.{◌≡◌, ◌≤◌, ◌↔◌, ◌++◌, codes, length, Err, IfOk};
ghost use Rattle.afd_records.specs.Record.{IsClocking, IsNsr};
ghost use Rattle.rep_receipt.specs.Receipt.{IsEmployer, receipt_line, receipt_text};

use crate::rows::{clocking_rows, employer_rows};
use afd_records::Body;
use rep_site::Site;
use rep_wire::Entry;
use std::alloc::{AllocError, Global};

/// Why there is no receipt.
#[derive(Clone, Copy, Debug, PartialEq, Eq)]
pub enum ReceiptFault {
    /// The entry is no clocking.
    NotAClocking,
    /// There wasn't enough memory.
    OutOfMemory,
}

/// The receipt of the clocking with a number and a hash, under the employer that the employer's record names and the
/// worker's name. Its ten lines are, in this order: title, employer's name, its CNPJ (14 digits) or CPF (11), place of work,
/// worker's name, CPF, marked stamp, number in nine digits, recorder's number of 17 characters, hash.
///
/// # Errors
///
/// `NotAClocking` exactly where the entry is none; `OutOfMemory`.
pub fn receipt(
    alloc: Global,
    site: &Site,
    entry: &Entry,
    nsr: u32,
    hash: &[u8; 64],
    employer: &Body,
    worker_name: &[u8],
) -> Result<Vec<u8>, ReceiptFault>
    requires nsr { IsNsr nsr }
    requires employer { IsEmployer employer.now }
    ensures text { IfOk result (λ text. text.items
        ≡ receipt_text employer.now worker_name.now entry.now.body nsr site.now.rep hash.now) }
    ensures not_a_clocking { (result ≡ Err ReceiptFault.NotAClocking) ↔ (¬ IsClocking entry.now.body) }
{
    let Body::Clocking { marked, cpf, .. } = &entry.body else {
        return Err(ReceiptFault::NotAClocking);
    };
    let Body::Employer {
        id,
        name,
        place,
        ..
    } = employer
    else {
        unreachable!();
    };
    let front = employer_rows(id, name, place);
    let behind = clocking_rows(cpf, marked, nsr, &site.rep, hash);
    match joined(alloc, front.bytes(), worker_name, behind.bytes()) {
        Ok(text) => Ok(text),
        Err(_) => Err(ReceiptFault::OutOfMemory),
    }
}

// The worker's line between what stands before and behind it. It takes all its memory first.
fn joined(
    alloc: Global,
    front: &[u8],
    worker_name: &[u8],
    behind: &[u8],
) -> Result<Vec<u8>, AllocError>
    requires front { length front.now ≤ 512 }
    requires behind { length behind.now ≤ 512 }
    ensures { IfOk result (λ text. text.items ≡ front.now ++ receipt_line (codes "TRABALHADOR") worker_name.now ++ behind.now) }
{
    let room = front.len() + b"TRABALHADOR: \n".len() + worker_name.len() + behind.len();
    let mut text = Vec::with_capacity(alloc, room)?;
    text.extend_from_slice(front)?;
    text.extend_from_slice(b"TRABALHADOR: ")?;
    text.extend_from_slice(worker_name)?;
    text.extend_from_slice(b"\n")?;
    text.extend_from_slice(behind)?;
    Ok(text)
}
