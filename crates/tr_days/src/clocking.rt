use rep_fields::{Cpf, Stamp};

/// A clocking that a treatment takes from an AFD (type 7 of Portaria MTP 671/2021, annex V).
#[derive(Clone, Copy, Debug)]
pub struct Clocking {
    /// The worker.
    pub cpf: Cpf,
    /// The clocking's number in the AFD (NSR), 1 to 999,999,999.
    pub nsr: u32,
    /// When the clocking is.
    pub at: Stamp,
}
