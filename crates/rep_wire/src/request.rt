use afd_records::{Body, Op};
use rep_fields::{Cpf, Day, EmployerId, Stamp, Text};

/// What a collector or an operator asks the recorder to record.
#[derive(Clone, Copy, Debug)]
pub enum Ask {
    /// A clocking of a worker. `at` is the marked stamp of one that was kept offline, and `None` for one that is
    /// marked when it is recorded.
    Mark {
        cpf: Cpf,
        collector: u8,
        at: Option<Stamp>,
    },
    /// The employer's identification.
    Employer {
        resp: Cpf,
        id: EmployerId,
        cno: u64,
        name: Text<150>,
        place: Text<100>,
    },
    /// A worker's registration, its change or its end.
    Worker {
        op: Op,
        cpf: Cpf,
        name: Text<52>,
        extra: Text<4>,
        resp: Cpf,
    },
    /// The recorder's clock was set from `before` to the stamp at which this is recorded.
    Adjust {
        before: Stamp,
        resp: Cpf,
    },
    /// The service became available (7) or unavailable (8).
    Event {
        code: u8,
    },
}

/// A request: what is asked, and the pair of origin and sequence number by which it is known again when it is sent
/// again.
#[derive(Clone, Copy, Debug)]
pub struct Request {
    pub origin: u16,
    pub seq: u64,
    pub ask: Ask,
}

/// What a line of a lane file orders.
#[derive(Clone, Copy, Debug)]
pub enum Order {
    Asked(Request),
    /// The AFD of the recording days from `from` to `to`.
    Extract { seq: u64, from: Day, to: Day },
}

/// A record of the history with the request that it came by.
#[derive(Clone, Copy, Debug)]
pub struct Entry {
    pub origin: u16,
    pub seq: u64,
    pub body: Body,
}
