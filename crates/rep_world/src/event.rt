use rep_disk::Image;
use rep_fields::Day;
use rep_wire::{Reply, Request};

/// What happens to a world. Messages are numbered from 1, minutes are those since 1970-01-01T00:00 UTC in a clock's range,
/// and `call` is 1 to 4: the device calls of a put are the frame's write, its sync, its gate's write, and its sync.
#[derive(Clone, Copy)]
pub enum Event {
    /// A request is sent, and stays under way.
    Send {
        request: Request,
    },
    /// The message `k` arrives at a minute; its reply may be lost.
    Deliver {
        k: u32,
        minute: u32,
        lost: bool,
    },
    /// The message arrives, and the device call with this number of its put fails with nothing changed. The recorder is
    /// down then. One that isn't to be recorded is served as it is delivered.
    Fail {
        k: u32,
        minute: u32,
        call: u8,
    },
    /// The message arrives, and a crash comes within the device call with this number of its put. One that isn't to be
    /// recorded is served as it is delivered.
    Crash {
        k: u32,
        minute: u32,
        call: u8,
        image: Image,
    },
    /// A crash comes between calls.
    Rest {
        image: Image,
    },
    /// The recorder is opened again.
    Reopen,
    /// The AFD of a period is extracted at a minute; the last day isn't before the first.
    Extract {
        from: Day,
        to: Day,
        minute: u32,
    },
}

/// What is seen of an event.
#[derive(Clone, Copy)]
pub enum Seen {
    /// The message's number.
    Sent { k: u32 },
    /// The reply, with the request's sequence number.
    Answered { seq: u64, reply: Reply },
    /// The reply was lost on its way.
    ReplyLost,
    /// A device call failed: how many entries the contents have.
    Failed { n: u32 },
    /// A crash within a device call: how many entries its image has.
    Crashed { n: u32 },
    /// A crash at rest: how many entries its image has.
    AtRest { n: u32 },
    /// How many entries the recorder found.
    Opened { n: u32 },
    /// How many bytes the AFD of the period has.
    Extracted { bytes: u64 },
    /// The event asks for a recorder that is up where it is down, or the other way round.
    Idle,
}

/// Why an event isn't played.
#[derive(Clone, Copy, Debug, PartialEq, Eq)]
pub enum WorldStop {
    /// The message that it names wasn't sent.
    NotSent,
    OutOfMemory,
}
