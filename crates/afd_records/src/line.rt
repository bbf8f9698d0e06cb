ghost use Rattle.std.specs.Prelude.{◌≡◌, ◌≤◌, length};

use rep_fields::Row;
use std::marker::Model;

/// The bytes of an employer's line, the longest of a record.
pub const EMPLOYER_LEN: usize = 331;

/// The bytes of an adjustment's line.
pub const ADJUST_LEN: usize = 73;

/// The bytes of a worker's line.
pub const WORKER_LEN: usize = 118;

/// The bytes of an event's line.
pub const EVENT_LEN: usize = 36;

/// The bytes of a clocking's line.
pub const CLOCKING_LEN: usize = 137;

/// The digits of a checksum.
pub const CHECKSUM_LEN: usize = 4;

/// The digits of a hash.
pub const HASH_LEN: usize = 64;

/// The line of a record, or what stands in it before the hash or checksum, of at most 331 bytes, without the line's
/// end. It takes no memory.
#[derive(Drop)]
pub struct AfdLine {
    pub(crate) row: Row<EMPLOYER_LEN>,
}

impl Model for AfdLine {
    ghost use Rattle.std.specs.Prelude.{ℕ, List};

    ghost Value = { List ℕ };

    ghost view = { λ line. line.row };
}

impl AfdLine {
    /// The bytes of the line.
    pub fn bytes(&self) -> &[u8]
        ensures value { result.now ≡ self.now }
        ensures within { length result.now ≤ EMPLOYER_LEN }
    {
        self.row.bytes()
    }
}

// A full row as an array.
pub(crate) fn filled<const N: usize>(row: &Row<N>) -> [u8; N]
    requires { length row.now ≡ N }
    ensures { result ≡ row.now }
{
    let mut line = [0; N];
    let cells = &mut line[..];
    cells.copy_from_slice(row.bytes());
    line
}
