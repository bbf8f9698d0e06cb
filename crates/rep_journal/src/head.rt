//! The first bytes of contents: magic and first gate.
ghost use Rattle.std.specs.Prelude.{◌≡◌, ◌↔◌, ◌≤◌, length, take, IfOk, IfSome, IsTrue};
ghost use Rattle.rep_io.specs.Causes.{HasCause};
ghost use Rattle.rep_journal.specs.State.{IsRead};
ghost use Rattle.rep_journal.specs.Format.{magic};
ghost use Rattle.rep_journal.specs.Head.{IsHead};

use crate::format::{MAGIC, OPEN_GATE};
use rep_disk::Disk;
use rep_io::Failed;

/// How contents begin.
#[derive(Clone, Copy, PartialEq, Eq)]
pub(crate) enum Head {
    /// There are at most 17 bytes.
    Short,
    /// There are more, without the magic.
    Foreign,
    /// There are more, with the magic and a closed gate.
    Closed,
    /// There are more, with the magic and an open gate.
    Open,
}

fn has_magic(front: &[u8]) -> bool
    requires { 16 ≤ length front.now }
    ensures { IsTrue result ↔ (take 16 front.now ≡ magic) }
{
    front[..16] == MAGIC[..]
}

/// How contents begin, of which these are the first 18 bytes, or all.
fn judge(front: &[u8]) -> Head
    requires { length front.now ≤ 18 }
    ensures { IsHead front.now result }
{
    if front.len() < 18 {
        return Head::Short;
    }
    if !has_magic(front) {
        return Head::Foreign;
    }
    if front[16] == OPEN_GATE {
        Head::Open
    } else {
        Head::Closed
    }
}

/// How the contents begin.
///
/// # Errors
///
/// `Failed` only where the disk failed in this call.
pub(crate) fn read_head<D: Disk>(disk: &mut D) -> Result<Head, Failed>
    ensures head { IfOk result (λ head. IfSome (D.shown disk.old).contents (λ bytes. IsHead bytes head)) }
    ensures kept { IsRead (D.shown disk.old) (D.shown disk.new) }
    ensures cause { HasCause (D.shown disk.old).faults (D.shown disk.new).faults result }
{
    let mut front = [0; 18];
    let count = disk.read_at(0, &mut front)?;
    Ok(judge(&front[..count]))
}
