ghost use Rattle.std.specs.Prelude.{◌≡◌, ◌+◌, ◌≤◌, ◌<◌, ◌==◌, ◌++◌, [], ◌∷◌, ◌||◌, if◌then◌else◌, is_err, length, take, drop, vec_len, vec_capacity};
ghost use Rattle.rep_disk.specs.Record.{over};
ghost use Rattle.rep_disk.specs.Memory.{counted, is_in};
ghost use Rattle.rep_disk.specs.Changes.{MakesSure};

use crate::change::Change;
use crate::standing::put_unless;
use rep_io::Failed;

fn is_in(number: u64, list: &[u64]) -> bool
    ensures { result ≡ is_in number list.now }
{
    list.contains(&number)
}

/// Whether a call fails, by its number among all calls.
pub(crate) fn fails_by(blown: bool, number: u64, listed: &[u64]) -> bool
    ensures { result ≡ (blown || is_in number listed.now) }
{
    blown || is_in(number, listed)
}

/// Whether a call fails, by its number among all calls and by that among its kind.
pub(crate) fn fails_by_either(
    blown: bool,
    number: u64,
    listed: &[u64],
    number_of_kind: u64,
    listed_of_kind: &[u64],
) -> bool
    ensures { result ≡ (blown || (is_in number listed.now || is_in number_of_kind listed_of_kind.now)) }
{
    fails_by(
        fails_by(blown, number, listed),
        number_of_kind,
        listed_of_kind,
    )
}

/// One more, as far as the count goes.
pub(crate) fn counted(count: u64) -> u64
    ensures { result ≡ counted count }
{
    count.saturating_add(1)
}

/// The count of faults after a call.
pub(crate) fn faults_after(faults: u64, fails: bool) -> u64
    ensures { result ≡ (if fails then counted faults else faults) }
{
    if fails { counted(faults) } else { faults }
}

/// The answer of a call with nothing else to answer.
pub(crate) fn answer(fails: bool) -> Result<(), Failed>
    ensures { is_err result ≡ fails }
{
    if fails { Err(Failed) } else { Ok(()) }
}

/// Fills the front of a buffer with the bytes from a place on.
pub(crate) fn fill(bytes: &[u8], at: usize, into: &mut [u8]) -> usize
    ensures bound { result ≤ length into.new }
    ensures read { take result into.new ≡ take (length into.new) (drop at bytes.now) }
{
    let from = &bytes[at.min(bytes.len())..];
    let size = from.len().min(into.len());
    into[..size].copy_from_slice(&from[..size]);
    size
}

/// Notes a change with its piece, for which there is room. A write of nothing needs no note.
pub(crate) fn note(log: &mut Vec<Change>, pieces: &mut Vec<u8>, change: Change, piece: &[u8])
    requires log_room { 0 < length piece.now → vec_len log.old < vec_capacity log.old }
    requires pieces_room { vec_len pieces.old + length piece.now ≤ vec_capacity pieces.old }
    ensures log { log.new.items ≡ (if length piece.now == 0 then log.old.items else log.old.items ++ change ∷ []) }
    ensures pieces { pieces.new.items ≡ pieces.old.items ++ piece.now }
    ensures log_len { vec_len log.new ≤ vec_len log.old + length piece.now }
    ensures pieces_len { vec_len pieces.new ≡ vec_len pieces.old + length piece.now }
    ensures log_capacity { vec_capacity log.old ≤ vec_capacity log.new }
    ensures pieces_capacity { vec_capacity pieces.old ≤ vec_capacity pieces.new }
{
    if piece.is_empty() {
        return;
    }
    log.push_reserved(change);
    if pieces.extend_from_slice(piece).is_err() {
        unreachable!();
    }
}

/// Puts a piece over the bytes from a place on, unless the call fails. There is room for it.
pub(crate) fn overwrite(fails: bool, bytes: &mut Vec<u8>, at: usize, piece: &[u8])
    requires { vec_len bytes.old + length piece.now ≤ vec_capacity bytes.old }
    ensures put { bytes.new.items ≡ (if fails then bytes.old.items else over at piece.now bytes.old.items) }
    ensures capacity { vec_capacity bytes.old ≤ vec_capacity bytes.new }
    ensures longer { vec_len bytes.new ≤ vec_len bytes.old + length piece.now }
{
    if put_unless(fails, bytes, at, piece).is_err() {
        unreachable!();
    }
}

/// Says of the last change, and so of all before it, that a sync made sure of it.
pub(crate) fn make_sure(log: &mut Vec<Change>, moment: u64)
    ensures sure { MakesSure moment log.old.items log.new.items }
    ensures capacity { vec_capacity log.new ≡ vec_capacity log.old }
    ensures len { vec_len log.new ≡ vec_len log.old }
{
    let Some(last) = log.pop() else {
        return;
    };
    log.push_reserved(Change {
        synced: last.synced.or(Some(moment)),
        ..last
    });
}
