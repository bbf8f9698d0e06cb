ghost use Rattle.std.specs.Prelude.{◌≡◌, ◌↔◌, ◌+◌, ◌≤◌, OnOk, length};
ghost use Rattle.rep_io.specs.Causes.{HasCause};
ghost use Rattle.rep_disk.specs.Disk.{Shown, Advances, CutOpen, Cuts, IsAtRest, IsOwnImage, IsUntouched, IsWithin, Measures, Moves, Opens, OpensUntil, Reads, Renames, RenamesSurely, Same, Stays, Torn, Writes, as_named, cut_by_name, end_of_disk, written_by_name};

use rep_io::{Failed, OutOfMemory};

/// A disk with one file: five device calls, each of which may fail, and `reserve`.
///
/// Its contents are bytes that a read gives. A disk in memory tells them, and a real one doesn't; it tells them after
/// a call exactly where it told them before. Each device call adds two moments, one within it and one after it, and at
/// each moment a crash may leave one of several images (`specs/Disk.antt`), of which it may name three. What is said of
/// moments and images holds below the last value of a moment, 2^64 - 1.
pub trait Disk {
    /// The contents, the spare room, the moment, what a crash may leave, three images by name, and the count of faults.
    ghost shown: { Self → Shown };

    /// Makes room to write so many bytes without taking memory. It is no device call.
    ///
    /// # Errors
    ///
    /// `OutOfMemory`; then there is no less room than before.
    fn reserve(&mut self, bytes: u32) -> Result<(), OutOfMemory>
        ensures made { OnOk result (bytes ≤ (shown self.new).spare) }
        ensures spare { (shown self.old).spare ≤ (shown self.new).spare }
        ensures untouched { IsUntouched (shown self.old) (shown self.new) };

    /// The length of the contents, in bytes.
    ///
    /// # Errors
    ///
    /// `Failed` exactly where the count of faults rose in this call.
    fn length(&mut self) -> Result<u64, Failed>
        ensures length { Measures (shown self.old).contents result }
        ensures contents { (shown self.new).contents ≡ (shown self.old).contents }
        ensures spare { (shown self.old).spare ≤ (shown self.new).spare }
        ensures time { Advances (shown self.old).moment (shown self.new).moment }
        ensures crash { Stays (shown self.old) (shown self.new) }
        ensures names { Renames as_named (shown self.old) (shown self.new) }
        ensures own { IsOwnImage (shown self.old) ↔ IsOwnImage (shown self.new) }
        ensures cause { HasCause (shown self.old).faults (shown self.new).faults result };

    /// Fills the front of `into` with the contents from `at` on, and answers how many bytes: all of `into`, or fewer
    /// exactly where the contents end before.
    ///
    /// # Errors
    ///
    /// `Failed` exactly where the count of faults rose in this call.
    fn read_at(&mut self, at: u64, into: &mut [u8]) -> Result<usize, Failed>
        ensures bytes { Reads at (shown self.old).contents result into.new }
        ensures contents { (shown self.new).contents ≡ (shown self.old).contents }
        ensures spare { (shown self.old).spare ≤ (shown self.new).spare }
        ensures time { Advances (shown self.old).moment (shown self.new).moment }
        ensures crash { Stays (shown self.old) (shown self.new) }
        ensures names { Renames as_named (shown self.old) (shown self.new) }
        ensures own { IsOwnImage (shown self.old) ↔ IsOwnImage (shown self.new) }
        ensures cause { HasCause (shown self.old).faults (shown self.new).faults result };

    /// Writes a piece over the contents from `at` on, and past their end. It takes no memory. Until a sync that
    /// succeeds, a crash may leave any bytes in that range, and any part of the growth.
    ///
    /// # Errors
    ///
    /// `Failed` exactly where the count of faults rose in this call. Then the bytes of the range and the growth of the
    /// length are open.
    fn write_at(&mut self, at: u64, piece: &[u8]) -> Result<(), Failed>
        requires within { IsWithin at (shown self.old).contents }
        requires end { at + length piece.now ≤ end_of_disk }
        requires room { length piece.now ≤ (shown self.old).spare }
        ensures contents { Writes at piece.now (shown self.old).contents (shown self.new).contents result }
        ensures spare { (shown self.old).spare ≤ (shown self.new).spare + length piece.now }
        ensures time { Advances (shown self.old).moment (shown self.new).moment }
        ensures crash { Moves (Torn at (length piece.now)) (shown self.old) (shown self.new) }
        ensures opens { Opens (Torn at (length piece.now)) (shown self.old) (shown self.new) }
        ensures names { Renames (written_by_name at piece.now) (shown self.old) (shown self.new) }
        ensures own { IsOwnImage (shown self.old) ↔ IsOwnImage (shown self.new) }
        ensures cause { HasCause (shown self.old).faults (shown self.new).faults result };

    /// Shortens the contents to a length. It takes no memory. Until a sync that succeeds, a crash may leave any
    /// length from that one on, with any bytes past it.
    ///
    /// # Errors
    ///
    /// `Failed` exactly where the count of faults rose in this call. Then the new length is open between the two.
    fn cut(&mut self, length: u64) -> Result<(), Failed>
        requires within { IsWithin length (shown self.old).contents }
        requires room { 1 ≤ (shown self.old).spare }
        ensures contents { Cuts length (shown self.old).contents (shown self.new).contents result }
        ensures spare { (shown self.old).spare ≤ (shown self.new).spare + 1 }
        ensures time { Advances (shown self.old).moment (shown self.new).moment }
        ensures crash { Moves (CutOpen length) (shown self.old) (shown self.new) }
        ensures opens { Opens (CutOpen length) (shown self.old) (shown self.new) }
        ensures names { Renames (cut_by_name length) (shown self.old) (shown self.new) }
        ensures own { IsOwnImage (shown self.old) ↔ IsOwnImage (shown self.new) }
        ensures cause { HasCause (shown self.old).faults (shown self.new).faults result };

    /// Makes sure of what was written and cut: after it a crash leaves the contents, and nothing else. Until then each
    /// image stays one.
    ///
    /// # Errors
    ///
    /// `Failed` exactly where the count of faults rose in this call. Then what was pending stays so.
    fn sync(&mut self) -> Result<(), Failed>
        ensures rest { OnOk result (IsAtRest (shown self.new)) }
        ensures contents { (shown self.new).contents ≡ (shown self.old).contents }
        ensures spare { (shown self.old).spare ≤ (shown self.new).spare }
        ensures time { Advances (shown self.old).moment (shown self.new).moment }
        ensures crash { Moves Same (shown self.old) (shown self.new) }
        ensures opens { OpensUntil (shown self.old) (shown self.new) result }
        ensures names { RenamesSurely (shown self.old) (shown self.new) result }
        ensures own { IsOwnImage (shown self.old) ↔ IsOwnImage (shown self.new) }
        ensures cause { HasCause (shown self.old).faults (shown self.new).faults result };
}
