//! Laws of the definitions. Each function does nothing; what it ensures is the law.
ghost use Rattle.std.specs.Prelude.{◌≡◌, ◌<◌, ◌≤◌, ℕ, List, IfOk};
ghost use Rattle.rep_disk.specs.Disk.{last_moment};
ghost use Rattle.rep_disk.specs.Memory.{memory_shown, state_at};
ghost use Rattle.rep_disk.specs.Record.{image_of};
ghost use Rattle.rep_wire.specs.declared.request.Entry.{Entry};
ghost use Rattle.rep_ledger.specs.Safety.{IsSafe, Receipted};
ghost use Rattle.rep_site.specs.declared.site.Site.{Site};
ghost use Rattle.rep_store.specs.Extracting.{IsAfdOf};
ghost use Rattle.rep_store.specs.State.{KeepsAFront};

use rep_disk::{Image, MemDisk};
use rep_io::OutOfMemory;
use std::alloc::Global;

/// The AFD of a period is one text: a site, a history, the period and the reading of the clock leave no choice.
pub fn an_afd_is_one_text()
    ensures { (site : Site) (h : List Entry) (from to minute : ℕ) (text other : List ℕ)
        → IsAfdOf site h from to minute text → IsAfdOf site h from to minute other → text ≡ other }
{}

/// One of the images that a crash at this moment may leave of a disk in memory. Where the calls between two of its states
/// were safe, it and each other image keeps a history, which goes on from the one kept and is a front of the whole one,
/// from the moment on at which the disk had rested.
///
/// # Errors
///
/// `OutOfMemory` alone.
pub fn image_after_a_crash(
    alloc: Global,
    start: &MemDisk,
    end: &MemDisk,
    moment: u64,
    image: Image,
) -> Result<Vec<u8>, OutOfMemory>
    requires { moment ≤ end.now.moment }
    ensures named { IfOk result (λ bytes. bytes.items ≡ image_of image (state_at end.now moment)) }
    ensures allowed { IfOk result (λ bytes. (memory_shown end.now).may_leave moment bytes.items) }
    ensures keeps { IfOk result (λ bytes. (rested : ℕ) (kept whole : List Entry) (receipts : List Receipted)
        → IsSafe rested kept whole receipts (memory_shown start.now) (memory_shown end.now) → end.now.moment < last_moment
        → rested ≤ moment → KeepsAFront kept whole bytes.items) }
    ensures all_keep { (rested : ℕ) (kept whole : List Entry) (receipts : List Receipted)
        → IsSafe rested kept whole receipts (memory_shown start.now) (memory_shown end.now) → end.now.moment < last_moment
        → (m : ℕ) (bytes : List ℕ) → rested ≤ m → m ≤ end.now.moment → (memory_shown end.now).may_leave m bytes
        → KeepsAFront kept whole bytes }
{
    // What is safe is said of the first state too.
    let _start = start;
    end.image(alloc, moment, image)
}
