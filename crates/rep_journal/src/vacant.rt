use crate::frame_list::FrameList;
use rep_disk::Disk;
use std::marker::Model;

/// A disk with blank contents, and the memory for the journal that `Journal::create` makes on it.
#[derive(Drop)]
pub struct Vacant<D: Disk> {
    pub(crate) disk: D,
    // whether the magic is still to be written
    pub(crate) is_short: bool,
    pub(crate) list: FrameList,
}

impl<D: Disk> Model for Vacant<D> {
    ghost use Rattle.rep_journal.specs.Fields.{IsVacant};

    ghost Value = { D };

    ghost view = { λ v. v.disk };

    ghost invariant = { λ v. IsVacant (D.shown v.disk) v.is_short v.list };
}

impl<D: Disk> Vacant<D> {
    ghost use Rattle.std.specs.Prelude.{◌≡◌, IfSome};
    ghost use Rattle.rep_journal.specs.Format.{IsBlank};

    /// The disk, with its contents as before.
    pub fn into_disk(self) -> D
        ensures disk { result ≡ self }
        ensures blank { IfSome (D.shown result).contents IsBlank }
    {
        self.disk
    }
}
