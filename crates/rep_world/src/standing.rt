//! How a recorder stands, and what is on its disk.
ghost use Rattle.std.specs.Prelude.{◌≡◌, true, false, IfOk, MatchOption};
ghost use Rattle.rep_world.specs.Fields.{IsImageNow, RunsForSome, disk_of, is_up};

use crate::recorder::Recorder;
use rep_disk::Image;
use rep_io::OutOfMemory;
use std::alloc::Global;

/// Whether it is up.
pub(crate) fn is_running(recorder: &Recorder) -> bool
    ensures { result ≡ is_up recorder.now }
{
    match recorder {
        Recorder::Up(_) => true,
        Recorder::Down(_) => false,
    }
}

/// The contents of its disk.
pub(crate) fn bytes_of(recorder: &Recorder) -> &[u8]
    ensures { result.now ≡ (disk_of recorder.now).bytes }
{
    match recorder {
        Recorder::Up(store) => store.disk().bytes(),
        Recorder::Down(disk) => disk.bytes(),
    }
}

/// The contents of its disk, where it is up.
pub(crate) fn bytes_while_up(recorder: &Recorder) -> Option<&[u8]>
    ensures { MatchOption result (is_up recorder.now ≡ false)
        (λ bytes. (is_up recorder.now ≡ true) × (bytes.now ≡ (disk_of recorder.now).bytes)) }
{
    match recorder {
        Recorder::Up(store) => Some(store.disk().bytes()),
        Recorder::Down(_) => None,
    }
}

/// An image that a crash may leave now. While it is up, its disk is at rest, and there is no image but the contents.
pub(crate) fn image_now(
    alloc: Global,
    recorder: &Recorder,
    image: Image,
) -> Result<Vec<u8>, OutOfMemory>
    requires { RunsForSome recorder.now }
    ensures { IfOk result (λ left. IsImageNow image recorder.now left.items) }
{
    match recorder {
        Recorder::Up(store) => {
            let disk = store.disk();
            let moment = disk.moment();
            if moment == u64::MAX {
                return Err(OutOfMemory);
            }
            Ok(disk.bytes().to_vec(alloc)?)
        }
        Recorder::Down(disk) => {
            let moment = disk.moment();
            if moment == u64::MAX {
                return Err(OutOfMemory);
            }
            disk.image(alloc, moment, image)
        }
    }
}
