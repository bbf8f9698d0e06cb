//! One pass over a piece of contents.
ghost use Rattle.std.specs.Prelude.{◌≡◌, ◌+◌, ◌<◌, ◌≤◌, drop, length, IfOk};
ghost use Rattle.rep_journal.specs.Format.{eight_bytes, two_bytes};
ghost use Rattle.rep_journal.specs.Scan.{ReadsFrame, TakesFrames};

use crate::format::{HEAD_SIZE, LONGEST_STAGE, OPEN_GATE};
use crate::frame::Frame;
use crate::frame_list::FrameList;
use crate::stop::Stop;
use rep_io::OutOfMemory;

#[tactic(auto, unfolding(crate::specs::Format::two_bytes))]
fn read_u16(bytes: &[u8]) -> u16
    requires { length bytes.now ≡ 2 }
    ensures { bytes.now ≡ two_bytes result }
{
    u16::from_be_bytes([bytes[0], bytes[1]])
}

#[tactic(auto, unfolding(crate::specs::Format::eight_bytes))]
fn read_u64(bytes: &[u8]) -> u64
    requires { length bytes.now ≡ 8 }
    ensures { bytes.now ≡ eight_bytes result }
{
    u64::from_be_bytes([
        bytes[0], bytes[1], bytes[2], bytes[3], bytes[4], bytes[5], bytes[6], bytes[7],
    ])
}

/// The frame at the front of the bytes. `None` exactly where no whole frame and gate byte stand there.
fn read_frame(bytes: &[u8]) -> Option<Frame>
    ensures { ReadsFrame bytes.now result }
{
    if bytes.len() < HEAD_SIZE {
        return None;
    }
    let size = read_u16(&bytes[..2]) as usize;
    if bytes.len() <= HEAD_SIZE + size {
        return None;
    }
    let origin = read_u16(&bytes[2..4]);
    let seq = read_u64(&bytes[4..HEAD_SIZE]);
    Frame::make(origin, seq, &bytes[HEAD_SIZE..HEAD_SIZE + size])
}

/// What stands behind a gate and a frame.
fn behind<'a>(bytes: &'a [u8], frame: &Frame) -> &'a [u8]
    requires { 13 + length frame.now.line ≤ length bytes.now }
    ensures { result.now ≡ drop (13 + length frame.now.line) bytes.now }
{
    let size = 1 + HEAD_SIZE + frame.line().len();
    &bytes[size..]
}

/// Takes the frames of a piece, of which the front is a gate. `is_last` says that the contents end with the piece.
pub(crate) fn take_frames(
    piece: &[u8],
    is_last: bool,
    list: &mut FrameList,
) -> Result<Stop, OutOfMemory>
    requires { 0 < length piece.now }
    ensures { IfOk result (λ stop. TakesFrames piece.now is_last list.old.frames list.new.frames stop) }
{
    let mut rest = piece;
    while is_last || rest.len() > LONGEST_STAGE {
        if rest[0] != OPEN_GATE {
            return Ok(Stop::Closed);
        }
        let Some(frame) = read_frame(&rest[1..]) else {
            return Ok(Stop::Broken);
        };
        rest = behind(rest, &frame);
        list.reserve()?;
        list.push(frame);
    }
    Ok(Stop::Cut)
}
