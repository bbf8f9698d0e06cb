ghost use Rattle.rep_fields.specs.Decoding.{Decodes};
ghost use Rattle.rep_wire.specs.LaneGrammar.{IsLaneHead, head_text};

use crate::cut::three;
use crate::value::{read_kind, read_origin};
use rep_fields::Text;

/// The kind of an operator's lane.
pub const OPERATOR: u8 = 0;

/// The head of a lane file: which collector it comes from.
#[derive(Clone, Copy, Debug)]
pub struct LaneHead {
    /// The number of the collector, or of the operator's desk, from 1 to 65,535.
    pub origin: u16,
    /// 0 for an operator, 1 to 5 for a kind of collector.
    pub kind: u8,
    /// What the link does to the calls, one letter each; empty, since no head says it yet.
    pub script: Text<200>,
}

/// Reads the first line of a lane file, `L|origin|kind`: the origin is 1 to 65,535 in decimal without zeros in front,
/// the kind has two digits, 00 to 05.
///
/// `None` exactly where the line is no head.
pub fn read_lane_head(line: &[u8]) -> Option<LaneHead>
    ensures { Decodes IsLaneHead head_text line.now result }
{
    let (first, origin, kind) = three(Some(line))?;
    if first != b"L".as_slice() {
        return None;
    }
    let origin = read_origin(origin)?;
    let kind = read_kind(kind)?;
    Some(LaneHead {
        origin,
        kind,
        script: Text::empty(),
    })
}
