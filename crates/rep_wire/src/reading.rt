ghost use Rattle.std.specs.Prelude.{◌≡◌, ◌≤◌, length, IfOk, IfErr};
ghost use Rattle.std.specs.Option.{option_copied};
ghost use Rattle.rep_wire.specs.Fields.{fields_behind};
ghost use Rattle.rep_wire.specs.LaneGrammar.{IsLaneHead, Orders, IsMalformed, IsOffGrammar};
ghost use Rattle.rep_wire.specs.Asking.{CutsSeq};
ghost use Rattle.rep_wire.specs.declared.request.Order.{Order};

use crate::asking::{Fault, read_order};
use crate::cut::{cut, next};
use crate::head::LaneHead;
use crate::letter::letter_on;
use crate::request::Order;
use crate::value::read_seq;
use rep_io::LONGEST_LINE;

/// The field that is wrong where the number of fields is.
const NUMBER: u8 = 0;

/// The field of the letter.
const LETTER: u8 = 1;

/// The field of the sequence number.
const SEQ: u8 = 2;

/// Why a line orders nothing: the first field that is off its grammar.
#[derive(Clone, Copy, Debug, PartialEq, Eq)]
pub struct Malformed {
    /// The field's number, counted from 1: 1 for the letter, and 0 where the number of fields isn't the letter's.
    pub field: u8,
    /// The line's sequence number, or 0 where its second field isn't one.
    pub seq: u64,
}

/// What a line of a lane orders, without the line's end. The head is that of the lane.
///
/// # Errors
///
/// `Malformed` exactly where the line orders nothing. A line of more than 512 bytes has the field 0 and the sequence
/// number 0. Else the field is 1 where the letter isn't known or isn't allowed on the lane, 0 where the number of fields
/// isn't the letter's, and else the first field that isn't of its kind.
pub fn read_line(line: &[u8], head: &LaneHead) -> Result<Order, Malformed>
    requires { IsLaneHead head.now }
    ensures found { IfOk result (Orders head.now line.now) }
    ensures only { (order : Order) → Orders head.now line.now order → result ≡ Ok order }
    ensures malformed { IfErr result (IsMalformed head.now line.now) }
{
    if line.len() > LONGEST_LINE {
        return Err(Malformed {
            field: NUMBER,
            seq: 0,
        });
    }
    order_or_fault(line, head)
}

// The order of a line that isn't too long, or what is wrong with it.
fn order_or_fault(line: &[u8], head: &LaneHead) -> Result<Order, Malformed>
    requires head { IsLaneHead head.now }
    requires short { length line.now ≤ LONGEST_LINE }
    ensures found { IfOk result (Orders head.now line.now) }
    ensures off { IfErr result (IsOffGrammar head.now line.now) }
{
    let (first, fields) = cut(line);
    let (seq, behind) = cut_seq(fields);
    let told = seq.unwrap_or(0);
    let Some(letter) = letter_on(head, first) else {
        return Err(Malformed {
            field: LETTER,
            seq: told,
        });
    };
    match (read_order(head, letter, told, behind), seq) {
        (Ok(order), Some(_)) => Ok(order),
        (Ok(_), None) | (Err(Fault::Field(_)), None) => Err(Malformed {
            field: SEQ,
            seq: told,
        }),
        (Err(Fault::Field(field)), Some(_)) => Err(Malformed { field, seq: told }),
        (Err(Fault::Number), _) => Err(Malformed {
            field: NUMBER,
            seq: told,
        }),
    }
}

// The sequence number in the next field, and what stands behind that field.
fn cut_seq(fields: Option<&[u8]>) -> (Option<u64>, Option<&[u8]>)
    ensures { CutsSeq (fields_behind (option_copied fields.entry)) result.0
        (fields_behind (option_copied result.1)) }
{
    match next(fields) {
        Some((second, behind)) => (read_seq(second), behind),
        None => (None, None),
    }
}
