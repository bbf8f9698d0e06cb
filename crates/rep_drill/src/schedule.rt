//! The lines of a schedule.
ghost use Rattle.std.specs.Prelude.{◌≡◌, ◌≤◌, ◌∷◌, codes, decimal, IfSome, MatchOption, Some};
ghost use Rattle.std.specs.Option.{option_copied};
ghost use Rattle.rep_fields.specs.Decoding.{Decodes};
ghost use Rattle.rep_fields.specs.Digits.{numeral};
ghost use Rattle.rep_io.specs.Streams.{IsReading};
ghost use Rattle.rep_wire.specs.Fields.{fields_of, fields_behind};
ghost use Rattle.rep_wire.specs.Request.{IsOrigin};
ghost use Rattle.rep_wire.specs.LaneGrammar.{last_kind};
ghost use Rattle.rep_wire.specs.declared.head.LaneHead.{LaneHead as TheHead};
ghost use Rattle.rep_world.specs.declared.event.Event.{Event as TheEvent};
ghost use Rattle.rep_drill.specs.Schedule.{IsCall, IsHeadBy, IsMessageNumber, SaysEvent, SaysFields, SaysNone, image_text, lost_text};

use crate::cutting::{cut, next, one, three};
use rep_disk::Image;
use rep_fields::{Day, Text, get_n, read_decimal};
use rep_io::{FIRST_READING, LAST_READING};
use rep_wire::{LaneHead, Order, read_line};
use rep_world::Event;

/// The greatest number of an origin.
const LAST_ORIGIN: u64 = 65_535;

/// The greatest kind of a lane, and how many digits it has.
const LAST_KIND: u64 = 5;

const KIND_DIGITS: usize = 2;

/// The greatest number of a message.
const LAST_MESSAGE: u64 = 4_294_967_295;

/// The range of a clock's minutes.
const FIRST_MINUTE: u64 = FIRST_READING as u64;

const LAST_MINUTE: u64 = LAST_READING as u64;

/// The device calls of a put.
const CALLS: u64 = 4;

/// The event that a line of a schedule says, without the line's end.
///
/// `None` exactly where it says none. `S|origin|kind|line` sends what a lane with this origin and kind asks by that line;
/// `D|k|minute|lost` delivers message k, `lost` being 0 or 1; `F|k|minute|call` and `K|k|minute|call|image` deliver it, and
/// the device call with this number of its put, 1 to 4, fails or is crashed in; `C|image` is a crash at rest, `O` a
/// reopening, and `X|from|to|minute` an extraction, whose last day isn't before the first. An image is `o`, `n` or `x`:
/// what was pending stands as before, as written, or as other bytes. Minutes are those of a clock.
pub fn read_event(line: &[u8]) -> Option<Event>
    ensures found { IfSome result (SaysEvent line.now) }
    ensures only { (event : TheEvent) → SaysEvent line.now event → result ≡ Some event }
{
    event_of(line)
}

// The same, by the letter in its first field.
fn event_of(line: &[u8]) -> Option<Event>
    ensures { MatchOption result (SaysNone (fields_of line.now)) (SaysEvent line.now) }
{
    let (letter, fields) = cut(line);
    if letter == b"S".as_slice() {
        return read_send(fields);
    }
    if letter == b"D".as_slice() {
        return read_deliver(fields);
    }
    if letter == b"F".as_slice() {
        return read_fail(fields);
    }
    if letter == b"K".as_slice() {
        return read_crash(fields);
    }
    if letter == b"C".as_slice() {
        return read_rest(fields);
    }
    if letter == b"O".as_slice() {
        return read_reopen(fields);
    }
    if letter == b"X".as_slice() {
        return read_extract(fields);
    }
    None
}

// The request that a lane's line asks.
fn read_send(fields: Option<&[u8]>) -> Option<Event>
    ensures { MatchOption result (SaysNone (codes "S" ∷ fields_behind (option_copied fields.entry)))
        (SaysFields (codes "S" ∷ fields_behind (option_copied fields.entry))) }
{
    let Some((origin, rest)) = next(fields) else {
        return None;
    };
    let Some((kind, rest)) = next(rest) else {
        return None;
    };
    let Some(line) = rest else {
        return None;
    };
    let Some(head) = head_of(origin, kind) else {
        return None;
    };
    match read_line(line, &head) {
        Ok(Order::Asked(request)) => Some(Event::Send { request }),
        Ok(Order::Extract { .. }) => None,
        Err(_) => None,
    }
}

// The head of a lane with this origin and kind.
fn head_of(origin: &[u8], kind: &[u8]) -> Option<LaneHead>
    ensures { MatchOption result ((head : TheHead) → IsHeadBy origin.now kind.now head → ⊥) (IsHeadBy origin.now kind.now) }
{
    let Some(origin) = read_origin(origin) else {
        return None;
    };
    let Some(kind) = read_kind(kind) else {
        return None;
    };
    Some(LaneHead {
        origin,
        kind,
        script: Text::empty(),
    })
}

// The number of an origin: 1 to 65,535 without zeros in front.
fn read_origin(text: &[u8]) -> Option<u16>
    ensures { Decodes IsOrigin decimal text.now result }
{
    let origin = read_decimal(text)?;
    if origin == 0 || origin > LAST_ORIGIN {
        return None;
    }
    Some(origin as u16)
}

// The kind of a lane: two digits, 00 to 05.
fn read_kind(text: &[u8]) -> Option<u8>
    ensures { Decodes (λ kind. kind ≤ last_kind) (numeral 2) text.now result }
{
    if text.len() != KIND_DIGITS {
        return None;
    }
    let kind = get_n(text)?;
    if kind > LAST_KIND {
        return None;
    }
    Some(kind as u8)
}

// The message, the minute, and whether the reply is lost.
fn read_deliver(fields: Option<&[u8]>) -> Option<Event>
    ensures { MatchOption result (SaysNone (codes "D" ∷ fields_behind (option_copied fields.entry)))
        (SaysFields (codes "D" ∷ fields_behind (option_copied fields.entry))) }
{
    let Some((k, minute, lost)) = three(fields) else {
        return None;
    };
    let Some(k) = message_of(k) else {
        return None;
    };
    let Some(minute) = minute_of(minute) else {
        return None;
    };
    let Some(lost) = lost_of(lost) else {
        return None;
    };
    Some(Event::Deliver { k, minute, lost })
}

// The message, the minute, and the device call that fails.
fn read_fail(fields: Option<&[u8]>) -> Option<Event>
    ensures { MatchOption result (SaysNone (codes "F" ∷ fields_behind (option_copied fields.entry)))
        (SaysFields (codes "F" ∷ fields_behind (option_copied fields.entry))) }
{
    let Some((k, minute, call)) = three(fields) else {
        return None;
    };
    let Some(k) = message_of(k) else {
        return None;
    };
    let Some(minute) = minute_of(minute) else {
        return None;
    };
    let Some(call) = call_of(call) else {
        return None;
    };
    Some(Event::Fail { k, minute, call })
}

// The message, the minute, the device call that a crash comes in, and its image.
fn read_crash(fields: Option<&[u8]>) -> Option<Event>
    ensures { MatchOption result (SaysNone (codes "K" ∷ fields_behind (option_copied fields.entry)))
        (SaysFields (codes "K" ∷ fields_behind (option_copied fields.entry))) }
{
    let Some((k, rest)) = next(fields) else {
        return None;
    };
    let Some((minute, call, image)) = three(rest) else {
        return None;
    };
    let Some(k) = message_of(k) else {
        return None;
    };
    let Some(minute) = minute_of(minute) else {
        return None;
    };
    let Some(call) = call_of(call) else {
        return None;
    };
    let Some(image) = image_of(image) else {
        return None;
    };
    Some(Event::Crash {
        k,
        minute,
        call,
        image,
    })
}

// The image of a crash between calls.
fn read_rest(fields: Option<&[u8]>) -> Option<Event>
    ensures { MatchOption result (SaysNone (codes "C" ∷ fields_behind (option_copied fields.entry)))
        (SaysFields (codes "C" ∷ fields_behind (option_copied fields.entry))) }
{
    let Some(image) = one(fields) else {
        return None;
    };
    let Some(image) = image_of(image) else {
        return None;
    };
    Some(Event::Rest { image })
}

// Nothing stands behind the letter.
fn read_reopen(fields: Option<&[u8]>) -> Option<Event>
    ensures { MatchOption result (SaysNone (codes "O" ∷ fields_behind (option_copied fields.entry)))
        (SaysFields (codes "O" ∷ fields_behind (option_copied fields.entry))) }
{
    match fields {
        Some(_) => None,
        None => Some(Event::Reopen),
    }
}

// The first and the last day, and the minute.
fn read_extract(fields: Option<&[u8]>) -> Option<Event>
    ensures { MatchOption result (SaysNone (codes "X" ∷ fields_behind (option_copied fields.entry)))
        (SaysFields (codes "X" ∷ fields_behind (option_copied fields.entry))) }
{
    let Some((first, last, minute)) = three(fields) else {
        return None;
    };
    let Some(from) = Day::read(first) else {
        return None;
    };
    let Some(to) = Day::read(last) else {
        return None;
    };
    if to.number < from.number {
        return None;
    }
    let Some(minute) = minute_of(minute) else {
        return None;
    };
    Some(Event::Extract { from, to, minute })
}

// The number of a message.
fn message_of(text: &[u8]) -> Option<u32>
    ensures { Decodes IsMessageNumber decimal text.now result }
{
    let k = read_decimal(text)?;
    if k > LAST_MESSAGE {
        return None;
    }
    Some(k as u32)
}

// A minute of a clock's range.
fn minute_of(text: &[u8]) -> Option<u32>
    ensures { Decodes IsReading decimal text.now result }
{
    let minute = read_decimal(text)?;
    if minute < FIRST_MINUTE {
        return None;
    }
    if minute > LAST_MINUTE {
        return None;
    }
    Some(minute as u32)
}

// The number of a device call of a put.
fn call_of(text: &[u8]) -> Option<u8>
    ensures { Decodes IsCall decimal text.now result }
{
    let call = read_decimal(text)?;
    if call == 0 {
        return None;
    }
    if call > CALLS {
        return None;
    }
    Some(call as u8)
}

// Whether the reply is lost.
fn lost_of(text: &[u8]) -> Option<bool>
    ensures { Decodes (λ _. Unit {0}) lost_text text.now result }
{
    if text == b"0".as_slice() {
        return Some(false);
    }
    if text == b"1".as_slice() {
        return Some(true);
    }
    None
}

// What becomes of the pending bytes.
fn image_of(text: &[u8]) -> Option<Image>
    ensures { Decodes (λ _. Unit {0}) image_text text.now result }
{
    if text == b"o".as_slice() {
        return Some(Image::Old);
    }
    if text == b"n".as_slice() {
        return Some(Image::New);
    }
    if text == b"x".as_slice() {
        return Some(Image::Odd);
    }
    None
}
