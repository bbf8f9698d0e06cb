//! The bytes that a text in a file of rows stands for.

use crate::fault::Fault;
use crate::line::{Line, cut_at};

/// The most bytes that one repetition may write.
const MOST_REPEATED: u64 = 100_000;

/// Where the reading of a text stands.
#[derive(Clone, Copy)]
enum Place {
    Plain,
    /// Behind a backslash.
    Escape,
    /// Behind `\x`.
    High,
    /// Behind `\x` and a digit of this value.
    Low(u8),
    /// Behind `\{` and the digits of this number.
    Times(u64),
}

/// Appends the bytes of a text: itself, but for `\xHH`, a byte by its hexadecimal digits, `\n` and `\r`, the ends of lines,
/// `\{N}`, the byte before it N times in all, `\-`, nothing, and a backslash before another byte, which stands for that.
/// Whether the text ends with a backslash.
pub(crate) fn push_text(line: &Line, text: &[u8], bytes: &mut Vec<u8>) -> Result<bool, Fault> {
    let mut place = Place::Plain;
    for byte in text {
        place = push_byte(line, place, *byte, bytes)?;
    }
    match place {
        Place::Plain => Ok(false),
        Place::Escape => Ok(true),
        Place::High | Place::Low(_) | Place::Times(_) => Err(line.fault("an escape has no end")),
    }
}

/// Appends the bytes of a text and LF, which is left out where a backslash ends the text.
pub(crate) fn push_line(line: &Line, text: &[u8], bytes: &mut Vec<u8>) -> Result<(), Fault> {
    if !push_text(line, text, bytes)? {
        bytes.push(b'\n')?;
    }
    Ok(())
}

fn push_byte(line: &Line, place: Place, byte: u8, bytes: &mut Vec<u8>) -> Result<Place, Fault> {
    match place {
        Place::Plain if byte == b'\\' => Ok(Place::Escape),
        Place::Plain => {
            bytes.push(byte)?;
            Ok(Place::Plain)
        }
        Place::Escape => push_escaped(byte, bytes),
        Place::High => match digit_of(byte) {
            Some(high) => Ok(Place::Low(high)),
            None => Err(line.fault("no hexadecimal digit")),
        },
        Place::Low(high) => match digit_of(byte) {
            Some(low) => {
                bytes.push(high.wrapping_mul(16).wrapping_add(low))?;
                Ok(Place::Plain)
            }
            None => Err(line.fault("no hexadecimal digit")),
        },
        Place::Times(times) if byte == b'}' => {
            repeat_last(line, times, bytes)?;
            Ok(Place::Plain)
        }
        Place::Times(times) => match decimal_of(byte) {
            Some(value) => Ok(Place::Times(times.saturating_mul(10).saturating_add(value))),
            None => Err(line.fault("no number in a repetition")),
        },
    }
}

/// What follows a backslash.
fn push_escaped(byte: u8, bytes: &mut Vec<u8>) -> Result<Place, Fault> {
    match byte {
        b'x' => return Ok(Place::High),
        b'{' => return Ok(Place::Times(0)),
        b'-' => {}
        b'n' => bytes.push(b'\n')?,
        b'r' => bytes.push(b'\r')?,
        _ => bytes.push(byte)?,
    }
    Ok(Place::Plain)
}

/// Makes the last byte stand so many times.
fn repeat_last(line: &Line, times: u64, bytes: &mut Vec<u8>) -> Result<(), Fault> {
    let Some(last) = bytes.last().copied() else {
        return Err(line.fault("nothing is there to be repeated"));
    };
    if times == 0 || times > MOST_REPEATED {
        return Err(line.fault("a repetition out of range"));
    }
    for _ in 1..times {
        bytes.push(last)?;
    }
    Ok(())
}

/// Appends a field of a record. `TEXT{N}` is the text with spaces behind it up to N bytes.
pub(crate) fn push_field(line: &Line, field: &[u8], bytes: &mut Vec<u8>) -> Result<(), Fault> {
    let Some(front) = field.strip_suffix(b"}") else {
        push_text(line, field, bytes)?;
        return Ok(());
    };
    let (text, width) = cut_at(front, b"{");
    if text.ends_with(b"\\") {
        push_text(line, field, bytes)?;
        return Ok(());
    }
    let Some(width) = number_of(width) else {
        return Err(line.fault("a field's width is no number"));
    };
    let from = bytes.len();
    push_text(line, text, bytes)?;
    let written = bytes.len().saturating_sub(from) as u64;
    if written > width {
        return Err(line.fault("a field is longer than its width"));
    }
    for _ in written..width.min(MOST_REPEATED) {
        bytes.push(b' ')?;
    }
    Ok(())
}

/// The value of a hexadecimal digit.
fn digit_of(byte: u8) -> Option<u8> {
    match byte {
        b'0'..=b'9' => Some(byte - b'0'),
        b'A'..=b'F' => Some(byte - b'A' + 10),
        b'a'..=b'f' => Some(byte - b'a' + 10),
        _ => None,
    }
}

fn decimal_of(byte: u8) -> Option<u64> {
    match byte {
        b'0'..=b'9' => Some(u64::from(byte - b'0')),
        _ => None,
    }
}

/// The number that decimal digits are.
pub(crate) fn number_of(text: &[u8]) -> Option<u64> {
    if text.is_empty() {
        return None;
    }
    let mut number = 0u64;
    for byte in text {
        let value = decimal_of(*byte)?;
        number = number.saturating_mul(10).saturating_add(value);
    }
    Some(number)
}
