ghost use Rattle.std.specs.Prelude.{◌≡◌, ℕ, List, length};
ghost use Rattle.rep_fields.specs.Decoding.{Decodes};
ghost use Rattle.rep_fields.specs.Digits.{FitsDigits, numeral};
ghost use Rattle.afd_records.specs.File.{trailer_text, HasTrailerText};

use crate::loose_fields::is_literal;
use crate::trailer::{TRAILER_LEN, Trailer};
use rep_fields::get_n;

// What a trailer begins with, and what it ends in.
const NINES: &[u8; 9] = b"999999999";

const TYPE: u8 = b'9';

/// The trailer that a line, without its end, is: just the lines that `print_trailer` gives, each with its counts. `None`
/// exactly where the line is none of them.
pub fn read_trailer(line: &[u8]) -> Option<Trailer>
    ensures found { Decodes (λ trailer. HasTrailerText trailer.counts) (λ trailer. trailer_text trailer.counts)
        line.now result }
    ensures only { (counts : List ℕ) → HasTrailerText counts → line.now ≡ trailer_text counts
        → result ≡ Some (record { counts = counts }) }
{
    read_counts(line)
}

// Reads the counts one by one.
fn read_counts(line: &[u8]) -> Option<Trailer>
    ensures { Decodes (λ trailer. HasTrailerText trailer.counts) (λ trailer. trailer_text trailer.counts)
        line.now result }
{
    if line.len() != TRAILER_LEN || !is_literal(&line[..9], NINES) || line[63] != TYPE {
        return None;
    }
    let Some(employers) = read_count(&line[9..18]) else {
        return None;
    };
    let Some(clockings_of_devices) = read_count(&line[18..27]) else {
        return None;
    };
    let Some(adjustments) = read_count(&line[27..36]) else {
        return None;
    };
    let Some(workers) = read_count(&line[36..45]) else {
        return None;
    };
    let Some(events) = read_count(&line[45..54]) else {
        return None;
    };
    let Some(clockings) = read_count(&line[54..63]) else {
        return None;
    };
    Some(Trailer {
        counts: [
            employers,
            clockings_of_devices,
            adjustments,
            workers,
            events,
            clockings,
        ],
    })
}

// How many records of a type there are, in nine digits.
fn read_count(field: &[u8]) -> Option<u32>
    requires { length field.now ≡ 9 }
    ensures { Decodes (FitsDigits 9) (numeral 9) field.now result }
{
    let Some(count) = get_n(field) else {
        return None;
    };
    Some(count as u32)
}
