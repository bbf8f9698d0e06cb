//! Texts of TOML as texts of ISO 8859-1.
ghost use Rattle.rep_fields.specs.Decoding.{DecodesBy};
ghost use Rattle.rep_fields.specs.Latin.{IsText};
ghost use Rattle.toml_fields.specs.Spelling.{IsSpelled};

use rep_fields::{Row, Text, is_latin};

const SPACE: u8 = b' ';

/// The text that the characters are in ISO 8859-1, without the spaces at its end. `None` exactly where one of them isn't
/// a printable character of ISO 8859-1, or more than `N` remain.
pub fn read_latin<const N: usize>(text: &str) -> Option<Text<N>>
    ensures { DecodesBy (IsText N) IsSpelled text.now result }
{
    let mut row = Row::<N>::new();
    for c in text.chars() {
        let Ok(byte) = u8::try_from(c) else {
            return None;
        };
        if row.len() < N && is_latin(byte) {
            row.push(byte);
        } else if byte != SPACE {
            return None;
        }
    }
    Text::read(row.bytes())
}
